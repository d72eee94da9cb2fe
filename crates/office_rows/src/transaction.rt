//! Several statements in one transaction.

ghost use Rattle.std.specs.Prelude.{◌≡◌, false, map, IsTrue, IfErr, OnOk, OnErr};
ghost use Rattle.sqlite.specs.Effect.{Database};
ghost use Rattle.sqlite.specs.Held.{state};
ghost use Rattle.sqlite.specs.State.{HasCleanDisk, Survives, Shows};
ghost use Rattle.office_rows.specs.Statements.{statement_of, begun, RanAll, FailedIn, FailsFor};

use sqlite::types::ValueRef;
use sqlite::{Alter, Connection, Error};

/// A statement and the values of its parameters.
#[derive(Clone, Copy)]
pub struct Statement<'s, 'p> {
    pub sql: &'s str,
    pub params: &'p [ValueRef<'p>],
}

/// Runs the statements in turn and commits what they did; where one of them or the commit fails,
/// none has run.
pub fn run_all<S: Alter>(
    conn: &mut Connection<S>,
    statements: &[Statement<'_, '_>],
) -> Result<(), Error>
    requires { conn.old.in_transaction ≡ false }
    ensures all { HasCleanDisk (state S.Store conn.new) → OnOk result
        (RanAll S.Store (map statement_of statements.now) (begun conn.old)
        (state S.Store conn.new).now
        × Shows (state S.Store conn.old) (state S.Store conn.new)
        (state S.Store conn.new).now (state S.Store conn.new).now false) }
    ensures none { HasCleanDisk (state S.Store conn.new) → IsTrue (state S.Store conn.new).is_open
        → OnErr result ((state S.Store conn.new).now ≡ (state S.Store conn.old).committed
        × (state S.Store conn.new).committed ≡ (state S.Store conn.old).committed) }
    ensures cause { HasCleanDisk (state S.Store conn.new) → IfErr result
        (FailedIn S.Store (map statement_of statements.now) (begun conn.old) conn.new) }
    ensures met { HasCleanDisk (state S.Store conn.new)
        → IfErr result (FailsFor S.Store (map statement_of statements.now) conn.old conn.new) }
    ensures was_open { HasCleanDisk (state S.Store conn.new)
        → IsTrue (state S.Store conn.new).is_open → IsTrue (state S.Store conn.old).is_open }
    ensures mode { conn.new.in_transaction ≡ false }
    ensures clean { HasCleanDisk (state S.Store conn.new) → HasCleanDisk (state S.Store conn.old) }
    ensures crash { Survives (state S.Store conn.old) (state S.Store conn.new)
        (λ trees. (db : Database)
        × RanAll S.Store (map statement_of statements.now) (begun conn.old) db
        × (trees ≡ db.trees)) }
{
    let mut tx = conn.transaction();
    for statement in statements {
        tx.execute(statement.sql, statement.params)?;
    }
    tx.commit()?;
    Ok(())
}
