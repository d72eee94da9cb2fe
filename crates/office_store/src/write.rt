//! A write: statements in one transaction.

ghost use Rattle.std.specs.Prelude.{◌<◌, [], ◌∷◌, length, map};
ghost use Rattle.sqlite.specs.Held.{state};
ghost use Rattle.sqlite.specs.Values.{bound};
ghost use Rattle.office_rows.specs.Statements.{statement_of};
ghost use Rattle.office_store.specs.Connections.{MeetsOnErr, Writes};
ghost use Rattle.office_store.specs.Shown.{IsIdle};
ghost use Rattle.office_store.specs.Steps.{statement, AreSteps};

use office_rows::{Statement, fault_of_error, run_all};
use office_words::Fault;
use sqlite::types::ValueRef;
use sqlite::{Alter, Connection};

/// Runs the statements in one transaction: the tables are what all of them make of those that were
/// shown, or as they were.
fn write<S: Alter>(conn: &mut Connection<S>, statements: &[Statement<'_, '_>]) -> Result<(), Fault>
    requires idle { IsIdle (state S.Store conn.old) }
    requires some { 0 < length statements.now }
    ensures write { Writes S.Store conn.old conn.new result
        (AreSteps S.Store (map statement_of statements.now)) }
    ensures cause { MeetsOnErr S.Store conn.old conn.new (map statement_of statements.now) result }
{
    match run_all(conn, statements) {
        Ok(()) => Ok(()),
        Err(error) => Err(fault_of_error(error)),
    }
}

/// One statement in a transaction.
pub(crate) fn write_one<'a, S: Alter>(
    conn: &mut Connection<S>,
    first: &'a str,
    params: &'a [ValueRef<'a>],
) -> Result<(), Fault>
    requires { IsIdle (state S.Store conn.old) }
    ensures write { Writes S.Store conn.old conn.new result
        (AreSteps S.Store (statement first.now (bound params.now) ∷ [])) }
    ensures cause { MeetsOnErr S.Store conn.old conn.new
        (statement first.now (bound params.now) ∷ []) result }
{
    write(conn, &[Statement { sql: first, params }])
}

/// Two statements in one transaction.
pub(crate) fn write_two<'a, S: Alter>(
    conn: &mut Connection<S>,
    first: &'a str,
    first_params: &'a [ValueRef<'a>],
    second: &'a str,
    second_params: &'a [ValueRef<'a>],
) -> Result<(), Fault>
    requires { IsIdle (state S.Store conn.old) }
    ensures write { Writes S.Store conn.old conn.new result
        (AreSteps S.Store (statement first.now (bound first_params.now)
        ∷ statement second.now (bound second_params.now) ∷ [])) }
    ensures cause { MeetsOnErr S.Store conn.old conn.new
        (statement first.now (bound first_params.now)
        ∷ statement second.now (bound second_params.now) ∷ []) result }
{
    write(
        conn,
        &[
            Statement {
                sql: first,
                params: first_params,
            },
            Statement {
                sql: second,
                params: second_params,
            },
        ],
    )
}
