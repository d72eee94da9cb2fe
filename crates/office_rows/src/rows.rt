//! All rows that a query answers.

ghost use Rattle.std.specs.Prelude.{◌≡◌, false, IfOk, IfErr};
ghost use Rattle.sqlite.specs.Held.{state};
ghost use Rattle.sqlite.specs.State.{HasCleanDisk, Survives, CommitsShowing, Shown};
ghost use Rattle.sqlite.specs.Values.{bound};
ghost use Rattle.office_rows.specs.Rows.{IsFaultOf};

use crate::fault::fault_of_error;
use office_words::Fault;
use sqlite::types::ValueRef;
use sqlite::{Alter, Connection, Row};

/// All rows of a query's answer, in its order.
pub fn all_rows<S: Alter>(
    conn: &mut Connection<S>,
    sql: &str,
    params: &[ValueRef<'_>],
) -> Result<Vec<Row>, Fault>
    ensures rows { HasCleanDisk (state S.Store conn.new) → IfOk result (λ rows. Shown
        sql.now (bound params.now) (state S.Store conn.old) (state S.Store conn.new) rows.items) }
    ensures fault { HasCleanDisk (state S.Store conn.new) → IfErr result (IsFaultOf
        sql.now (bound params.now) (state S.Store conn.old) (state S.Store conn.new)) }
    ensures mode { conn.old.in_transaction ≡ false → conn.new.in_transaction ≡ false }
    ensures clean { HasCleanDisk (state S.Store conn.new) → HasCleanDisk (state S.Store conn.old) }
    ensures survives { Survives (state S.Store conn.old) (state S.Store conn.new)
        (CommitsShowing sql.now (bound params.now) (state S.Store conn.old)) }
{
    match conn.query_all(sql, params) {
        Ok(rows) => Ok(rows),
        Err(error) => Err(fault_of_error(error)),
    }
}
