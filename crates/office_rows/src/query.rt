//! The rows that a query answers.

ghost use Rattle.std.specs.Prelude.{◌≡◌, false};
ghost use Rattle.sqlite.specs.Held.{state};
ghost use Rattle.sqlite.specs.State.{HasCleanDisk, Survives, CommitsShowing};
ghost use Rattle.sqlite.specs.Values.{bound};
ghost use Rattle.office_rows.specs.Faults.{FindsRow};
ghost use Rattle.office_rows.specs.Told.{IsTold, TellsWhether};

use crate::fault::fault_of_error;
use office_words::Fault;
use sqlite::types::ValueRef;
use sqlite::{Alter, Connection, Error, Row};

/// The first row of a query's answer, or that there is none.
pub fn first_row<S: Alter>(
    conn: &mut Connection<S>,
    sql: &str,
    params: &[ValueRef<'_>],
) -> Result<Option<Row>, Fault>
    ensures row { HasCleanDisk (state S.Store conn.new) → FindsRow
        sql.now (bound params.now) (state S.Store conn.old) (state S.Store conn.new) result }
    ensures mode { conn.old.in_transaction ≡ false → conn.new.in_transaction ≡ false }
    ensures clean { HasCleanDisk (state S.Store conn.new) → HasCleanDisk (state S.Store conn.old) }
    ensures survives { Survives (state S.Store conn.old) (state S.Store conn.new)
        (CommitsShowing sql.now (bound params.now) (state S.Store conn.old)) }
{
    match conn.query_row(sql, params) {
        Ok(row) => Ok(Some(row)),
        Err(Error::QueryReturnedNoRows) => Ok(None),
        Err(error) => Err(fault_of_error(error)),
    }
}

/// Whether a query found a row.
pub fn is_there(found: Result<Option<Row>, Fault>) -> Result<bool, Fault>
    ensures { IsTold TellsWhether found result }
{
    let row = found?;
    Ok(row.is_some())
}
