//! What queries find, as values.

ghost use Rattle.std.specs.Prelude.{◌≡◌, false};
ghost use Rattle.sqlite.specs.Held.{state};
ghost use Rattle.sqlite.specs.State.{Survives, CommitsShowing};
ghost use Rattle.sqlite.specs.Values.{bound};
ghost use Rattle.office_rows.specs.Told.{TellsOne, TellsAll, TellsWhether, map_ok};
ghost use Rattle.office_store.specs.Connections.{ReadsAll, ReadsFirst};

use crate::from_row::{FromRow, read_all, read_first};
use office_rows::{all_rows, first_row, is_there};
use office_words::Fault;
use sqlite::types::ValueRef;
use sqlite::{Alter, Connection};
use std::alloc::Global;

/// The value of the first row that a query finds, if it finds one.
pub(crate) fn find<S: Alter, A: Drop, R: FromRow<A>>(
    memory: A,
    conn: &mut Connection<S>,
    sql: &str,
    params: &[ValueRef<'_>],
) -> Result<Option<R>, Fault>
    ensures told { ReadsFirst S.Store conn.old conn.new
        sql.now (bound params.now) (TellsOne R.encode R.IsFormed) result }
    ensures mode { conn.old.in_transaction ≡ false → conn.new.in_transaction ≡ false }
    ensures survives { Survives (state S.Store conn.old) (state S.Store conn.new)
        (CommitsShowing sql.now (bound params.now) (state S.Store conn.old)) }
{
    read_first(memory, first_row(conn, sql, params))
}

/// The values of all rows that a query finds.
pub(crate) fn find_all<S: Alter, R: FromRow<Global>>(
    alloc: Global,
    conn: &mut Connection<S>,
    sql: &str,
    params: &[ValueRef<'_>],
) -> Result<Vec<R>, Fault>
    ensures told { ReadsAll S.Store conn.old conn.new
        sql.now (bound params.now) (TellsAll R.encode R.IsFormed)
        (map_ok result (λ values. values.items)) }
    ensures mode { conn.old.in_transaction ≡ false → conn.new.in_transaction ≡ false }
    ensures survives { Survives (state S.Store conn.old) (state S.Store conn.new)
        (CommitsShowing sql.now (bound params.now) (state S.Store conn.old)) }
{
    read_all(alloc, all_rows(conn, sql, params))
}

/// Whether a query finds a row.
pub(crate) fn finds_any<S: Alter>(
    conn: &mut Connection<S>,
    sql: &str,
    params: &[ValueRef<'_>],
) -> Result<bool, Fault>
    ensures told { ReadsFirst S.Store conn.old conn.new
        sql.now (bound params.now) TellsWhether result }
    ensures mode { conn.old.in_transaction ≡ false → conn.new.in_transaction ≡ false }
    ensures survives { Survives (state S.Store conn.old) (state S.Store conn.new)
        (CommitsShowing sql.now (bound params.now) (state S.Store conn.old)) }
{
    is_there(first_row(conn, sql, params))
}
