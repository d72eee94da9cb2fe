//! Two offices, compared table by table.

ghost use Rattle.std.specs.Prelude.{◌≡◌, ◌↔◌, [], IsTrue, IfErr, IfOk, OnOk};
ghost use Rattle.sqlite.specs.Held.{state};
ghost use Rattle.sqlite.specs.State.{HasCleanDisk, IsLive, IsUnchanged};
ghost use Rattle.office_rows.specs.Causes.{HasFailed};
ghost use Rattle.office_store.specs.Schema.{office_schema};
ghost use Rattle.office_store.specs.Shown.{IsIdle, Shows};
ghost use Rattle.office_words.specs.Tables.{Tables};
ghost use Rattle.journal_verification.specs.Compared.{TellsOffice};
ghost use Rattle.journal_verification.specs.Looked.{HasLooked};
ghost use Rattle.journal_verification.specs.Reading.{IsAt, IsGiving};
ghost use Rattle.journal_verification.specs.Same.{FaultsRowids, TellsRowids};
ghost use Rattle.journal_verification.specs.Same.{TellsRows, TellsTables};
ghost use Rattle.journal_verification.specs.Same.{TellsTable};
ghost use Rattle.journal_verification.specs.SideBySide.{AreIdle, ComparesBoth};
ghost use Rattle.journal_verification.specs.Texts.{rowids_text, rows_text};

use crate::reading::read_on;
use crate::rows::Rising;
use crate::schema::is_same_schema;
use crate::side_by_side::readings_differ;
use crate::table::{FURTHER, rowids, rows};
use journal_faults::{Difference, Table};
use memory_database::want_of_memory;
use no_memory::NoMemory;
use office_rows::fault_of_error;
use office_words::Fault;
use sqlite::{Alter, Connection, Rows};
use std::alloc::Global;

// Whether the rowids that a reading from its start gives rise. No table has as many rows as the loop
// could read.
fn rowids_rise<S: Alter>(rows: &mut Rows<'_, S>) -> Result<bool, Fault>
    requires { IsIdle (state S.Store rows.old.conn.now) }
    ensures same_reference { rows.new.conn.ghost_name ≡ rows.old.conn.ghost_name }
    ensures looked { HasLooked (state S.Store rows.old.conn.now)
        (state S.Store rows.new.conn.now) }
    ensures rowids { HasCleanDisk (state S.Store rows.new.conn.now) → (table : Table)
        → IsAt S.Store (rowids_text table) rows.old.conn.now []
        → IfOk result (TellsRowids S.Store table (state S.Store rows.old.conn.now).now) }
    ensures unchanged { HasCleanDisk (state S.Store rows.new.conn.now)
        → IsTrue (state S.Store rows.old.conn.now).is_open → OnOk result
        (IsUnchanged (state S.Store rows.old.conn.now) (state S.Store rows.new.conn.now)) }
    ensures cause { HasCleanDisk (state S.Store rows.new.conn.now)
        → (state S.Store rows.old.conn.now).now.schema ≡ office_schema
        → IsGiving S.Store rows.old.conn.now → IfErr result
        (HasFailed (state S.Store rows.old.conn.now) (state S.Store rows.new.conn.now)) }
{
    let mut rising = Rising::Empty;
    'reading: for _ in 0..u64::MAX {
        read_on(rows)?;
        let Some(row) = rows.get() else {
            return Ok(rising.rises());
        };
        rising = rising.with(row);
    }
    Err(Fault::NoMemory(NoMemory::beyond()))
}

// Whether the rowids of a table rise.
fn have_rowids<S: Alter>(conn: &mut Connection<S>, table: Table) -> Result<bool, Fault>
    requires { IsIdle (state S.Store conn.old) }
    ensures looked { HasLooked (state S.Store conn.old) (state S.Store conn.new) }
    ensures rowids { HasCleanDisk (state S.Store conn.new) → IfOk result (TellsRowids S.Store
        table (state S.Store conn.old).now) }
    ensures unchanged { HasCleanDisk (state S.Store conn.new) → OnOk result
        (IsUnchanged (state S.Store conn.old) (state S.Store conn.new)) }
    ensures cause { HasCleanDisk (state S.Store conn.new)
        → (state S.Store conn.old).now.schema ≡ office_schema → IfErr result
        (HasFailed (state S.Store conn.old) (state S.Store conn.new)) }
{
    match conn.query(rowids(table), &[]) {
        Ok(mut rows) => rowids_rise(&mut rows),
        Err(error) => Err(fault_of_error(error)),
    }
}

// The row by which a table differs, where its rows do, of a reading of the rows that were built.
fn office_differs<S: Alter, T: Alter>(
    alloc: Global,
    built: &mut Rows<'_, S>,
    office: &mut Connection<T>,
    table: Table,
) -> Result<Option<Difference>, Fault>
    requires { AreIdle S.Store T.Store built.old.conn.now office.old }
    ensures same_reference { built.new.conn.ghost_name ≡ built.old.conn.ghost_name }
    ensures looks { ComparesBoth S.Store T.Store built.old.conn.now built.new.conn.now
        office.old office.new result (λ first second difference.
        IsAt S.Store (rows_text table) built.old.conn.now []
        → TellsRows S.Store T.Store table first second difference) }
{
    match office.query(rows(table), &[]) {
        Ok(mut rows) => readings_differ(alloc, built, &mut rows, table),
        Err(error) => Err(fault_of_error(error)),
    }
}

// The row by which a table differs, where its rows do. What was built is in memory, so what fails
// there fails for want of it.
fn rows_differ<S: Alter, T: Alter>(
    alloc: Global,
    built: &mut Connection<S>,
    office: &mut Connection<T>,
    table: Table,
) -> Result<Option<Difference>, Fault>
    requires { AreIdle S.Store T.Store built.old office.old }
    ensures { ComparesBoth S.Store T.Store built.old built.new office.old office.new
        result (TellsRows S.Store T.Store table) }
{
    match built.query(rows(table), &[]) {
        Ok(mut rows) => office_differs(alloc, &mut rows, office, table),
        Err(failed) => Err(Fault::NoMemory(want_of_memory(failed))),
    }
}

// The difference of a table whose rowids don't rise.
fn rowids_differ<S: Alter>(
    conn: &mut Connection<S>,
    table: Table,
) -> Result<Option<Difference>, Fault>
    requires { IsIdle (state S.Store conn.old) }
    ensures looked { HasLooked (state S.Store conn.old) (state S.Store conn.new) }
    ensures rowids { HasCleanDisk (state S.Store conn.new) → IfOk result (FaultsRowids S.Store
        table (state S.Store conn.old).now) }
    ensures unchanged { HasCleanDisk (state S.Store conn.new) → OnOk result
        (IsUnchanged (state S.Store conn.old) (state S.Store conn.new)) }
    ensures cause { HasCleanDisk (state S.Store conn.new)
        → (state S.Store conn.old).now.schema ≡ office_schema → IfErr result
        (HasFailed (state S.Store conn.old) (state S.Store conn.new)) }
{
    if have_rowids(conn, table)? {
        Ok(None)
    } else {
        Ok(Some(Difference::Row(table)))
    }
}

// The difference of a table, where it has one.
fn table_differs<S: Alter, T: Alter>(
    alloc: Global,
    built: &mut Connection<S>,
    office: &mut Connection<T>,
    table: Table,
) -> Result<Option<Difference>, Fault>
    requires { AreIdle S.Store T.Store built.old office.old }
    ensures { ComparesBoth S.Store T.Store built.old built.new office.old office.new
        result (TellsTable S.Store T.Store table) }
{
    let difference = rows_differ(alloc, built, office, table)?;
    match difference {
        Some(row) => Ok(Some(row)),
        None => rowids_differ(office, table),
    }
}

// The first difference of the tables, where there is one.
fn tables_differ<S: Alter, T: Alter>(
    alloc: Global,
    built: &mut Connection<S>,
    office: &mut Connection<T>,
) -> Result<Option<Difference>, Fault>
    requires { AreIdle S.Store T.Store built.old office.old }
    ensures { ComparesBoth S.Store T.Store built.old built.new office.old office.new
        result (TellsTables S.Store T.Store) }
{
    if let Some(row) = table_differs(alloc, built, office, Table::Office)? {
        return Ok(Some(row));
    }
    for table in &FURTHER {
        if let Some(row) = table_differs(alloc, built, office, *table)? {
            return Ok(Some(row));
        }
    }
    Ok(None)
}

// Whether an office has the schema of another, which has a plain one, and is at rest.
fn has_schema<S: Alter, T: Alter>(built: &Connection<S>, office: &Connection<T>) -> bool
    requires { IsIdle (state T.Store office.now) }
    ensures same { (state S.Store built.now).now.schema ≡ office_schema
        → IsTrue result ↔ (state T.Store office.now).now.schema ≡ office_schema }
    ensures sound { IsLive (state T.Store office.now) }
    ensures settled { IsTrue result → IsTrue (state T.Store office.now).is_open
        → (state T.Store office.now).now ≡ (state T.Store office.now).committed }
{
    office.is_autocommit() && is_same_schema(office.schema(), built.schema())
}

/// The first difference of an office from one that was built anew in memory, which shows tables.
/// Where there is none it shows them too. Nothing is changed.
pub(crate) fn compare<S: Alter, T: Alter>(
    alloc: Global,
    built: &mut Connection<S>,
    office: &mut Connection<T>,
) -> Result<Option<Difference>, Fault>
    requires built { IsIdle (state S.Store built.old) }
    requires office { IsIdle (state T.Store office.old) }
    ensures built { HasCleanDisk (state S.Store built.new) → HasCleanDisk (state S.Store built.old) }
    ensures office { HasLooked (state T.Store office.old) (state T.Store office.new) }
    ensures told { (t : Tables) → Shows (state S.Store built.old) t
        → HasCleanDisk (state S.Store built.new) → HasCleanDisk (state T.Store office.new)
        → IfOk result (TellsOffice S.Store T.Store t built.old office.old office.new) }
    ensures cause { (t : Tables) → Shows (state S.Store built.old) t
        → HasCleanDisk (state T.Store office.new)
        → IfErr result (HasFailed (state T.Store office.old) (state T.Store office.new)) }
{
    if !has_schema(built, office) {
        return Ok(Some(Difference::Schema));
    }
    tables_differ(alloc, built, office)
}
