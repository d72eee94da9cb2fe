//! The rows of a table of two offices, read side by side: no more than one of each is held.

ghost use Rattle.std.specs.Prelude.{◌≡◌, [], List, IsTrue, IfErr, IfOk};
ghost use Rattle.std.specs.Prelude.{MatchOption, option_copied};
ghost use Rattle.sqlite.specs.Given.{row_if};
ghost use Rattle.sqlite.specs.Held.{state};
ghost use Rattle.sqlite.specs.Order.{Row as Values};
ghost use Rattle.sqlite.specs.State.{HasCleanDisk, IsUnchanged};
ghost use Rattle.journal_verification.specs.Differing.{IsEarlier};
ghost use Rattle.journal_verification.specs.Named.{IsNamed};
ghost use Rattle.journal_verification.specs.Reading.{IsAt, IsGiving, ReadsNext, ReadsRest};
ghost use Rattle.journal_verification.specs.Reading.{TellsNext};
ghost use Rattle.journal_verification.specs.Same.{TellsRows};
ghost use Rattle.journal_verification.specs.SideBySide.{AreIdle, ReadsBoth};
ghost use Rattle.journal_verification.specs.Texts.{key_width, rows_text};
ghost use Rattle.no_memory.specs.Witness.{witness};

use crate::naming::named;
use crate::reading::{read_on, read_rest};
use crate::rows::earlier;
use crate::table::key_width;
use journal_faults::{Difference, Table};
use memory_database::want_of_memory;
use no_memory::NoMemory;
use office_words::Fault;
use sqlite::{Alter, Row, Rows};
use std::alloc::Global;

// The difference that two rows at one place make, where they aren't one.
fn row_differs(
    alloc: Global,
    table: Table,
    left: Option<&Row>,
    right: Option<&Row>,
) -> Result<Option<Difference>, Fault>
    ensures differs { IfOk result (λ difference. MatchOption difference
        (option_copied left.entry ≡ option_copied right.entry) (λ d. (row : Values)
        × IsEarlier (key_width table) (option_copied left.entry) (option_copied right.entry) row
        × IsNamed table row d)) }
    ensures cause { IfErr result (λ fault. fault ≡ Fault.NoMemory witness) }
{
    let Some(row) = earlier(left, right, key_width(table)) else {
        return Ok(None);
    };
    let difference = named(alloc, table, row)?;
    Ok(Some(difference))
}

// Reads the next row of both. What was built is in memory, so what fails there fails for want of it.
fn read_both<S: Alter, T: Alter>(
    built: &mut Rows<'_, S>,
    office: &mut Rows<'_, T>,
) -> Result<(), Fault>
    requires { AreIdle S.Store T.Store built.old.conn.now office.old.conn.now }
    ensures { ReadsBoth S.Store T.Store built.old.conn built.new.conn office.old.conn
        office.new.conn result (IsGiving T.Store office.old.conn.now)
        (λ _. ReadsNext S.Store built.old.conn.now built.new.conn.now
        (row_if built.new.has_row built.new.conn.now))
        (λ _. ReadsNext T.Store office.old.conn.now office.new.conn.now
        (row_if office.new.has_row office.new.conn.now)) }
{
    match read_on(built) {
        Ok(()) => read_on(office),
        Err(failed) => Err(Fault::NoMemory(want_of_memory(failed))),
    }
}

// Reads all further rows of both.
fn read_rests<S: Alter, T: Alter>(
    built: &mut Rows<'_, S>,
    office: &mut Rows<'_, T>,
) -> Result<(), Fault>
    requires { AreIdle S.Store T.Store built.old.conn.now office.old.conn.now }
    ensures { ReadsBoth S.Store T.Store built.old.conn built.new.conn office.old.conn
        office.new.conn result
        (IsTrue office.old.has_row → IsGiving T.Store office.old.conn.now)
        (λ _. ReadsRest S.Store built.old.conn.now built.new.conn.now
        (row_if built.old.has_row built.old.conn.now))
        (λ _. ReadsRest T.Store office.old.conn.now office.new.conn.now
        (row_if office.old.has_row office.old.conn.now)) }
{
    match read_rest(built) {
        Ok(()) => read_rest(office),
        Err(failed) => Err(Fault::NoMemory(want_of_memory(failed))),
    }
}

// The difference of the next rows, where they aren't one; then all further ones are read too.
fn next_differs<S: Alter, T: Alter>(
    alloc: Global,
    built: &mut Rows<'_, S>,
    office: &mut Rows<'_, T>,
    table: Table,
) -> Result<Option<Difference>, Fault>
    requires { AreIdle S.Store T.Store built.old.conn.now office.old.conn.now }
    ensures { ReadsBoth S.Store T.Store built.old.conn built.new.conn office.old.conn
        office.new.conn result (IsGiving T.Store office.old.conn.now)
        (λ _. IsUnchanged (state S.Store built.old.conn.now) (state S.Store built.new.conn.now))
        (λ difference. IsUnchanged (state T.Store office.old.conn.now)
        (state T.Store office.new.conn.now)
        × (IsGiving T.Store office.old.conn.now → MatchOption difference
        (IsTrue office.new.has_row → IsGiving T.Store office.new.conn.now) (λ _. Unit {0}))
        × (HasCleanDisk (state S.Store built.new.conn.now) → (before : List Values)
        → IsAt S.Store (rows_text table) built.old.conn.now before
        → IsAt T.Store (rows_text table) office.old.conn.now before
        → TellsNext S.Store T.Store table built.new.conn.now office.new.conn.now
        before (row_if office.new.has_row office.new.conn.now) difference)) }
{
    read_both(built, office)?;
    match row_differs(alloc, table, built.get(), office.get())? {
        Some(difference) => {
            read_rests(built, office)?;
            Ok(Some(difference))
        }
        None => Ok(None),
    }
}

/// The row by which a table differs, of two readings of its rows that are at their start. No table
/// has as many as the loop could read.
pub(crate) fn readings_differ<S: Alter, T: Alter>(
    alloc: Global,
    built: &mut Rows<'_, S>,
    office: &mut Rows<'_, T>,
    table: Table,
) -> Result<Option<Difference>, Fault>
    requires { AreIdle S.Store T.Store built.old.conn.now office.old.conn.now }
    ensures { ReadsBoth S.Store T.Store built.old.conn built.new.conn office.old.conn
        office.new.conn result (IsGiving T.Store office.old.conn.now)
        (λ _. IsUnchanged (state S.Store built.old.conn.now) (state S.Store built.new.conn.now))
        (λ difference. IsUnchanged (state T.Store office.old.conn.now)
        (state T.Store office.new.conn.now)
        × (HasCleanDisk (state S.Store built.new.conn.now)
        → IsAt S.Store (rows_text table) built.old.conn.now []
        → IsAt T.Store (rows_text table) office.old.conn.now []
        → TellsRows S.Store T.Store table (state S.Store built.old.conn.now).now
        (state T.Store office.old.conn.now).now difference)) }
{
    'reading: for _ in 0..u64::MAX {
        if let Some(difference) = next_differs(alloc, built, office, table)? {
            return Ok(Some(difference));
        }
        let Some(_) = office.get() else {
            return Ok(None);
        };
    }
    Err(Fault::NoMemory(NoMemory::beyond()))
}
