//! The rows of an answer, read one at a time.

ghost use Rattle.std.specs.Prelude.{◌≡◌, IsTrue, IfErr, OnOk};
ghost use Rattle.sqlite.specs.Given.{row_if};
ghost use Rattle.sqlite.specs.Held.{state};
ghost use Rattle.sqlite.specs.State.{HasCleanDisk, IsUnchanged};
ghost use Rattle.office_rows.specs.Causes.{HasFailed};
ghost use Rattle.office_store.specs.Schema.{office_schema};
ghost use Rattle.office_store.specs.Shown.{IsIdle};
ghost use Rattle.journal_verification.specs.Looked.{HasLooked};
ghost use Rattle.journal_verification.specs.Reading.{GivesBehind, GivesNext, GivesRest, IsGiving};

use no_memory::NoMemory;
use office_rows::fault_of_error;
use office_words::Fault;
use sqlite::{Alter, Rows};

/// Reads the next row, where there is one.
pub(crate) fn read_on<S: Alter>(rows: &mut Rows<'_, S>) -> Result<(), Fault>
    requires { IsIdle (state S.Store rows.old.conn.now) }
    ensures same_reference { rows.new.conn.ghost_name ≡ rows.old.conn.ghost_name }
    ensures looked { HasLooked (state S.Store rows.old.conn.now)
        (state S.Store rows.new.conn.now) }
    ensures next { HasCleanDisk (state S.Store rows.new.conn.now) → OnOk result
        (GivesNext S.Store rows.old.conn.now rows.new.conn.now
        (row_if rows.new.has_row rows.new.conn.now)) }
    ensures unchanged { HasCleanDisk (state S.Store rows.new.conn.now) → OnOk result
        (IsUnchanged (state S.Store rows.old.conn.now) (state S.Store rows.new.conn.now)) }
    ensures cause { HasCleanDisk (state S.Store rows.new.conn.now)
        → (state S.Store rows.old.conn.now).now.schema ≡ office_schema
        → IsGiving S.Store rows.old.conn.now → IfErr result
        (HasFailed (state S.Store rows.old.conn.now) (state S.Store rows.new.conn.now)) }
{
    match rows.advance() {
        Ok(()) => Ok(()),
        Err(error) => Err(fault_of_error(error)),
    }
}

// Reads all further rows. No table has as many as the loop could read.
fn read_out<S: Alter>(rows: &mut Rows<'_, S>) -> Result<(), Fault>
    requires { IsIdle (state S.Store rows.old.conn.now) }
    ensures same_reference { rows.new.conn.ghost_name ≡ rows.old.conn.ghost_name }
    ensures looked { HasLooked (state S.Store rows.old.conn.now)
        (state S.Store rows.new.conn.now) }
    ensures rest { HasCleanDisk (state S.Store rows.new.conn.now) → OnOk result
        (GivesRest S.Store rows.old.conn.now (state S.Store rows.new.conn.now).now) }
    ensures unchanged { HasCleanDisk (state S.Store rows.new.conn.now)
        → IsTrue (state S.Store rows.old.conn.now).is_open → OnOk result
        (IsUnchanged (state S.Store rows.old.conn.now) (state S.Store rows.new.conn.now)) }
    ensures cause { HasCleanDisk (state S.Store rows.new.conn.now)
        → (state S.Store rows.old.conn.now).now.schema ≡ office_schema
        → IsGiving S.Store rows.old.conn.now → IfErr result
        (HasFailed (state S.Store rows.old.conn.now) (state S.Store rows.new.conn.now)) }
{
    'reading: for _ in 0..u64::MAX {
        read_on(rows)?;
        let Some(_) = rows.get() else {
            return Ok(());
        };
    }
    Err(Fault::NoMemory(NoMemory::beyond()))
}

/// Reads all rows behind the one that was read last, unless that was the end.
pub(crate) fn read_rest<S: Alter>(rows: &mut Rows<'_, S>) -> Result<(), Fault>
    requires { IsIdle (state S.Store rows.old.conn.now) }
    ensures same_reference { rows.new.conn.ghost_name ≡ rows.old.conn.ghost_name }
    ensures looked { HasLooked (state S.Store rows.old.conn.now)
        (state S.Store rows.new.conn.now) }
    ensures rest { HasCleanDisk (state S.Store rows.new.conn.now) → OnOk result
        (GivesBehind S.Store rows.old.conn.now (row_if rows.old.has_row rows.old.conn.now)
        (state S.Store rows.new.conn.now).now) }
    ensures unchanged { HasCleanDisk (state S.Store rows.new.conn.now)
        → IsTrue (state S.Store rows.old.conn.now).is_open → OnOk result
        (IsUnchanged (state S.Store rows.old.conn.now) (state S.Store rows.new.conn.now)) }
    ensures cause { HasCleanDisk (state S.Store rows.new.conn.now)
        → (state S.Store rows.old.conn.now).now.schema ≡ office_schema
        → (IsTrue rows.old.has_row → IsGiving S.Store rows.old.conn.now) → IfErr result
        (HasFailed (state S.Store rows.old.conn.now) (state S.Store rows.new.conn.now)) }
{
    match rows.get() {
        Some(_) => read_out(rows),
        None => Ok(()),
    }
}
