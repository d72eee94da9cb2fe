//! The difference that a row makes, by its key.

ghost use Rattle.std.specs.Prelude.{◌≡◌, ◌≢◌, Err, IfOk, IfErr};
ghost use Rattle.office_rows.specs.Told.{IsOfRow};
ghost use Rattle.journal_verification.specs.Named.{HasKey, HasProfile, IsKeyOf, IsNamed};
ghost use Rattle.journal_verification.specs.Named.{IsProfileAt};
ghost use Rattle.no_memory.specs.Witness.{witness};

use journal_faults::{Difference, Table};
use office_store::{number_at, word_at};
use office_words::{Fault, ProfileName};
use sqlite::Row;
use std::alloc::Global;

// The profile of the first two columns.
fn profile_at(alloc: Global, row: &Row) -> Result<ProfileName, Fault>
    ensures profile { IfOk result (IsProfileAt row.now) }
    ensures formed { HasProfile row.now → result ≢ Err Fault.NotAnOffice }
    ensures cause { IfErr result IsOfRow }
{
    Ok(ProfileName {
        team: word_at(alloc, row, 0)?,
        profile: word_at(alloc, row, 1)?,
    })
}

// The difference that a row of a table makes whose key can be read.
fn with_key(alloc: Global, table: Table, row: &Row) -> Result<Difference, Fault>
    ensures key { IfOk result (IsKeyOf table row.now) }
    ensures formed { HasKey table row.now → result ≢ Err Fault.NotAnOffice }
    ensures cause { IfErr result IsOfRow }
{
    Ok(match table {
        Table::Office => Difference::Office,
        Table::Users => Difference::User(word_at(alloc, row, 0)?),
        Table::Revisions => Difference::Revision {
            name: profile_at(alloc, row)?,
            number: number_at(row, 2)?,
        },
        Table::Votes => Difference::Vote {
            name: profile_at(alloc, row)?,
            number: number_at(row, 2)?,
            voter: word_at(alloc, row, 3)?,
        },
        Table::Baselines => Difference::Baseline(word_at(alloc, row, 0)?),
        Table::Holds => Difference::Hold(profile_at(alloc, row)?),
    })
}

/// The difference that a row of a table makes.
pub(crate) fn named(alloc: Global, table: Table, row: &Row) -> Result<Difference, Fault>
    ensures named { IfOk result (IsNamed table row.now) }
    ensures cause { IfErr result (λ fault. fault ≡ Fault.NoMemory witness) }
{
    match with_key(alloc, table, row) {
        Err(Fault::NotAnOffice) => Ok(Difference::Row(table)),
        other => other,
    }
}
