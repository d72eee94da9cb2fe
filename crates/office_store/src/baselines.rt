//! The table of baselines.

ghost use Rattle.std.specs.Prelude.{◌≡◌, [], ◌∷◌, option_map};
ghost use Rattle.sqlite.specs.Held.{state};
ghost use Rattle.sqlite.specs.declared.types.Value.TheVariants.{Text as SqlText};
ghost use Rattle.office_rows.specs.Told.{TellsOne};
ghost use Rattle.office_words.specs.Changes.{with_baseline};
ghost use Rattle.office_store.specs.Connections.{MeetsOnErr, Reads, ReadsFirst, Writes};
ghost use Rattle.office_store.specs.Adopted.{baseline_of, row_of_adopted, IsAdopted};
ghost use Rattle.office_store.specs.Calls.{Into};
ghost use Rattle.office_store.specs.Shown.{IsIdle};
ghost use Rattle.office_store.specs.Writes.{putting_baseline};

use crate::bind::{of_baseline, of_word};
use crate::column::{number_at, word_at};
use crate::finding::find;
use crate::from_row::FromRow;
use crate::write::write_one;
use office_words::{Fault, ProfileName, Word};
use sqlite::{Alter, Connection, Row};
use std::alloc::Global;

pub(crate) const BASELINE_OF: &str = "SELECT profile, number FROM baselines WHERE team = ?1";

pub(crate) const PUT_BASELINE: &str =
    "INSERT INTO baselines (team, profile, number) VALUES (?1, ?2, ?3) ON CONFLICT (team) DO UPDATE SET profile = ?2, number = ?3";

/// The revision that a team last adopted.
#[derive(Drop)]
pub struct Adopted {
    /// The name of its profile, which is of the team.
    pub profile: Word,
    pub number: u32,
}

impl FromRow<Global> for Adopted {
    ghost encode = { row_of_adopted };

    ghost IsFormed = { IsAdopted };

    fn from_row(alloc: Global, row: &Row) -> Result<Adopted, Fault> {
        if row.column_count() != 2 {
            return Err(Fault::NotAnOffice);
        }
        Ok(Adopted {
            profile: word_at(alloc, row, 0)?,
            number: number_at(row, 1)?,
        })
    }
}

/// The revision that a team last adopted.
pub fn baseline<S: Alter>(
    alloc: Global,
    conn: &mut Connection<S>,
    team: &Word,
) -> Result<Option<Adopted>, Fault>
    requires { IsIdle (state S.Store conn.old) }
    ensures read { Reads S.Store conn.old conn.new result
        (λ t adopted. option_map baseline_of adopted ≡ t.baselines team.now) }
    ensures told { ReadsFirst S.Store conn.old conn.new
        BASELINE_OF.now (SqlText team.now ∷ []) (TellsOne row_of_adopted IsAdopted) result }
{
    find(alloc, conn, BASELINE_OF, &of_word(team))
}

/// Makes a revision the baseline of its team, in the place of any earlier one.
pub fn put_baseline<S: Alter>(
    conn: &mut Connection<S>,
    profile: &ProfileName,
    number: u32,
) -> Result<(), Fault>
    requires { IsIdle (state S.Store conn.old) }
    ensures write { Writes S.Store conn.old conn.new result
        (Into (with_baseline profile.now number)) }
    ensures cause { MeetsOnErr S.Store conn.old conn.new
        (putting_baseline profile.now number) result }
{
    write_one(conn, PUT_BASELINE, &of_baseline(profile, number))
}
