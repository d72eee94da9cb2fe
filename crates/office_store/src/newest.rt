//! The newest revisions of a profile, without their texts.

ghost use Rattle.sqlite.specs.Held.{state};
ghost use Rattle.office_rows.specs.Told.{TellsAll, map_ok};
ghost use Rattle.office_words.specs.Lists.{AreNewest};
ghost use Rattle.office_store.specs.Connections.{Reads, ReadsAll};
ghost use Rattle.office_store.specs.Keys.{revision_params};
ghost use Rattle.office_store.specs.Lists.{told_row, IsToldForm, most_read};
ghost use Rattle.office_store.specs.Shown.{IsIdle};

use crate::bind::of_number;
use crate::column::{digest_at, number_at, state_at, word_at};
use crate::finding::find_all;
use crate::from_row::FromRow;
use office_words::{Fault, ProfileName, ProfileRevision};
use sqlite::{Alter, Connection, Row};
use std::alloc::Global;

// The key has this order, so that no more entries of it are read than there are rows.
pub(crate) const NEWEST_BELOW: &str =
    "SELECT number, state, digest, author FROM revisions WHERE team = ?1 AND profile = ?2 AND number < ?3 ORDER BY number DESC LIMIT 101";

impl FromRow<Global> for ProfileRevision {
    ghost encode = { told_row };

    ghost IsFormed = { IsToldForm };

    fn from_row(alloc: Global, row: &Row) -> Result<ProfileRevision, Fault> {
        if row.column_count() != 4 {
            return Err(Fault::NotAnOffice);
        }
        Ok(ProfileRevision {
            revision: number_at(row, 0)?,
            state: state_at(row, 1)?,
            digest: digest_at(row, 2)?,
            by: word_at(alloc, row, 3)?,
        })
    }
}

/// The newest revisions of a profile that have a number below this one, the newest first: one more
/// than a list has, where there are as many.
pub fn newest_below<S: Alter>(
    alloc: Global,
    conn: &mut Connection<S>,
    profile: &ProfileName,
    below: u32,
) -> Result<Vec<ProfileRevision>, Fault>
    requires { IsIdle (state S.Store conn.old) }
    ensures read { Reads S.Store conn.old conn.new result
        (λ t told. AreNewest t profile.now below most_read told.items) }
    ensures told { ReadsAll S.Store conn.old conn.new
        NEWEST_BELOW.now (revision_params profile.now below)
        (TellsAll told_row IsToldForm) (map_ok result (λ told. told.items)) }
{
    find_all(alloc, conn, NEWEST_BELOW, &of_number(profile, below))
}
