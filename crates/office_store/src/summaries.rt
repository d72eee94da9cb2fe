//! Revisions without their texts.

ghost use Rattle.std.specs.Prelude.{◌≡◌, option_map};
ghost use Rattle.sqlite.specs.Held.{state};
ghost use Rattle.office_rows.specs.Told.{TellsOne};
ghost use Rattle.office_store.specs.Connections.{Reads, ReadsFirst};
ghost use Rattle.office_store.specs.Keys.{revision_params};
ghost use Rattle.office_store.specs.Shown.{IsIdle};
ghost use Rattle.office_store.specs.Summaries.{summary_of, summary_row, IsSummary};

use crate::bind::of_number;
use crate::column::{digest_at, state_at};
use crate::finding::find;
use crate::from_row::FromRow;
use office_words::{Fault, ProfileName, State};
use sqlite::{Alter, Connection, Row};

pub(crate) const STATE_AND_DIGEST: &str =
    "SELECT state, digest FROM revisions WHERE team = ?1 AND profile = ?2 AND number = ?3";

/// A revision without its text.
#[derive(Clone, Copy)]
pub struct Summary {
    pub state: State,
    /// SHA-256 of its text.
    pub digest: [u8; 32],
}

impl FromRow<()> for Summary {
    ghost encode = { summary_row };

    ghost IsFormed = { IsSummary };

    fn from_row(_: (), row: &Row) -> Result<Summary, Fault> {
        if row.column_count() != 2 {
            return Err(Fault::NotAnOffice);
        }
        Ok(Summary {
            state: state_at(row, 0)?,
            digest: digest_at(row, 1)?,
        })
    }
}

/// The state and the digest of a revision, whose text isn't read.
pub fn summary_at<S: Alter>(
    conn: &mut Connection<S>,
    profile: &ProfileName,
    number: u32,
) -> Result<Option<Summary>, Fault>
    requires { IsIdle (state S.Store conn.old) }
    ensures read { Reads S.Store conn.old conn.new result
        (λ t summary. summary ≡ option_map summary_of (t.revisions profile.now number)) }
    ensures told { ReadsFirst S.Store conn.old conn.new
        STATE_AND_DIGEST.now (revision_params profile.now number)
        (TellsOne summary_row IsSummary) result }
{
    find((), conn, STATE_AND_DIGEST, &of_number(profile, number))
}
