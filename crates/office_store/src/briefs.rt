//! The issued revision of a profile without its text.

ghost use Rattle.sqlite.specs.Held.{state};
ghost use Rattle.office_rows.specs.Told.{TellsOne};
ghost use Rattle.office_words.specs.Reads.{IsIssued};
ghost use Rattle.office_store.specs.Briefs.{brief_row, IsBrief, IsBriefOf};
ghost use Rattle.office_store.specs.Connections.{Reads, ReadsFirst};
ghost use Rattle.office_store.specs.Keys.{profile_params};
ghost use Rattle.office_store.specs.Shown.{IsIdle};

use crate::bind::of_profile;
use crate::column::{digest_at, number_at};
use crate::finding::find;
use crate::from_row::FromRow;
use office_words::{Fault, ProfileName};
use sqlite::{Alter, Connection, Row};

pub(crate) const ISSUED_BRIEF: &str =
    "SELECT number, digest FROM revisions WHERE team = ?1 AND profile = ?2 AND state = 2";

/// What names a revision of a profile and its text.
#[derive(Clone, Copy)]
pub struct Brief {
    /// Its number, from 1.
    pub number: u32,
    /// SHA-256 of its text.
    pub digest: [u8; 32],
}

impl FromRow<()> for Brief {
    ghost encode = { brief_row };

    ghost IsFormed = { IsBrief };

    fn from_row(_: (), row: &Row) -> Result<Brief, Fault> {
        if row.column_count() != 2 {
            return Err(Fault::NotAnOffice);
        }
        Ok(Brief {
            number: number_at(row, 0)?,
            digest: digest_at(row, 1)?,
        })
    }
}

/// The number and the digest of the revision of a profile that is issued, whose text isn't read.
pub fn issued_brief<S: Alter>(
    conn: &mut Connection<S>,
    profile: &ProfileName,
) -> Result<Option<Brief>, Fault>
    requires { IsIdle (state S.Store conn.old) }
    ensures read { Reads S.Store conn.old conn.new result
        (λ t brief. IsBriefOf (IsIssued t profile.now) brief) }
    ensures told { ReadsFirst S.Store conn.old conn.new
        ISSUED_BRIEF.now (profile_params profile.now) (TellsOne brief_row IsBrief) result }
{
    find((), conn, ISSUED_BRIEF, &of_profile(profile))
}
