//! The number and the state of the last revision of a profile, and the number of the issued one.

ghost use Rattle.sqlite.specs.Held.{state};
ghost use Rattle.office_rows.specs.Told.{TellsOne};
ghost use Rattle.office_words.specs.Reads.{IsLast, IsIssued};
ghost use Rattle.office_store.specs.Connections.{Reads, ReadsFirst};
ghost use Rattle.office_store.specs.Keys.{profile_params};
ghost use Rattle.office_store.specs.Lists.{number_row, IsNumber, IsNumberOf};
ghost use Rattle.office_store.specs.Numbered.{numbered_row, IsNumbered, IsNumberedOf};
ghost use Rattle.office_store.specs.Shown.{IsIdle};

use crate::bind::of_profile;
use crate::column::{number_at, state_at};
use crate::finding::find;
use crate::from_row::FromRow;
use office_words::{Fault, ProfileName, State};
use sqlite::{Alter, Connection, Row};

pub(crate) const LAST_NUMBERED: &str =
    "SELECT number, state FROM revisions WHERE team = ?1 AND profile = ?2 ORDER BY number DESC LIMIT 1";

pub(crate) const ISSUED_NUMBER: &str =
    "SELECT number FROM revisions WHERE team = ?1 AND profile = ?2 AND state = 2";

/// A revision's number and its state.
#[derive(Clone, Copy)]
pub struct Numbered {
    pub number: u32,
    pub state: State,
}

impl FromRow<()> for Numbered {
    ghost encode = { numbered_row };

    ghost IsFormed = { IsNumbered };

    fn from_row(_: (), row: &Row) -> Result<Numbered, Fault> {
        if row.column_count() != 2 {
            return Err(Fault::NotAnOffice);
        }
        Ok(Numbered {
            number: number_at(row, 0)?,
            state: state_at(row, 1)?,
        })
    }
}

impl FromRow<()> for u32 {
    ghost encode = { number_row };

    ghost IsFormed = { IsNumber };

    fn from_row(_: (), row: &Row) -> Result<u32, Fault> {
        if row.column_count() != 1 {
            return Err(Fault::NotAnOffice);
        }
        number_at(row, 0)
    }
}

/// The revision of a profile with the greatest number.
pub fn last_numbered<S: Alter>(
    conn: &mut Connection<S>,
    profile: &ProfileName,
) -> Result<Option<Numbered>, Fault>
    requires { IsIdle (state S.Store conn.old) }
    ensures read { Reads S.Store conn.old conn.new result
        (λ t numbered. IsNumberedOf (IsLast t profile.now) numbered) }
    ensures told { ReadsFirst S.Store conn.old conn.new
        LAST_NUMBERED.now (profile_params profile.now)
        (TellsOne numbered_row IsNumbered) result }
{
    find((), conn, LAST_NUMBERED, &of_profile(profile))
}

/// The number of the revision of a profile that is issued.
pub fn issued_number<S: Alter>(
    conn: &mut Connection<S>,
    profile: &ProfileName,
) -> Result<Option<u32>, Fault>
    requires { IsIdle (state S.Store conn.old) }
    ensures read { Reads S.Store conn.old conn.new result
        (λ t number. IsNumberOf (IsIssued t profile.now) number) }
    ensures told { ReadsFirst S.Store conn.old conn.new
        ISSUED_NUMBER.now (profile_params profile.now) (TellsOne number_row IsNumber) result }
{
    find((), conn, ISSUED_NUMBER, &of_profile(profile))
}
