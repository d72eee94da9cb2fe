//! The table of votes.

ghost use Rattle.std.specs.Prelude.{◌≡◌, option_map};
ghost use Rattle.sqlite.specs.Held.{state};
ghost use Rattle.office_rows.specs.Told.{TellsOne};
ghost use Rattle.office_words.specs.Changes.{with_vote};
ghost use Rattle.office_store.specs.Ballots.{vote_of, row_of_ballot, IsBallot};
ghost use Rattle.office_store.specs.Calls.{Into};
ghost use Rattle.office_store.specs.Connections.{MeetsOnErr, Reads, ReadsFirst, Writes};
ghost use Rattle.office_store.specs.Entries.{vote_entry};
ghost use Rattle.office_store.specs.Keys.{vote_params};
ghost use Rattle.office_store.specs.Shown.{IsIdle};
ghost use Rattle.office_store.specs.Writes.{putting_vote};

use crate::bind::{of_vote, of_voter};
use crate::column::flag_at;
use crate::finding::find;
use crate::from_row::FromRow;
use crate::write::write_one;
use office_words::{Fault, ProfileName, Word};
use sqlite::{Alter, Connection, Row};

pub(crate) const VOTE_AT: &str =
    "SELECT approve, security FROM votes WHERE team = ?1 AND profile = ?2 AND number = ?3 AND voter = ?4";

pub(crate) const PUT_VOTE: &str =
    "INSERT INTO votes (team, profile, number, voter, approve, security) VALUES (?1, ?2, ?3, ?4, ?5, ?6) ON CONFLICT (team, profile, number, voter) DO UPDATE SET approve = ?5, security = ?6";

/// A vote on a revision, and whether the voter holds the role security at it.
#[derive(Clone, Copy)]
pub struct Ballot {
    pub approves: bool,
    pub security: bool,
}

impl FromRow<()> for Ballot {
    ghost encode = { row_of_ballot };

    ghost IsFormed = { IsBallot };

    fn from_row(_: (), row: &Row) -> Result<Ballot, Fault> {
        if row.column_count() != 2 {
            return Err(Fault::NotAnOffice);
        }
        Ok(Ballot {
            approves: flag_at(row, 0)?,
            security: flag_at(row, 1)?,
        })
    }
}

/// The last vote of a user on a revision.
pub fn ballot_of<S: Alter>(
    conn: &mut Connection<S>,
    profile: &ProfileName,
    number: u32,
    voter: &Word,
) -> Result<Option<Ballot>, Fault>
    requires { IsIdle (state S.Store conn.old) }
    ensures read { Reads S.Store conn.old conn.new result
        (λ t ballot. option_map vote_of ballot ≡ t.votes profile.now number voter.now) }
    ensures told { ReadsFirst S.Store conn.old conn.new
        VOTE_AT.now (vote_params profile.now number voter.now)
        (TellsOne row_of_ballot IsBallot) result }
{
    find((), conn, VOTE_AT, &of_voter(profile, number, voter))
}

/// Puts a user's vote on a revision in the place of any earlier one of that user there.
pub fn put_vote<S: Alter>(
    conn: &mut Connection<S>,
    profile: &ProfileName,
    number: u32,
    voter: &Word,
    ballot: Ballot,
) -> Result<(), Fault>
    requires { IsIdle (state S.Store conn.old) }
    ensures write { Writes S.Store conn.old conn.new result
        (Into (with_vote profile.now number voter.now
        (record { approves = ballot.approves; security = ballot.security }))) }
    ensures cause { MeetsOnErr S.Store conn.old conn.new
        (putting_vote (vote_entry profile.now number voter.now ballot.approves ballot.security))
        result }
{
    write_one(conn, PUT_VOTE, &of_vote(profile, number, voter, ballot))
}
