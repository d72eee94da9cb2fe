//! The standing votes on a revision, and how many of them approve and reject.

ghost use Rattle.std.specs.Prelude.{◌≡◌, ◌≢◌, ◌&&◌, List, Err, IfOk, IfErr, map};
ghost use Rattle.std.specs.List.{AllByRecursion};
ghost use Rattle.sqlite.specs.Held.{state};
ghost use Rattle.office_words.specs.Lists.{AreStanding, IsTally, tally_of};
ghost use Rattle.office_rows.specs.Told.{IsOfRow, map_ok};
ghost use Rattle.office_store.specs.Connections.{FindsAll, Reads, ReadsAll};
ghost use Rattle.office_store.specs.Lists.{Cast, cast_row, IsCastForm, IsCastAs};
ghost use Rattle.office_store.specs.Lists.{AreCastAs, AreVoteRows, TellsVotes, TellsTally};
ghost use Rattle.office_store.specs.Keys.{revision_params};
ghost use Rattle.office_store.specs.Shown.{IsIdle};

use crate::bind::of_number;
use crate::column::{flag_at, roles_at, word_at};
use office_rows::all_rows;
use office_words::{Fault, ProfileName, Role, Tally, VoteRow};
use sqlite::{Alter, Connection, Row};
use std::alloc::Global;

// A voter who has no row has no roles.
pub(crate) const VOTES_ON: &str =
    "SELECT votes.voter, votes.approve, votes.security, coalesce(users.roles, 0) AS roles FROM votes LEFT JOIN users ON users.name = votes.voter WHERE votes.team = ?1 AND votes.profile = ?2 AND votes.number = ?3 ORDER BY votes.voter";

// The rows of the votes on a revision, each with its voter's roles.
fn vote_rows<S: Alter>(
    conn: &mut Connection<S>,
    profile: &ProfileName,
    number: u32,
) -> Result<Vec<Row>, Fault>
    requires { IsIdle (state S.Store conn.old) }
    ensures read { Reads S.Store conn.old conn.new result
        (λ t rows. AreVoteRows t profile.now number rows.items) }
    ensures rows { FindsAll S.Store conn.old conn.new
        VOTES_ON.now (revision_params profile.now number) (map_ok result (λ rows. rows.items)) }
{
    all_rows(conn, VOTES_ON, &of_number(profile, number))
}

// Whether a vote has security: it counts, and its voter had security at it and has it now.
fn is_secure(counts: bool, had_security: bool, has_security: bool) -> bool
    ensures { result ≡ (counts && had_security && has_security) }
{
    counts && had_security && has_security
}

// The vote of a row, as it stands by its voter's present roles.
fn read_vote(alloc: Global, row: &Row) -> Result<VoteRow, Fault>
    ensures read { IfOk result (IsCastAs row.now) }
    ensures formed { (cast : Cast) → row.now ≡ cast_row cast → IsCastForm cast
        → result ≢ Err Fault.NotAnOffice }
    ensures cause { IfErr result IsOfRow }
{
    if row.column_count() != 4 {
        return Err(Fault::NotAnOffice);
    }
    let voter = word_at(alloc, row, 0)?;
    let approve = flag_at(row, 1)?;
    let had_security = flag_at(row, 2)?;
    let roles = roles_at(row, 3)?;
    let counts = roles.has(Role::Reviewer);
    let has_security = roles.has(Role::Security);
    let security = is_secure(counts, had_security, has_security);
    Ok(VoteRow {
        voter,
        approve,
        security,
        counts,
    })
}

// The votes of rows.
fn read_votes(alloc: Global, rows: &[Row]) -> Result<Vec<VoteRow>, Fault>
    ensures read { IfOk result (λ votes. AreCastAs rows.now votes.items) }
    ensures formed { (cast : List Cast) → rows.now ≡ map cast_row cast
        → AllByRecursion IsCastForm cast → result ≢ Err Fault.NotAnOffice }
    ensures cause { IfErr result IsOfRow }
{
    let mut votes = Vec::new(alloc);
    for row in rows {
        let vote = read_vote(alloc, row)?;
        votes
            .push(vote)
            .map_err(|refused| Fault::NoMemory(refused.into()))?;
    }
    Ok(votes)
}

/// The last vote of each user on a revision, by the name of the voter, in the order of its bytes:
/// whether it counts, and whether it has security, follow from the voter's present roles.
pub fn standing<S: Alter>(
    alloc: Global,
    conn: &mut Connection<S>,
    profile: &ProfileName,
    number: u32,
) -> Result<Vec<VoteRow>, Fault>
    requires { IsIdle (state S.Store conn.old) }
    ensures read { Reads S.Store conn.old conn.new result
        (λ t votes. AreStanding t profile.now number votes.items) }
    ensures told { ReadsAll S.Store conn.old conn.new
        VOTES_ON.now (revision_params profile.now number)
        TellsVotes
        (map_ok result (λ votes. votes.items)) }
{
    let rows = vote_rows(conn, profile, number)?;
    read_votes(alloc, rows.as_slice())
}

// Whether a vote approves with security.
fn approves_securely(vote: &VoteRow) -> bool
    ensures { result ≡ (vote.now.approve && vote.now.security) }
{
    vote.approve && vote.security
}

// How many votes count and approve.
fn approvals(votes: &[VoteRow]) -> usize
    ensures { result ≡ (tally_of votes.now).approvals }
{
    votes.iter().filter(|vote| vote.is_approval()).count()
}

// How many votes approve with security.
fn secure_approvals(votes: &[VoteRow]) -> usize
    ensures { result ≡ (tally_of votes.now).secure }
{
    votes.iter().filter(|vote| approves_securely(vote)).count()
}

// How many votes count and reject.
fn rejections(votes: &[VoteRow]) -> usize
    ensures { result ≡ (tally_of votes.now).rejections }
{
    votes.iter().filter(|vote| vote.is_rejection()).count()
}

// How the votes stand.
fn count(votes: &[VoteRow]) -> Tally
    ensures { result ≡ tally_of votes.now }
{
    Tally {
        approvals: approvals(votes) as u64,
        secure: secure_approvals(votes) as u64,
        rejections: rejections(votes) as u64,
    }
}

/// How many of the standing votes on a revision count and approve, approve with security, and count
/// and reject.
pub fn tally<S: Alter>(
    alloc: Global,
    conn: &mut Connection<S>,
    profile: &ProfileName,
    number: u32,
) -> Result<Tally, Fault>
    requires { IsIdle (state S.Store conn.old) }
    ensures read { Reads S.Store conn.old conn.new result
        (λ t tally. IsTally t profile.now number tally) }
    ensures told { ReadsAll S.Store conn.old conn.new
        VOTES_ON.now (revision_params profile.now number) TellsTally result }
{
    let votes = standing(alloc, conn, profile, number)?;
    Ok(count(votes.as_slice()))
}
