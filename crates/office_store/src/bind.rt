//! The values of a statement's parameters: a key, or the row that is stored.

ghost use Rattle.std.specs.Prelude.{◌≡◌, true, [], ◌∷◌};
ghost use Rattle.sqlite.specs.declared.types.Value.TheVariants.{Text as SqlText, Blob};
ghost use Rattle.sqlite.specs.Values.{bound};
ghost use Rattle.office_words.specs.Words.{is_word};
ghost use Rattle.office_store.specs.Entries.{user_row, IsUser, IsProfileName, state_number};
ghost use Rattle.office_store.specs.Entries.{revision_row, IsRevision, vote_entry, vote_row};
ghost use Rattle.office_store.specs.Entries.{IsVote, baseline_entry, baseline_row, IsBaseline};
ghost use Rattle.office_store.specs.Keys.{profile_params, revision_params, author_params};
ghost use Rattle.office_store.specs.Keys.{vote_params};

use crate::column::bytes_of;
use crate::votes::Ballot;
use office_words::{ProfileName, RevisionRow, State, UserRow, Word};
use sqlite::types::{ToSql, ValueRef};

/// A word.
pub(crate) fn of_word(word: &Word) -> [ValueRef<'_>; 1]
    ensures row { bound result ≡ SqlText word.now ∷ [] }
    ensures formed { is_word word.now ≡ true }
{
    [word.as_str().to_sql()]
}

/// A word, and a text that isn't one.
pub(crate) fn of_bound<'a>(word: &'a Word, text: &'a str) -> [ValueRef<'a>; 2]
    ensures { bound result ≡ SqlText word.now ∷ SqlText text.now ∷ [] }
{
    let word = word.as_str();
    [word.to_sql(), text.to_sql()]
}

/// The key of a profile.
pub(crate) fn of_profile(profile: &ProfileName) -> [ValueRef<'_>; 2]
    ensures row { bound result ≡ profile_params profile.now }
    ensures formed { IsProfileName profile.now }
{
    let team = profile.team.as_str();
    let name = profile.profile.as_str();
    [team.to_sql(), name.to_sql()]
}

/// The row of a user.
pub(crate) fn of_user(user: &UserRow) -> [ValueRef<'_>; 4]
    ensures row { bound result ≡ user_row user.now }
    ensures formed { IsUser user.now }
{
    let name = user.name.as_str();
    let team = user.team.as_str();
    let roles = u32::from(user.roles.bits());
    let digest = bytes_of(&user.digest);
    [
        name.to_sql(),
        team.to_sql(),
        roles.to_sql(),
        digest.to_sql(),
    ]
}

/// The key of a revision.
pub(crate) fn of_number(profile: &ProfileName, number: u32) -> [ValueRef<'_>; 3]
    ensures row { bound result ≡ revision_params profile.now number }
{
    let team = profile.team.as_str();
    let name = profile.profile.as_str();
    [team.to_sql(), name.to_sql(), number.to_sql()]
}

/// A profile and the name of an author.
pub(crate) fn of_author<'a>(profile: &'a ProfileName, author: &'a Word) -> [ValueRef<'a>; 3]
    ensures row { bound result ≡ author_params profile.now author.now }
{
    let team = profile.team.as_str();
    let name = profile.profile.as_str();
    [team.to_sql(), name.to_sql(), author.as_str().to_sql()]
}

/// The digest of a token.
pub(crate) fn of_digest(digest: &[u8; 32]) -> [ValueRef<'_>; 1]
    ensures { bound result ≡ Blob digest.now ∷ [] }
{
    [digest.as_slice().to_sql()]
}

// The number of a state.
fn state_number(state: State) -> u32
    ensures { result ≡ state_number state }
{
    match state {
        State::Open => 0,
        State::Closed => 1,
        State::Issued => 2,
        State::Replaced => 3,
        State::Withdrawn => 4,
    }
}

/// The row of a revision.
pub(crate) fn of_revision<'a>(
    profile: &'a ProfileName,
    revision: &'a RevisionRow,
) -> [ValueRef<'a>; 7]
    ensures row { bound result ≡ revision_row (profile.now, revision.now) }
    ensures formed { IsRevision (profile.now, revision.now) }
{
    let team = profile.team.as_str();
    let name = profile.profile.as_str();
    let author = revision.author.as_str();
    let state = state_number(revision.state);
    let body = revision.body.as_str();
    let digest = bytes_of(&revision.digest);
    [
        team.to_sql(),
        name.to_sql(),
        revision.number.to_sql(),
        author.to_sql(),
        state.to_sql(),
        body.to_sql(),
        digest.to_sql(),
    ]
}

/// The row of a vote.
pub(crate) fn of_vote<'a>(
    profile: &'a ProfileName,
    number: u32,
    voter: &'a Word,
    ballot: Ballot,
) -> [ValueRef<'a>; 6]
    ensures row { bound result ≡ vote_row
        (vote_entry profile.now number voter.now ballot.approves ballot.security) }
    ensures formed { IsVote
        (vote_entry profile.now number voter.now ballot.approves ballot.security) }
{
    let team = profile.team.as_str();
    let name = profile.profile.as_str();
    let voter = voter.as_str();
    [
        team.to_sql(),
        name.to_sql(),
        number.to_sql(),
        voter.to_sql(),
        ballot.approves.to_sql(),
        ballot.security.to_sql(),
    ]
}

/// The key of a vote.
pub(crate) fn of_voter<'a>(
    profile: &'a ProfileName,
    number: u32,
    voter: &'a Word,
) -> [ValueRef<'a>; 4]
    ensures row { bound result ≡ vote_params profile.now number voter.now }
{
    let team = profile.team.as_str();
    let name = profile.profile.as_str();
    [
        team.to_sql(),
        name.to_sql(),
        number.to_sql(),
        voter.as_str().to_sql(),
    ]
}

/// The row of the baseline that a revision is for its team.
pub(crate) fn of_baseline(profile: &ProfileName, number: u32) -> [ValueRef<'_>; 3]
    ensures row { bound result ≡ baseline_row (baseline_entry profile.now number) }
    ensures formed { IsBaseline (baseline_entry profile.now number) }
{
    let team = profile.team.as_str();
    let name = profile.profile.as_str();
    [team.to_sql(), name.to_sql(), number.to_sql()]
}
