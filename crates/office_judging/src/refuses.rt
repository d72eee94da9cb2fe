//! What each rule refuses, by what was looked up.

ghost use Rattle.std.specs.Prelude.{◌≡◌};
ghost use Rattle.review_policy.specs.Rules.{is_open, is_issued};
ghost use Rattle.office_judging.specs.Refusing.{nothing_issued, other_bytes, refuses};
ghost use Rattle.office_judging.specs.Refusing.{state_seen};

use crate::asking::{other_team, role_missing};
use crate::looked::Looked;
use crate::revisions::{state_in, state_of};
use office_store::Summary;
use office_words::{State, UserRow};
use review_policy::{Ask, ProfileView, Rule};

fn is_open(state: Option<State>) -> bool
    ensures { result ≡ is_open state }
{
    matches!(state, Some(State::Open))
}

fn is_issued(state: Option<State>) -> bool
    ensures { result ≡ is_issued state }
{
    matches!(state, Some(State::Issued))
}

// Whether the digest that is named isn't that of the revision.
fn other_bytes(ask: &Ask, found: &Option<Summary>) -> bool
    ensures { result ≡ other_bytes ask.now found.now }
{
    match (ask, found) {
        (Ask::Vote { digest, .. }, Some(summary)) => summary.digest != *digest,
        (Ask::Vote { .. }, None) => true,
        _ => false,
    }
}

// The state of the revision.
fn state_seen(ask: &Ask, looked: &Looked) -> Option<State>
    ensures { result ≡ state_seen ask.now looked.now }
{
    match ask {
        Ask::SeeRevision { .. } => match &looked.revision {
            Some(found) => state_in(found),
            None => None,
        },
        _ => state_of(&looked.summary.unwrap_or(None)),
    }
}

// Whether no revision of the profile is issued.
fn nothing_issued(ask: &Ask, looked: &Looked) -> bool
    ensures { result ≡ nothing_issued ask.now looked.now }
{
    match ask {
        Ask::SeeProfile {
            view: ProfileView::Fetch,
            ..
        } => !matches!(&looked.issued, Some(Some(_))),
        _ => !matches!(&looked.brief, Some(Some(_))),
    }
}

// Whether a rule refuses what is asked, where what it asks has been looked up.
pub(crate) fn refuses(caller: &UserRow, ask: &Ask, looked: &Looked, rule: Rule) -> bool
    ensures { result ≡ refuses caller.now ask.now looked.now rule }
{
    let state = state_seen(ask, looked);
    match rule {
        Rule::RoleMissing => role_missing(caller, ask),
        Rule::OtherTeam => other_team(caller, ask),
        Rule::NoRevision => state.is_none(),
        Rule::AuthorVotes | Rule::AuthorAdopts => looked.is_author.unwrap_or(false),
        Rule::NotOpen => !is_open(state),
        Rule::NotStanding => !(is_open(state) || is_issued(state)),
        Rule::NotIssued => !is_issued(state),
        Rule::OtherBytes => other_bytes(ask, &looked.summary.unwrap_or(None)),
        Rule::NothingIssued => nothing_issued(ask, looked),
        Rule::NoProfile => looked.no_profile.unwrap_or(false),
        Rule::AlreadyHeld | Rule::Held => looked.held.unwrap_or(false),
        Rule::NotHeld => !looked.held.unwrap_or(false),
        _ => false,
    }
}
