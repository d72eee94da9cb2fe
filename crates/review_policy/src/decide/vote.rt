//! When a vote may be cast.

ghost use Rattle.std.specs.Prelude.{◌≡◌};
ghost use Rattle.review_policy.specs.Rules.{known_denial, vote_rules};

use super::{first_denial, is_open};
use crate::denial::{Denial, Rule};
use crate::facts::VoteFacts;

/// Whether a vote may be cast, or the first rule that refuses it.
pub fn decide_vote(facts: &VoteFacts) -> Result<(), Denial>
    ensures { result ≡ known_denial (vote_rules facts.now) }
{
    first_denial(&[
        (Rule::RoleMissing, facts.role_missing),
        (Rule::NoRevision, facts.state.is_none()),
        (Rule::AuthorVotes, facts.author_votes),
        (Rule::NotOpen, !is_open(facts.state)),
        (Rule::OtherBytes, facts.other_bytes),
    ])
}
