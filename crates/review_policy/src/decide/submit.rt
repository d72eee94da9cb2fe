//! When a document may be handed in.

ghost use Rattle.std.specs.Prelude.{◌≡◌};
ghost use Rattle.review_policy.specs.Rules.{known_denial, submit_rules};

use super::first_denial;
use crate::denial::{Denial, Rule};
use crate::facts::SubmitFacts;
use office_words::MAX_REVISIONS;

/// Whether a document may be handed in, or the first rule that refuses it.
pub fn decide_submit(facts: &SubmitFacts) -> Result<(), Denial>
    ensures { result ≡ known_denial (submit_rules facts.now) }
{
    first_denial(&[
        (Rule::RoleMissing, facts.role_missing),
        (Rule::OtherTeam, facts.other_team),
        (Rule::Document, facts.document),
        (Rule::SameAsOpen, facts.same_as_open),
        (Rule::RevisionsFull, facts.revisions >= MAX_REVISIONS),
    ])
}
