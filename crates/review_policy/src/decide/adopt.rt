//! When a revision may become the baseline of its team.

ghost use Rattle.std.specs.Prelude.{◌≡◌};
ghost use Rattle.review_policy.specs.Rules.{adopt_rules, known_denial};

use super::{first_denial, is_issued};
use crate::denial::{Denial, Rule};
use crate::facts::AdoptFacts;

/// Whether a revision may become the baseline of its team, or the first rule that refuses it.
pub fn decide_adopt(facts: &AdoptFacts) -> Result<(), Denial>
    ensures { result ≡ known_denial (adopt_rules facts.now) }
{
    first_denial(&[
        (Rule::RoleMissing, facts.role_missing),
        (Rule::NoRevision, facts.state.is_none()),
        (Rule::AuthorAdopts, facts.author_adopts),
        (Rule::NotIssued, !is_issued(facts.state)),
    ])
}
