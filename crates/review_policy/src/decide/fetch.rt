//! When what was issued of a profile may be fetched, or asked for.

ghost use Rattle.std.specs.Prelude.{◌≡◌};
ghost use Rattle.review_policy.specs.Rules.{fetch_rules, known_denial};

use super::first_denial;
use crate::denial::{Denial, Rule};
use crate::facts::FetchFacts;

/// Whether what was issued of a profile may be fetched, or its revision seen, or the first rule that
/// refuses it.
pub fn decide_fetch(facts: &FetchFacts) -> Result<(), Denial>
    ensures { result ≡ known_denial (fetch_rules facts.now) }
{
    first_denial(&[
        (Rule::RoleMissing, facts.role_missing),
        (Rule::OtherTeam, facts.other_team),
        (Rule::NothingIssued, facts.nothing_issued),
        (Rule::Held, facts.held),
    ])
}
