//! When a user may be enrolled.

ghost use Rattle.std.specs.Prelude.{◌≡◌};
ghost use Rattle.review_policy.specs.Rules.{enrol_rules, known_denial};

use super::first_denial;
use crate::denial::{Denial, Rule};
use crate::facts::EnrolFacts;

/// Whether a user may be enrolled, or the first rule that refuses it.
pub fn decide_enrol(facts: &EnrolFacts) -> Result<(), Denial>
    ensures { result ≡ known_denial (enrol_rules facts.now) }
{
    first_denial(&[
        (Rule::RoleMissing, facts.role_missing),
        (Rule::OwnRow, facts.own_row),
        (Rule::TeamFixed, facts.team_fixed),
        (Rule::TokenTaken, facts.token_taken),
    ])
}
