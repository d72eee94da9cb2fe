//! When a profile may be held or released.

ghost use Rattle.std.specs.Prelude.{◌≡◌};
ghost use Rattle.review_policy.specs.Rules.{hold_rule, hold_rules, known_denial};

use super::first_denial;
use crate::act::ProfileAct;
use crate::denial::{Denial, Rule};
use crate::facts::HoldFacts;

// The rule that asks for the hold, with whether it refuses.
fn rule_of(act: ProfileAct, held: bool) -> (Rule, bool)
    ensures { result ≡ hold_rule act held }
{
    match act {
        ProfileAct::Hold => (Rule::AlreadyHeld, held),
        ProfileAct::Release => (Rule::NotHeld, !held),
    }
}

/// Whether this may be done to a profile, or the first rule that refuses it.
pub fn decide_hold(act: ProfileAct, facts: &HoldFacts) -> Result<(), Denial>
    ensures { result ≡ known_denial (hold_rules act facts.now) }
{
    first_denial(&[
        (Rule::RoleMissing, facts.role_missing),
        (Rule::NoProfile, facts.no_profile),
        rule_of(act, facts.held),
    ])
}
