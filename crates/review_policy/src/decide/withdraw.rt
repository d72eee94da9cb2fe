//! When a revision may be taken back.

ghost use Rattle.std.specs.Prelude.{◌≡◌};
ghost use Rattle.review_policy.specs.Rules.{known_denial, withdraw_rules};

use super::{first_denial, is_issued, is_open};
use crate::denial::{Denial, Rule};
use crate::facts::WithdrawFacts;

/// Whether a revision may be taken back, or the first rule that refuses it.
pub fn decide_withdraw(facts: &WithdrawFacts) -> Result<(), Denial>
    ensures { result ≡ known_denial (withdraw_rules facts.now) }
{
    let stands = is_open(facts.state) || is_issued(facts.state);
    first_denial(&[
        (Rule::RoleMissing, facts.role_missing),
        (Rule::OtherTeam, facts.other_team),
        (Rule::NoRevision, facts.state.is_none()),
        (Rule::NotStanding, !stands),
    ])
}
