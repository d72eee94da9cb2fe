//! When the revisions of a profile may be seen.

ghost use Rattle.std.specs.Prelude.{◌≡◌};
ghost use Rattle.review_policy.specs.Rules.{known_denial, revisions_rules};

use super::first_denial;
use crate::denial::{Denial, Rule};
use crate::facts::RevisionsFacts;

/// Whether the revisions of a profile may be seen, or the first rule that refuses it.
pub fn decide_revisions(facts: &RevisionsFacts) -> Result<(), Denial>
    ensures { result ≡ known_denial (revisions_rules facts.now) }
{
    first_denial(&[
        (Rule::RoleMissing, facts.role_missing),
        (Rule::OtherTeam, facts.other_team),
        (Rule::NoProfile, facts.no_profile),
    ])
}
