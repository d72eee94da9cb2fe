//! When a revision, its review sheet or the profiles of a team may be seen.

ghost use Rattle.std.specs.Prelude.{◌≡◌};
ghost use Rattle.review_policy.specs.Rules.{known_denial, read_rules};

use super::first_denial;
use crate::denial::{Denial, Rule};
use crate::facts::ReadFacts;

/// Whether a revision, its review sheet or the profiles of a team may be seen, or the first rule
/// that refuses it.
pub fn decide_read(facts: &ReadFacts) -> Result<(), Denial>
    ensures { result ≡ known_denial (read_rules facts.now) }
{
    first_denial(&[
        (Rule::RoleMissing, facts.role_missing),
        (Rule::OtherTeam, facts.other_team),
        (Rule::NoRevision, facts.no_revision),
    ])
}
