//! When a revision may be issued.

ghost use Rattle.std.specs.Prelude.{◌≡◌};
ghost use Rattle.review_policy.specs.Rules.{issue_rules, known_denial};

use super::{first_denial, is_open};
use crate::denial::{Denial, Rule};
use crate::facts::IssueFacts;

/// Whether a revision may be issued, or the first rule that refuses it.
pub fn decide_issue(facts: &IssueFacts) -> Result<(), Denial>
    ensures { result ≡ known_denial (issue_rules facts.now) }
{
    let needed = facts.need.approvals();
    let short = Rule::ApprovalsShort {
        got: facts.approvals,
        need: facts.need,
    };
    let insecure = facts.need.asks_security() && facts.secure == 0;
    first_denial(&[
        (Rule::RoleMissing, facts.role_missing),
        (Rule::NoRevision, facts.state.is_none()),
        (Rule::AuthorIssues, facts.author_issues),
        (Rule::NotOpen, !is_open(facts.state)),
        (Rule::Rejected, facts.rejections > 0),
        (short, facts.approvals < needed),
        (Rule::SecurityMissing, insecure),
        (Rule::Held, facts.held),
    ])
}
