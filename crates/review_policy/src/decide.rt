//! The decisions: the first rule that refuses the request of a caller who is known, by its facts.

ghost use Rattle.std.specs.Prelude.{◌≡◌, ◌≤◌, List, Bool, false, length, not};
ghost use Rattle.review_policy.specs.FirstRefusal.{IsDecision, any_refuses};
ghost use Rattle.review_policy.specs.Rules.{first_denial, need_of, is_open, is_issued, enrol_rules};
ghost use Rattle.review_policy.specs.Rules.{submit_rules, vote_rules, issue_rules, withdraw_rules};
ghost use Rattle.review_policy.specs.Rules.{adopt_rules, fetch_rules, hold_rules, known_denial};
ghost use Rattle.review_policy.specs.declared.facts.TheConstants.EnrolFacts as enrol_facts;
ghost use Rattle.review_policy.specs.declared.facts.TheConstants.SubmitFacts as submit_facts;
ghost use Rattle.review_policy.specs.declared.facts.TheConstants.VoteFacts as vote_facts;
ghost use Rattle.review_policy.specs.declared.facts.TheConstants.IssueFacts as issue_facts;
ghost use Rattle.review_policy.specs.declared.facts.TheConstants.WithdrawFacts as withdraw_facts;
ghost use Rattle.review_policy.specs.declared.facts.TheConstants.AdoptFacts as adopt_facts;
ghost use Rattle.review_policy.specs.declared.facts.TheConstants.FetchFacts as fetch_facts;
ghost use Rattle.review_policy.specs.declared.facts.TheConstants.HoldFacts as hold_facts;
ghost use Rattle.review_policy.specs.declared.act.ProfileAct.{ProfileAct};
ghost use Rattle.review_policy.specs.Acts.{holds};
ghost use Rattle.review_policy.specs.declared.denial.Rule.{Rule};

mod adopt;
mod enrol;
mod fetch;
mod hold;
mod issue;
mod read;
mod revisions;
mod submit;
mod vote;
mod withdraw;

use crate::denial::{Denial, Need, Rule};
pub use adopt::decide_adopt;
pub use enrol::decide_enrol;
pub use fetch::decide_fetch;
pub use hold::decide_hold;
pub use issue::decide_issue;
use office_words::State;
pub use read::decide_read;
pub use revisions::decide_revisions;
pub use submit::decide_submit;
pub use vote::decide_vote;
pub use withdraw::decide_withdraw;

/// How many approvals a revision needs: two, one of them with the role security, where its document
/// is wider than the baseline or holds a listed capability.
pub fn need(wide: bool, listed: bool) -> Need
    ensures { result ≡ need_of wide listed }
{
    if wide || listed {
        Need::TwoWithSecurity
    } else {
        Need::One
    }
}

/// The law of the decisions: the rule that a denial names refuses, no rule before it does, and its
/// number is its place; where nothing is denied, no rule refuses.
#[tactic(auto, using(crate::proofs::Decisions::first_denial_is_decision))]
pub fn the_first_refusing_rule_is_named()
    ensures { (rules : List (Rule × Bool)) → IsDecision 1 rules (first_denial rules) }
{}

/// The law of the facts that pass: no rule of their kind refuses `PASSING`. Of a hold and of its end
/// the profile is held where it isn't to be.
pub fn no_rule_refuses_passing_facts()
    ensures of_enrol { any_refuses (enrol_rules enrol_facts.PASSING) ≡ false }
    ensures of_submit { any_refuses (submit_rules submit_facts.PASSING) ≡ false }
    ensures of_vote { any_refuses (vote_rules vote_facts.PASSING) ≡ false }
    ensures of_issue { any_refuses (issue_rules issue_facts.PASSING) ≡ false }
    ensures of_withdraw { any_refuses (withdraw_rules withdraw_facts.PASSING) ≡ false }
    ensures of_adopt { any_refuses (adopt_rules adopt_facts.PASSING) ≡ false }
    ensures of_fetch { any_refuses (fetch_rules fetch_facts.PASSING) ≡ false }
    ensures of_hold { (act : ProfileAct)
        → any_refuses (hold_rules act (record hold_facts.PASSING { held = not (holds act) }))
        ≡ false }
{}

// The first rule that refuses a known caller, by its place behind rule 1, which asks for that. Each
// rule stands with whether it refuses.
fn first_denial(rules: &[(Rule, bool)]) -> Result<(), Denial>
    requires { length rules.now ≤ 254 }
    ensures { result ≡ known_denial rules.now }
{
    let mut number = 1;
    for (rule, refuses) in rules {
        number += 1;
        if *refuses {
            return Err(Denial {
                number,
                rule: *rule,
            });
        }
    }
    Ok(())
}

// Whether the revision is there and open.
fn is_open(state: Option<State>) -> bool
    ensures { result ≡ is_open state }
{
    matches!(state, Some(State::Open))
}

// Whether the revision is there and issued.
fn is_issued(state: Option<State>) -> bool
    ensures { result ≡ is_issued state }
{
    matches!(state, Some(State::Issued))
}
