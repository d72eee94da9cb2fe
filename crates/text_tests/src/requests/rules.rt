//! Rules by facts that no conversation brings about.

use review_policy::decide::{decide_issue, decide_submit};
use review_policy::facts::{IssueFacts, SubmitFacts};
use review_policy::{Denial, Need, Rule, need};
use std::alloc::AllocError;

// What is decided of a submission where the last revision has this number.
fn submit_after(revisions: u32) -> Result<(), Denial> {
    decide_submit(&SubmitFacts {
        revisions,
        ..SubmitFacts::PASSING
    })
}

#[test]
fn a_profile_has_at_most_9999_revisions(rt: HostRuntime) {
    assert!(rt; submit_after(9_998).is_ok());
    assert!(rt;
        matches!(
            submit_after(9_999),
            Err(Denial {
                number: 6,
                rule: Rule::RevisionsFull
            })
        )
    );
}

// Writes the number and the word of a denial, how many approvals are short of how many, and `-`
// where nothing is denied.
fn push_told(told: &mut String, decision: Result<(), Denial>) -> Result<(), AllocError> {
    let Err(Denial { number, rule }) = decision else {
        return told.push_str(" -");
    };
    let word = rule.word();
    match rule {
        Rule::ApprovalsShort { got, need } => {
            let needed = need.approvals();
            write!(told, " {number} {word} {got} of {needed}")
        }
        _ => write!(told, " {number} {word}"),
    }
}

// What is decided of an issue by so many votes.
fn issue_by(need: Need, rejections: u64, approvals: u64, secure: u64) -> Result<(), Denial> {
    decide_issue(&IssueFacts {
        rejections,
        approvals,
        secure,
        need,
        ..IssueFacts::PASSING
    })
}

// Of each need, by no approval, one, one with security, two, two with one of security, and by a
// hundred and a rejection.
const BY_VOTES: &str = "\
     need 1 7 approvals-short 0 of 1 - - - - 6 rejected\n\
     need 2 7 approvals-short 0 of 2 7 approvals-short 1 of 2 7 approvals-short 1 of 2 8 security-missing - 6 rejected\n\
     need 2 7 approvals-short 0 of 2 7 approvals-short 1 of 2 7 approvals-short 1 of 2 8 security-missing - 6 rejected\n\
     need 2 7 approvals-short 0 of 2 7 approvals-short 1 of 2 7 approvals-short 1 of 2 8 security-missing - 6 rejected\n";

fn push_votes(told: &mut String, need: Need) -> Result<(), AllocError> {
    write!(told, "need {}", need.approvals())?;
    push_told(told, issue_by(need, 0, 0, 0))?;
    push_told(told, issue_by(need, 0, 1, 0))?;
    push_told(told, issue_by(need, 0, 1, 1))?;
    push_told(told, issue_by(need, 0, 2, 0))?;
    push_told(told, issue_by(need, 0, 2, 1))?;
    push_told(told, issue_by(need, 1, 100, 1))?;
    told.push('\n')
}

fn push_needs(told: &mut String) -> Result<(), AllocError> {
    for (wide, listed) in [(false, false), (true, false), (false, true), (true, true)] {
        push_votes(told, need(wide, listed))?;
    }
    Ok(())
}

#[test]
fn an_issue_needs_its_approvals_and_no_rejection(rt: HostRuntime) -> Result<(), AllocError> {
    let mut told = String::new(rt.alloc());
    push_needs(&mut told)?;
    assert_eq!(rt; told.as_str(), BY_VOTES);
    Ok(())
}
