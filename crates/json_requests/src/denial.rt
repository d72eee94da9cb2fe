//! The JSON of a denial.

ghost use Rattle.std.specs.Prelude.{◌≡◌, codes, OnOk};
ghost use Rattle.serde_json.specs.Data.{no_members, object};
ghost use Rattle.json_tree.specs.Tokens.{Appends, open_tokens, tokens_of};
ghost use Rattle.json_requests.specs.Answers.{answer_members, denied_members, need_number};
ghost use Rattle.json_requests.specs.Answers.{reason_members, rule_members, shortage_of};

use crate::write::{write_number, write_text};
use json_tree::Writer;
use office_words::Text;
use review_policy::{Denial, Need, Rule};
use std::alloc::AllocError;

// How many approvals there were and how many are needed, where they were too few.
fn shortage_of(rule: Rule) -> Option<(u64, Need)>
    ensures { result ≡ shortage_of rule }
{
    match rule {
        Rule::ApprovalsShort { got, need } => Some((got, need)),
        _ => None,
    }
}

fn need_number(need: Need) -> u64
    ensures { result ≡ need_number need }
{
    match need {
        Need::One => 1,
        Need::TwoWithSecurity => 2,
    }
}

// The number and the word of the rule.
fn write_rule(out: &mut Writer, denial: Denial) -> Result<(), AllocError>
    ensures { OnOk result (Appends out.old out.new (open_tokens (rule_members denial))) }
{
    write_number(out, "rule", denial.number as u64)?;
    write_text(out, "word", denial.rule.word())
}

// The shortage of approvals, or the fault of a document.
fn write_reason(out: &mut Writer, rule: Rule, fault: &Option<Text>) -> Result<(), AllocError>
    ensures { OnOk result (Appends out.old out.new
        (open_tokens (reason_members (shortage_of rule) fault.now no_members))) }
{
    match shortage_of(rule) {
        Some((got, need)) => {
            write_number(out, "got", got)?;
            write_number(out, "need", need_number(need))
        }
        None => match fault {
            Some(text) => write_text(out, "fault", text.as_str()),
            None => Ok(()),
        },
    }
}

/// The answer that a rule refuses a request.
pub(crate) fn write_denied(
    out: &mut Writer,
    denial: Denial,
    fault: &Option<Text>,
) -> Result<(), AllocError>
    ensures { OnOk result (Appends out.old out.new
        (tokens_of (object (answer_members (codes "denied") (denied_members denial fault.now))))) }
{
    out.begin_object()?;
    write_text(out, "answer", "denied")?;
    write_reason(out, denial.rule, fault)?;
    write_rule(out, denial)?;
    out.end_object()
}
