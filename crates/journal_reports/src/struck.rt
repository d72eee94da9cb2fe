//! The lines for what was struck out.

ghost use Rattle.std.specs.Prelude.{◌≡◌, ◌++◌, ◌+◌, ◌-◌, ◌%◌, ◌<◌, ◌^◌, IfErr, IfOk, OnOk, string_bytes};
ghost use Rattle.review_sheet.specs.Layout.{Adds};
ghost use Rattle.journal_reports.specs.Struck.{pair_lines, strike_of, strike_text, struck_lines};
ghost use Rattle.journal_reports.specs.Struck.{struck_of, struck_text};
ghost use Rattle.journal_faults.specs.declared.unwritten.Unwritten.TheVariants.{NoMemory};
ghost use Rattle.no_memory.specs.Witness.{witness};

use crate::filter::Filter;
use journal_faults::Unwritten;
use std::alloc::{AllocError, Global};

// Adds that the event of a line didn't happen.
fn push_struck_text(text: &mut String, json: bool, line: u64) -> Result<(), AllocError>
    ensures { OnOk result (Adds text.old text.new (struck_text json line)) }
{
    if json {
        write!(text, "{{\"event\":\"struck\",\"line\":{line}}}\n")
    } else {
        write!(text, "{line}  didn't happen\n")
    }
}

// Adds that a line struck out the one before it.
fn push_strike_text(text: &mut String, json: bool, line: u64) -> Result<(), AllocError>
    ensures { OnOk result (Adds text.old text.new (strike_text json line)) }
{
    if json {
        write!(text, "{{\"event\":\"strike\",\"line\":{line}}}\n")
    } else {
        let before = line.saturating_sub(1);
        write!(text, "{line}  struck out line {before}\n")
    }
}

// Adds that the event of a line didn't happen, where it is asked for.
fn push_struck(text: &mut String, filter: &Filter<'_>, line: u64) -> Result<(), AllocError>
    ensures { OnOk result (Adds text.old text.new (struck_of filter.now line)) }
{
    if filter.shows_struck(line) {
        push_struck_text(text, filter.json, line)
    } else {
        Ok(())
    }
}

// Adds that a line struck out the one before it, where it is asked for.
fn push_strike(text: &mut String, filter: &Filter<'_>, line: u64) -> Result<(), AllocError>
    ensures { OnOk result (Adds text.old text.new (strike_of filter.now line)) }
{
    if filter.shows_struck(line) {
        push_strike_text(text, filter.json, line)
    } else {
        Ok(())
    }
}

// Adds both, of the two lines behind one.
fn push_pair(text: &mut String, filter: &Filter<'_>, behind: u64) -> Result<(), AllocError>
    requires { behind + 2 < 2 ^ 64 }
    ensures { OnOk result (Adds text.old text.new
        (struck_of filter.now (behind + 1) ++ strike_of filter.now (behind + 2))) }
{
    push_struck(text, filter, behind + 1)?;
    push_strike(text, filter, behind + 2)?;
    Ok(())
}

// Where the pairs begin among the lines behind one, up to the last.
fn first_pair(behind: u64, last: u64) -> u64
    ensures { result ≡ behind + (last - behind) % 2 }
{
    behind + last.saturating_sub(behind) % 2
}

// Adds the lines for those of the journal behind one, up to the last, two after two.
fn push_struck_lines(
    text: &mut String,
    filter: &Filter<'_>,
    behind: u64,
    last: u64,
) -> Result<(), AllocError>
    ensures { OnOk result
        (Adds text.old text.new (pair_lines filter.now behind (last - behind))) }
{
    let mut at = behind;
    'pairs: while last.saturating_sub(at) > 1 {
        push_pair(text, filter, at)?;
        at += 2;
    }
    Ok(())
}

/// The lines for those of the journal behind one whose event stands, up to the last: by none of them
/// an event stands. One that says that the event before is carried out is left out.
///
/// # Errors
///
/// Memory was refused.
pub(crate) fn struck(
    alloc: Global,
    filter: &Filter<'_>,
    behind: u64,
    last: u64,
) -> Result<String, Unwritten>
    ensures text { IfOk result (λ text.
        string_bytes text ≡ struck_lines filter.now behind (last - behind)) }
    ensures none { IfErr result (λ why. why ≡ NoMemory witness) }
{
    let mut text = String::new(alloc);
    let first = first_pair(behind, last);
    match push_struck_lines(&mut text, filter, first, last) {
        Ok(()) => Ok(text),
        Err(refused) => Err(Unwritten::NoMemory(refused.into())),
    }
}
