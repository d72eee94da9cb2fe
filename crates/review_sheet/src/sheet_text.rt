//! The whole sheet.

ghost use Rattle.std.specs.Prelude.{◌≡◌, ◌++◌, OnOk, IfOk, codes, string_bytes};
ghost use Rattle.hex.specs.Hex.{encode_lower};
ghost use Rattle.review_sheet.specs.Layout.{Adds, AddsLines, ended};
ghost use Rattle.review_sheet.specs.Sheet.{baseline_text, head_lines, sheet_text};

use crate::facts::SheetFacts;
use crate::filter::push_seccomp;
use crate::findings::{push_findings, push_need};
use crate::layout::{push_count, push_line};
use crate::sets::push_caps;
use crate::votes::{push_tally, push_votes};
use office_words::Word;
use std::alloc::{AllocError, Global};
use widening::findings;

/// The review sheet of a revision: lines that each end with a line feed.
///
/// The findings and the need are those against the document that the facts name. A sheet is written
/// straight into one text; besides `findings`, its time is that of its length.
///
/// # Errors
///
/// Memory was refused. No contract can say when.
pub fn sheet(alloc: Global, facts: &SheetFacts<'_>) -> Result<String, AllocError>
    ensures { IfOk result (λ text. string_bytes text ≡ sheet_text facts.now) }
{
    let found = findings(alloc, facts.base, facts.shown)?;
    let mut text = String::new(alloc);
    push_head(alloc, &mut text, facts)?;
    push_caps(&mut text, &facts.shown.caps)?;
    push_seccomp(&mut text, &facts.shown.filter)?;
    push_findings(&mut text, found.as_slice())?;
    let listed = facts.shown.listed_in(facts.listed);
    push_need(&mut text, listed, !found.is_empty())?;
    push_votes(&mut text, facts.votes.as_slice())?;
    push_tally(&mut text, facts.votes.as_slice())?;
    Ok(text)
}

// Adds which revision it is, where it stands, and what it is compared with.
fn push_head(alloc: Global, text: &mut String, facts: &SheetFacts<'_>) -> Result<(), AllocError>
    ensures { OnOk result (AddsLines text.old text.new (head_lines facts.now)) }
{
    let digest = digest_text(alloc, &facts.digest)?;
    text.push_str("REVIEW SHEET\n")?;
    push_line(text, "team: ", facts.team.as_str())?;
    push_line(text, "profile: ", facts.profile.as_str())?;
    push_count(text, "revision: ", facts.number as usize)?;
    push_line(text, "state: ", facts.state.word())?;
    push_line(text, "digest: ", digest.as_str())?;
    push_baseline(text, &facts.baseline)?;
    Ok(())
}

// A digest as 64 lower-case hexadecimal digits.
fn digest_text(alloc: Global, digest: &[u8; 32]) -> Result<String, AllocError>
    ensures { IfOk result (λ text. string_bytes text ≡ encode_lower digest.now) }
{
    hex::encode(alloc, digest.as_slice())
}

// Adds the adopted revision, or that there is none.
fn push_baseline(text: &mut String, baseline: &Option<(Word, u32)>) -> Result<(), AllocError>
    ensures { OnOk result
        (Adds text.old text.new (ended (codes "baseline: " ++ baseline_text baseline.now))) }
{
    match baseline {
        Some((profile, number)) => {
            let profile = profile.as_str();
            let number = *number;
            writeln!(text, "baseline: {profile} {number}")
        }
        None => text.push_str("baseline: closed\n"),
    }
}
