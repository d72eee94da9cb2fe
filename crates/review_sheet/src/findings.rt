//! The words of the findings, and the lines of the findings, of the listed capabilities and of the
//! need.

ghost use Rattle.std.specs.Prelude.{◌≡◌, ◌++◌, ◌∷◌, ◌==◌, [], not, IfOk, OnOk, codes, map};
ghost use Rattle.std.specs.Prelude.{string_bytes};
ghost use Rattle.cap_sets.specs.Capability.{names_of, single};
ghost use Rattle.review_policy.specs.Rules.{need_of};
ghost use Rattle.review_sheet.specs.Layout.{Adds, AddsLines, ended};
ghost use Rattle.review_sheet.specs.Review.{finding_line, finding_text, findings_lines};
ghost use Rattle.review_sheet.specs.Review.{findings_text, need_text};
ghost use Rattle.review_sheet.specs.Sets.{set_line};
ghost use Rattle.widening.specs.declared.finding.Finding.TheVariants as finding;

use crate::layout::{push_count, push_line, push_names_line, push_set};
use cap_sets::Caps;
use review_policy::{Need, need};
use std::alloc::{AllocError, Global};
use widening::{CapSet, Finding};

/// The words of findings, each ended by a line feed, in order: their lines on a sheet without the
/// two spaces in front.
///
/// # Errors
///
/// Memory was refused. No contract can say when.
pub fn findings_text(alloc: Global, found: &[Finding]) -> Result<String, AllocError>
    ensures { IfOk result (λ text. string_bytes text ≡ findings_text found.now) }
{
    let mut text = String::new(alloc);
    for finding in found {
        push_finding(&mut text, finding)?;
    }
    Ok(text)
}

/// Adds the findings.
pub(crate) fn push_findings(text: &mut String, found: &[Finding]) -> Result<(), AllocError>
    ensures { OnOk result (AddsLines text.old text.new (findings_lines found.now)) }
{
    push_count(text, "findings: ", found.len())?;
    push_each(text, found)?;
    Ok(())
}

// Adds the lines of findings.
fn push_each(text: &mut String, found: &[Finding]) -> Result<(), AllocError>
    ensures { OnOk result (AddsLines text.old text.new (map finding_line found.now)) }
{
    for finding in found {
        push_indented(text, finding)?;
    }
    Ok(())
}

// Adds the line of a finding.
fn push_indented(text: &mut String, finding: &Finding) -> Result<(), AllocError>
    ensures { OnOk result (Adds text.old text.new (ended (finding_line finding.now))) }
{
    text.push_str("  ")?;
    push_finding(text, finding)
}

// Adds the words of a finding, and a line feed.
fn push_finding(text: &mut String, finding: &Finding) -> Result<(), AllocError>
    ensures { OnOk result (Adds text.old text.new (ended (finding_text finding.now))) }
{
    match finding {
        Finding::Cap(set, number) => push_capability(text, *set, *number),
        Finding::NoSeccomp => text.push_str("no-seccomp\n"),
        Finding::AnyArch => text.push_str("architecture any\n"),
        Finding::Arch(arch) => push_line(text, "architecture ", arch.as_str()),
        Finding::Flag(flag) => push_line(text, "flag ", flag.as_str()),
        Finding::Call(call) => push_line(text, "call ", call.as_str()),
        Finding::Default => text.push_str("default\n"),
    }
}

// The set of the capability of this number alone; none has a number above 40.
fn capability(number: u8) -> Caps
    ensures { names_of result ≡ names_of (single number) }
{
    if number > 40 {
        return Caps::empty();
    }
    match Caps::from_bits(1 << number) {
        Some(caps) => caps,
        None => Caps::empty(),
    }
}

// Adds the words of a capability of a set, and a line feed.
fn push_capability(text: &mut String, set: CapSet, number: u8) -> Result<(), AllocError>
    ensures { OnOk result (Adds text.old text.new (ended (finding_text (finding.Cap set number)))) }
{
    let name = set.name();
    write!(text, "capability {name} ")?;
    push_names_line(text, capability(number))?;
    Ok(())
}

// The words of a need.
fn need_text(need: Need) -> &'static str
    ensures { result.now ≡ need_text need }
{
    match need {
        Need::One => "1",
        Need::TwoWithSecurity => "2 with security",
    }
}

/// Adds the listed capabilities that the document holds, and how many approvals it needs.
pub(crate) fn push_need(text: &mut String, listed: Caps, wide: bool) -> Result<(), AllocError>
    ensures { OnOk result (AddsLines text.old text.new (set_line (codes "listed") listed
        ∷ (codes "need: " ++ need_text (need_of wide (not (listed == 0)))) ∷ [])) }
{
    push_set(text, "listed", listed)?;
    push_line(text, "need: ", need_text(need(wide, listed.bits() != 0)))?;
    Ok(())
}
