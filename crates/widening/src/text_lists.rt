//! Lists of texts compared: of architectures, of flags, and of names.

ghost use Rattle.std.specs.Prelude.{◌≡◌, ◌∷◌, ◌++◌, [], OnOk, if◌then◌else◌, map};
ghost use Rattle.widening.specs.Findings.{arch_findings, flag_findings, is_emptied};
ghost use Rattle.widening.specs.Texts.{added_texts, adds_a_text, is_added, lists};
ghost use Rattle.widening.specs.declared.finding.Finding.TheVariants as findings;

use crate::finding::Finding;
use seccomp_doc::{Arch, Form, Formed, ScmpFlag};
use std::alloc::AllocError;

// Adds each architecture that only the new filter lists.
pub(crate) fn find_architectures(
    found: &mut Vec<Finding>,
    base: &[Arch],
    new: &[Arch],
) -> Result<(), AllocError>
    ensures { OnOk result (found.new.items ≡ found.old.items ++ arch_findings base.now new.now) }
{
    if is_emptied(base, new) {
        found.push(Finding::AnyArch)?;
        return Ok(());
    }
    find_added_architectures(found, base, new)
}

// Adds each architecture that the baseline's list hasn't.
fn find_added_architectures(
    found: &mut Vec<Finding>,
    base: &[Arch],
    new: &[Arch],
) -> Result<(), AllocError>
    ensures { OnOk result (found.new.items
        ≡ found.old.items ++ map findings.Arch (added_texts base.now new.now)) }
{
    for i in 0..new.len() {
        find_architecture(found, base, &new[..i], &new[i])?;
    }
    Ok(())
}

// Adds the architecture, where neither the baseline nor an earlier place lists it.
fn find_architecture(
    found: &mut Vec<Finding>,
    base: &[Arch],
    earlier: &[Arch],
    arch: &Arch,
) -> Result<(), AllocError>
    ensures { OnOk result (found.new.items ≡ found.old.items
        ++ (if is_added base.now earlier.now arch.now then findings.Arch arch.now ∷ [] else [])) }
{
    if is_added(base, earlier, arch) {
        found.push(Finding::Arch(arch.clone()?))?;
    }
    Ok(())
}

// Adds each flag that only the new filter has.
pub(crate) fn find_flags(
    found: &mut Vec<Finding>,
    base: &[ScmpFlag],
    new: &[ScmpFlag],
) -> Result<(), AllocError>
    ensures { OnOk result (found.new.items ≡ found.old.items ++ flag_findings base.now new.now) }
{
    for i in 0..new.len() {
        find_flag(found, base, &new[..i], &new[i])?;
    }
    Ok(())
}

// Adds the flag, where neither the baseline nor an earlier place lists it.
fn find_flag(
    found: &mut Vec<Finding>,
    base: &[ScmpFlag],
    earlier: &[ScmpFlag],
    flag: &ScmpFlag,
) -> Result<(), AllocError>
    ensures { OnOk result (found.new.items ≡ found.old.items
        ++ (if is_added base.now earlier.now flag.now then findings.Flag flag.now ∷ [] else [])) }
{
    if is_added(base, earlier, flag) {
        found.push(Finding::Flag(flag.clone()?))?;
    }
    Ok(())
}

// Whether neither the baseline nor an earlier place lists the text.
fn is_added<F: Form>(base: &[Formed<F>], earlier: &[Formed<F>], text: &Formed<F>) -> bool
    ensures { result ≡ is_added base.now earlier.now text.now }
{
    !lists(earlier, text.as_str()) && !lists(base, text.as_str())
}

// Whether only the new filter is for any architecture.
pub(crate) fn is_emptied(base: &[Arch], new: &[Arch]) -> bool
    ensures { result ≡ is_emptied base.now new.now }
{
    new.is_empty() && !base.is_empty()
}

// Whether the new list has a text that the baseline's hasn't.
pub(crate) fn adds_a_text<F: Form>(base: &[Formed<F>], new: &[Formed<F>]) -> bool
    ensures { result ≡ adds_a_text base.now new.now }
{
    new.iter().any(|text| !lists(base, text.as_str()))
}

// Whether the list has the text.
pub(crate) fn lists<F: Form>(texts: &[Formed<F>], text: &str) -> bool
    ensures { result ≡ lists texts.now text.now }
{
    texts.iter().any(|own| own.as_str() == text)
}
