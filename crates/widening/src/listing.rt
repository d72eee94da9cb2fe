//! The list of findings.

ghost use Rattle.std.specs.Prelude.{◌≡◌, ◌<◌, ◌++◌, false, true, filter, length, map, IfOk, OnOk};
ghost use Rattle.std.specs.List.{list_any};
ghost use Rattle.seccomp_doc.specs.Checks.{is_no_call_name};
ghost use Rattle.seccomp_doc.specs.Word.{is_call_name};
ghost use Rattle.widening.specs.Calls.{entry_names, is_permitted_more};
ghost use Rattle.widening.specs.Findings.{between_filters, call_finding, call_findings};
ghost use Rattle.widening.specs.Findings.{default_findings, filter_findings, findings_of};
ghost use Rattle.widening.specs.Groups.{name_at};
ghost use Rattle.widening.specs.Memo.{IsMemo};
ghost use Rattle.widening.specs.Texts.{AreInOrder, in_byte_order, texts_in};

use crate::caps::find_caps;
use crate::finding::Finding;
use crate::groups::{Groups, keeps_to};
use crate::memo::Memo;
use crate::text_lists::{find_architectures, find_flags};
use profile_text::Profile;
use seccomp_doc::{CallName, Entry, Filter, NameFault};
use std::alloc::{AllocError, Global};

/// What the new profile permits, or may permit, and the baseline doesn't.
///
/// First each capability that one of the new sets has and the baseline's hasn't: the sets in the
/// order effective, permitted, inheritable, bounding, ambient, the capabilities by rising number.
/// Without a filter in the baseline nothing follows, and where only the baseline has one,
/// `NoSeccomp` alone. Else the architectures and then the flags that the baseline doesn't list, in
/// the new filter's order; the names of calls in byte order; the default. Each finding is there
/// once.
///
/// # Errors
///
/// Memory was refused. No contract can say when.
#[tactic(auto, unfolding(crate::specs::Findings::findings_of))]
pub fn findings(alloc: Global, base: &Profile, new: &Profile) -> Result<Vec<Finding>, AllocError>
    ensures { IfOk result (λ found. found.items ≡ findings_of base.now new.now) }
{
    let mut found = Vec::new(alloc);
    find_caps(&mut found, &base.caps, &new.caps)?;
    find_in_filters(alloc, &mut found, &base.filter, &new.filter)?;
    Ok(found)
}

// Adds what the new filter may permit more, where there are filters.
fn find_in_filters(
    alloc: Global,
    found: &mut Vec<Finding>,
    base: &Option<Filter>,
    new: &Option<Filter>,
) -> Result<(), AllocError>
    ensures { OnOk result (found.new.items ≡ found.old.items ++ filter_findings base.now new.now) }
{
    match (base, new) {
        (None, _) => Ok(()),
        (Some(_), None) => {
            found.push(Finding::NoSeccomp)?;
            Ok(())
        }
        (Some(base), Some(new)) => find_between(alloc, found, base, new),
    }
}

// Adds what the new filter may permit more.
fn find_between(
    alloc: Global,
    found: &mut Vec<Finding>,
    base: &Filter,
    new: &Filter,
) -> Result<(), AllocError>
    ensures { OnOk result (found.new.items ≡ found.old.items ++ between_filters base.now new.now) }
{
    find_architectures(found, base.architectures(), new.architectures())?;
    find_flags(found, base.flags(), new.flags())?;
    find_calls(alloc, found, base, new)?;
    find_default(found, base, new)
}

// Adds the default, where the new one is more permissive.
fn find_default(found: &mut Vec<Finding>, base: &Filter, new: &Filter) -> Result<(), AllocError>
    ensures { OnOk result (found.new.items ≡ found.old.items ++ default_findings base.now new.now) }
{
    if base.default_action().rank() < new.default_action().rank() {
        found.push(Finding::Default)?;
    }
    Ok(())
}

// Adds each name of a call that the new filter may permit more.
fn find_calls(
    alloc: Global,
    found: &mut Vec<Finding>,
    base: &Filter,
    new: &Filter,
) -> Result<(), AllocError>
    ensures { OnOk result (found.new.items ≡ found.old.items ++ call_findings base.now new.now) }
{
    let names = names_in_order(alloc, base.entries(), new.entries())?;
    let groups = Groups::new(alloc, base, new, names.as_slice())?;
    let mut memo = Memo::new(alloc, base, new)?;
    find_named(alloc, found, &groups, &mut memo)
}

// Adds each of the names, where the new filter may permit a call of it more.
fn find_named(
    alloc: Global,
    found: &mut Vec<Finding>,
    groups: &Groups,
    memo: &mut Memo,
) -> Result<(), AllocError>
    requires names { list_any is_no_call_name (texts_in groups.now.names.now) ≡ false }
    requires memo { IsMemo groups.now.base.now.entries groups.now.new.now.entries
        memo.old.of_new.items memo.old.of_base.items }
    ensures { OnOk result (found.new.items ≡ found.old.items
        ++ map Finding.Call (filter (is_permitted_more groups.now.base.now groups.now.new.now)
        (texts_in groups.now.names.now))) }
{
    for at in 0..groups.names().len() {
        find_call(alloc, found, groups, memo, at)?;
    }
    Ok(())
}

// The name of a call that a text is.
fn name_of(alloc: Global, text: &str) -> Result<CallName, AllocError>
    requires { is_call_name text.now ≡ true }
    ensures { IfOk result (λ name. name ≡ text.now) }
{
    match CallName::read(alloc, text) {
        Ok(name) => Ok(name),
        Err(NameFault::NoMemory(witness)) => Err(witness.into()),
        Err(NameFault::NotAWord) => unreachable!(),
    }
}

// Adds the name at a place, where the new filter may permit a call of it more.
#[tactic(auto, using(crate::proofs::NameFacts::named_at))]
fn find_call(
    alloc: Global,
    found: &mut Vec<Finding>,
    groups: &Groups,
    memo: &mut Memo,
    at: usize,
) -> Result<(), AllocError>
    requires names { list_any is_no_call_name (texts_in groups.now.names.now) ≡ false }
    requires memo { IsMemo groups.now.base.now.entries groups.now.new.now.entries
        memo.old.of_new.items memo.old.of_base.items }
    requires within { at < length groups.now.names.now }
    ensures memo { OnOk result (IsMemo groups.now.base.now.entries groups.now.new.now.entries
        memo.new.of_new.items memo.new.of_base.items) }
    ensures found { OnOk result (found.new.items ≡ found.old.items
        ++ call_finding groups.now.base.now groups.now.new.now (name_at groups.now.names.now at)) }
{
    if !keeps_to(alloc, groups, memo, at)? {
        let name = name_of(alloc, groups.names()[at])?;
        found.push(Finding::Call(name))?;
    }
    Ok(())
}

// The names of the entries of both filters, each once, in byte order.
fn names_in_order<'a>(
    alloc: Global,
    base: &'a [Entry],
    new: &'a [Entry],
) -> Result<Vec<&'a str>, AllocError>
    ensures names { IfOk result (λ names. texts_in names.items
        ≡ in_byte_order (entry_names base.now ++ entry_names new.now)) }
    ensures order { IfOk result (λ names. AreInOrder names.items) }
{
    let mut names = Vec::new(alloc);
    add_entries(&mut names, base)?;
    add_entries(&mut names, new)?;
    put_in_byte_order(&mut names)?;
    Ok(names)
}

// Puts texts in byte order, each once.
fn put_in_byte_order(texts: &mut Vec<&str>) -> Result<(), AllocError>
    ensures texts { OnOk result (texts_in texts.new.items
        ≡ in_byte_order (texts_in texts.old.items)) }
    ensures order { OnOk result (AreInOrder texts.new.items) }
{
    texts.sort()?;
    texts.dedup();
    Ok(())
}

// Adds the names of these entries.
fn add_entries<'a>(names: &mut Vec<&'a str>, entries: &'a [Entry]) -> Result<(), AllocError>
    ensures { OnOk result (texts_in names.new.items
        ≡ texts_in names.old.items ++ entry_names entries.now) }
{
    for entry in entries {
        add_names(names, entry.names())?;
    }
    Ok(())
}

// Adds these names.
fn add_names<'a>(names: &mut Vec<&'a str>, added: &'a [CallName]) -> Result<(), AllocError>
    ensures { OnOk result (texts_in names.new.items ≡ texts_in names.old.items ++ added.now) }
{
    for name in added {
        names.push(name.as_str())?;
    }
    Ok(())
}
