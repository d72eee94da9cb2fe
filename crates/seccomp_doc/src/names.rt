//! Names that two entries give different actions.

ghost use Rattle.std.specs.Prelude.{◌≡◌, ◌≢◌, ◌||◌, ℕ, List, [], ◌∷◌, ◌++◌, Some, None, IfErr};
ghost use Rattle.std.specs.Prelude.{IfOk, OnOk, bytes_eq, filter, if◌then◌else◌, not};
ghost use Rattle.std.specs.Bool.{OnTrue};
ghost use Rattle.std.specs.List.{list_all};
ghost use Rattle.seccomp_doc.specs.Checks.{Answers, all_name_checks, first_fault, name_checks};
ghost use Rattle.seccomp_doc.specs.Filter.{EntryValue};
ghost use Rattle.seccomp_doc.specs.Lawful.{HasOneAction};
ghost use Rattle.seccomp_doc.specs.Names.{AgreesWith, DiffersFrom, Knows, action_under, has_action};
ghost use Rattle.seccomp_doc.specs.Names.{is_unknown};
ghost use Rattle.no_memory.specs.Witness.{witness};

use crate::action::Action;
use crate::call_name::CallName;
use crate::entry::Entry;
use crate::fault::FilterFault;
use std::alloc::Global;
use std::collections::BTreeMap;

// Refuses the first name that an earlier entry has under another action. Where the names of the
// rarer actions show that there is none, the others aren't put in order.
pub(crate) fn refuse_two_actions(alloc: Global, entries: &[Entry]) -> Result<(), FilterFault>
    ensures answers { Answers (first_fault (all_name_checks [] entries.now)) tt result }
    ensures one_action { OnOk result (HasOneAction entries.now) }
{
    match largest(entries) {
        Some(entry) if are_apart(alloc, entries, entry.action()) => Ok(()),
        _ => compare_names(alloc, entries),
    }
}

// The entry with the most names, where there is one.
fn largest(entries: &[Entry]) -> Option<&Entry> {
    entries.iter().max_by_key(|entry| entry.names().len())
}

// Whether the rarer actions have one each for their names, and no entry of the common action has
// one of these.
fn are_apart(alloc: Global, entries: &[Entry], common: Action) -> bool
    ensures { OnTrue result (HasOneAction entries.now) }
{
    match learn_rarer(alloc, entries, common) {
        Ok(rarer) => avoid_known(entries, common, &rarer),
        Err(_) => false,
    }
}

// Learns the action of each name of the entries that have another action than the common one.
fn learn_rarer<'a>(
    alloc: Global,
    entries: &'a [Entry],
    common: Action,
) -> Result<BTreeMap<&'a str, Action>, FilterFault>
    ensures { IfOk result (Knows (filter (λ e. not (has_action common e)) entries.now)) }
{
    let mut rarer = BTreeMap::new(alloc);
    for entry in entries {
        if !entry.action().is_same(common) {
            learn_names(alloc, &mut rarer, entry)?;
        }
    }
    Ok(rarer)
}

// Whether no entry of the action has a name that is known.
fn avoid_known(entries: &[Entry], action: Action, known: &BTreeMap<&str, Action>) -> bool
    ensures { result
        ≡ list_all (λ e. not (has_action action e)
        || list_all (is_unknown known.now) e.names) entries.now }
{
    entries.iter().all(|entry| !entry.action().is_same(action) || are_unknown(entry.names(), known))
}

// Whether none of the names is known.
fn are_unknown(names: &[CallName], known: &BTreeMap<&str, Action>) -> bool
    ensures { result ≡ list_all (is_unknown known.now) names.now }
{
    names.iter().all(|name| !known.contains_key(name.as_str()))
}

// Refuses the first name that an earlier entry has under another action. Each name is put once into
// an ordered map.
fn compare_names(alloc: Global, entries: &[Entry]) -> Result<(), FilterFault>
    ensures answers { Answers (first_fault (all_name_checks [] entries.now)) tt result }
    ensures one_action { OnOk result (HasOneAction entries.now) }
{
    let mut actions = BTreeMap::new(alloc);
    for entry in entries {
        learn_names(alloc, &mut actions, entry)?;
    }
    Ok(())
}

// Learns the action of each name of an entry.
fn learn_names<'a>(
    alloc: Global,
    actions: &mut BTreeMap<&'a str, Action>,
    entry: &'a Entry,
) -> Result<(), FilterFault>
    ensures answers { (earlier : List EntryValue) → Knows earlier actions.old
        → Answers (first_fault (name_checks earlier entry.now)) tt result }
    ensures knows { OnOk result ((earlier : List EntryValue) → Knows earlier actions.old
        → Knows (earlier ++ entry.now ∷ []) actions.new) }
{
    let action = entry.action();
    for name in entry.names() {
        learn_name(alloc, actions, name, action)?;
    }
    Ok(())
}

// Learns the action of a name, unless it has another one already.
fn learn_name<'a>(
    alloc: Global,
    actions: &mut BTreeMap<&'a str, Action>,
    name: &'a CallName,
    action: Action,
) -> Result<(), FilterFault>
    ensures agrees { OnOk result (AgreesWith (action_under actions.old name.now) action) }
    ensures learned { OnOk result ((q : List ℕ) → action_under actions.new q
        ≡ (if bytes_eq name.now q then Some action else action_under actions.old q)) }
    ensures differs { IfErr result (λ e. e ≢ FilterFault.NoMemory witness
        → (e ≡ FilterFault.TwoActions name.now)
        × DiffersFrom (action_under actions.old name.now) action) }
{
    match actions.insert(name.as_str(), action) {
        Ok(Some(known)) => {
            if known.is_same(action) {
                Ok(())
            } else {
                Err(FilterFault::TwoActions(name.clone()?))
            }
        }
        Ok(None) => Ok(()),
        Err(refused) => Err(FilterFault::NoMemory(refused.into())),
    }
}
