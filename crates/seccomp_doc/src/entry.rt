//! Entries of a filter.

ghost use Rattle.std.specs.Prelude.{◌≡◌, ◌≢◌, ◌<◌, ◌==◌, nat_lt, true, false, Some, None, IfOk};
ghost use Rattle.std.specs.Prelude.{IfErr, All, map};
ghost use Rattle.std.specs.List.{list_any};
ghost use Rattle.seccomp_doc.specs.Meaning.{admits_words, has_name, is_match};
ghost use Rattle.seccomp_doc.specs.Lawful.{IsLawfulCompare, IsLawfulEntry, has_repeat};
ghost use Rattle.seccomp_doc.specs.Parts.{compare_of, entry_of};
ghost use Rattle.seccomp_doc.specs.Checks.{Answers, arg_checks, entry_checks, first_fault};
ghost use Rattle.seccomp_doc.specs.Checks.{is_no_call_name};
ghost use Rattle.no_memory.specs.Witness.{witness};

use crate::action::Action;
use crate::call_name::CallName;
use crate::compare::Compare;
use crate::fault::FilterFault;
use crate::parts::{ArgParts, EntryParts};
use crate::short::Text;
use smallvec::SmallVec;
use std::alloc::Global;
use std::marker::Model;

/// The action of some system calls, where their arguments compare as stated. The comparisons must
/// all hold; two entries of one call are alternatives.
#[derive(Drop)]
pub struct Entry {
    names: Vec<CallName>,
    action: Action,
    args: SmallVec<Compare, 1>,
}

impl Model for Entry {
    ghost use Rattle.seccomp_doc.specs.Filter.{EntryValue};
    ghost use Rattle.seccomp_doc.specs.Lawful.{IsLawfulEntry};

    ghost Value = { EntryValue };

    ghost view = { λ e. record { names = e.names.items; action = e.action; args = e.args.items } };

    ghost invariant = { λ e. IsLawfulEntry (record {
      names = e.names.items;
      action = e.action;
      args = e.args.items;
    }) };
}

impl Entry {
    // The entry that these parts make, or the first fault.
    pub(crate) fn new(alloc: Global, parts: EntryParts) -> Result<Entry, FilterFault>
        ensures answers { Answers (first_fault (entry_checks parts)) (entry_of parts) result }
        ensures lawful { IfOk result IsLawfulEntry }
    {
        let EntryParts {
            names,
            word,
            errno,
            args,
        } = parts;
        if names.is_empty() {
            return Err(FilterFault::NoNames);
        }
        let names = call_names(alloc, names)?;
        let args = compares(alloc, args.as_slice())?;
        let action = Action::new(word, errno)?;
        Ok(Entry {
            names,
            action,
            args,
        })
    }

    /// The calls that it speaks of, in the order of the document: at least one.
    pub fn names(&self) -> &[CallName]
        ensures names { result.now ≡ self.now.names }
        ensures lawful { IsLawfulEntry self.now }
    {
        self.names.as_slice()
    }

    /// What becomes of them.
    pub fn action(&self) -> Action
        ensures { result ≡ self.now.action }
    {
        self.action
    }

    /// The comparisons, in the order of the document: at most one for each of six arguments.
    pub fn args(&self) -> &[Compare]
        ensures args { result.now ≡ self.now.args }
        ensures lawful { IsLawfulEntry self.now }
    {
        self.args.as_slice()
    }

    /// Whether it speaks of a call.
    pub fn has_name(&self, name: &str) -> bool
        ensures { result ≡ has_name name.now self.now }
    {
        self.names.iter().any(|own| own.as_str() == name)
    }

    /// Whether each of its comparisons admits the word at its index.
    pub fn admits(&self, words: &[u64; 6]) -> bool
        ensures { result ≡ admits_words self.now.args words.now }
    {
        all_admit(self.args(), words)
    }
}

// Whether each comparison admits the word at its index.
fn all_admit(args: &[Compare], words: &[u64; 6]) -> bool
    requires { All IsLawfulCompare args.now }
    ensures { result ≡ admits_words args.now words.now }
{
    for arg in args {
        if !arg.admits(words[arg.index as usize]) {
            return false;
        }
    }
    true
}

// The names, where each is that of a call.
fn call_names(alloc: Global, texts: Vec<Text>) -> Result<Vec<CallName>, FilterFault>
    ensures ok { IfOk result (λ names. (names.items ≡ texts.items)
        × (list_any is_no_call_name texts.items ≡ false)) }
    ensures err { IfErr result (λ e. e ≢ FilterFault.NoMemory witness
        → (e ≡ FilterFault.BadCallName)
        × (list_any is_no_call_name texts.items ≡ true)) }
{
    let mut names = Vec::with_capacity(alloc, texts.len())?;
    for text in texts {
        let Some(name) = CallName::from_text(text) else {
            return Err(FilterFault::BadCallName);
        };
        names
            .push(name)
            .map_err(|refused| FilterFault::NoMemory(refused.into()))?;
    }
    Ok(names)
}

// The comparisons, where each is of another of six arguments.
fn compares(alloc: Global, parts: &[ArgParts]) -> Result<SmallVec<Compare, 1>, FilterFault>
    ensures ok { IfOk result (λ args. (args.items ≡ map compare_of parts.now)
        × (first_fault (arg_checks parts.now) ≡ None) × All IsLawfulCompare args.items) }
    ensures err { IfErr result (λ e. e ≢ FilterFault.NoMemory witness
        → first_fault (arg_checks parts.now) ≡ Some e) }
{
    if has_index_above_5(parts) {
        return Err(FilterFault::BadIndex);
    }
    if has_index_twice(parts) {
        return Err(FilterFault::IndexTwice);
    }
    let mut args = SmallVec::with_capacity(alloc, parts.len())?;
    for arg in parts {
        args.push(compare_with(*arg))
            .map_err(|refused| FilterFault::NoMemory(refused.into()))?;
    }
    Ok(args)
}

// Whether a comparison is of an argument that isn't there.
fn has_index_above_5(args: &[ArgParts]) -> bool
    ensures { result ≡ list_any (λ a. nat_lt 5 a.index) args.now }
{
    args.iter().any(|arg| arg.index > 5)
}

// Whether two comparisons are of one argument.
fn has_index_twice(args: &[ArgParts]) -> bool
    ensures { result ≡ has_repeat (map (λ a. a.index) args.now) }
{
    for (i, arg) in args.iter().enumerate() {
        if has_index(&args[i + 1..], arg.index) {
            return true;
        }
    }
    false
}

// Whether a comparison is of this argument.
fn has_index(args: &[ArgParts], index: u64) -> bool
    ensures { result ≡ list_any (λ a. index == a.index) args.now }
{
    args.iter().any(|arg| index == arg.index)
}

// The comparison that these parts make: the second value counts where the operator is masked.
fn compare_with(arg: ArgParts) -> Compare
    requires { arg.index < 6 }
    ensures value { result ≡ compare_of arg }
    ensures lawful { IsLawfulCompare result }
{
    Compare {
        index: arg.index as u8,
        op: arg.op,
        value: arg.value,
        value_two: if arg.op.is_masked() { arg.value_two } else { 0 },
    }
}
