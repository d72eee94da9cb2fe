//! Filters, and what they mean.

ghost use Rattle.std.specs.Prelude.{◌≡◌, ◌≢◌, None, Some, All, IfErr, IfOk, find, flat_map, map};
ghost use Rattle.std.specs.List.{list_any};
ghost use Rattle.std.specs.Option.{option_copied};
ghost use Rattle.seccomp_doc.specs.Meaning.{is_match, meaning, only_default};
ghost use Rattle.seccomp_doc.specs.Lawful.{IsLawfulFilter, IsLawfulEntry};
ghost use Rattle.seccomp_doc.specs.Parts.{entry_of, filter_of};
ghost use Rattle.seccomp_doc.specs.Checks.{Answers, entry_checks, fault_of, first_fault};
ghost use Rattle.seccomp_doc.specs.Checks.{has_too_many, is_large};
ghost use Rattle.no_memory.specs.Witness.{witness};

use crate::action::Action;
use crate::arch::Arch;
use crate::entry::Entry;
use crate::fault::FilterFault;
use crate::flag::ScmpFlag;
use crate::names::refuse_two_actions;
use crate::parts::{EntryParts, FilterParts};
use std::alloc::Global;
use std::marker::Model;

/// The most entries of a filter.
pub const MAX_ENTRIES: usize = 2048;

/// The most names of an entry.
pub const MAX_NAMES: usize = 1024;

/// The most comparisons of an entry.
pub const MAX_ARGS: usize = 6;

/// The most architectures of a filter.
pub const MAX_ARCHITECTURES: usize = 64;

/// The most flags of a filter.
pub const MAX_FLAGS: usize = 64;

/// A filter: what becomes of each system call. All entries of a call have one action, so their
/// order means nothing.
#[derive(Drop)]
pub struct Filter {
    default: Action,
    architectures: Vec<Arch>,
    flags: Vec<ScmpFlag>,
    entries: Vec<Entry>,
}

impl Model for Filter {
    ghost use Rattle.seccomp_doc.specs.Filter.{FilterValue};
    ghost use Rattle.seccomp_doc.specs.Lawful.{IsLawfulFilter};

    ghost Value = { FilterValue };

    ghost view = { λ f. record {
      default = f.default;
      architectures = f.architectures.items;
      flags = f.flags.items;
      entries = f.entries.items;
    } };

    ghost invariant = { λ f. IsLawfulFilter (record {
      default = f.default;
      architectures = f.architectures.items;
      flags = f.flags.items;
      entries = f.entries.items;
    }) };
}

impl Filter {
    /// The filter that these parts make, in their order, or the first fault.
    ///
    /// The faults are looked for in this order: a count above its limit; the number of the default
    /// action; entry by entry no name, a name that isn't of the form, an index above 5, an index
    /// twice, and the number of the action; at last a name that an earlier entry has under another
    /// action. Memory may be refused at any point.
    pub fn new(alloc: Global, parts: FilterParts) -> Result<Filter, FilterFault>
        ensures answers { Answers (fault_of parts) (filter_of parts) result }
        ensures lawful { IfOk result IsLawfulFilter }
    {
        if has_too_many(&parts) {
            return Err(FilterFault::TooMany);
        }
        let FilterParts {
            default,
            default_errno,
            architectures,
            flags,
            entries,
        } = parts;
        let default = Action::new(default, default_errno)?;
        let entries = entries_of(alloc, entries)?;
        refuse_two_actions(alloc, entries.as_slice())?;
        Ok(Filter {
            default,
            architectures,
            flags,
            entries,
        })
    }

    /// The filter that gives every call this action. It takes no memory.
    pub fn only_default(alloc: Global, action: Action) -> Filter
        ensures { result ≡ only_default action }
    {
        Filter {
            default: action,
            architectures: Vec::new(alloc),
            flags: Vec::new(alloc),
            entries: Vec::new(alloc),
        }
    }

    /// What becomes of a call that no entry matches.
    pub fn default_action(&self) -> Action
        ensures { result ≡ self.now.default }
    {
        self.default
    }

    /// The architectures, in the order of the document.
    pub fn architectures(&self) -> &[Arch]
        ensures { result.now ≡ self.now.architectures }
    {
        self.architectures.as_slice()
    }

    /// The flags, in the order of the document.
    pub fn flags(&self) -> &[ScmpFlag]
        ensures { result.now ≡ self.now.flags }
    {
        self.flags.as_slice()
    }

    /// The entries, in the order of the document.
    pub fn entries(&self) -> &[Entry]
        ensures entries { result.now ≡ self.now.entries }
        ensures lawful { IsLawfulFilter self.now }
    {
        self.entries.as_slice()
    }
}

/// What becomes of a call with six argument words: the action of the entries that match it, else
/// the default. It takes no memory.
pub fn action_for(filter: &Filter, name: &str, words: [u64; 6]) -> Action
    ensures { result ≡ meaning filter.now name.now words }
{
    match matching(filter.entries(), name, &words) {
        Some(entry) => entry.action(),
        None => filter.default_action(),
    }
}

// The first entry that matches a call with these words.
fn matching<'a>(entries: &'a [Entry], name: &str, words: &[u64; 6]) -> Option<&'a Entry>
    ensures { option_copied result ≡ find (is_match name.now words.now) entries.now }
{
    entries
        .iter()
        .find(|entry| entry.has_name(name) && entry.admits(words))
}

// Whether a count is above its limit.
fn has_too_many(parts: &FilterParts) -> bool
    ensures { result ≡ has_too_many parts.now }
{
    parts.entries.len() > MAX_ENTRIES
        || parts.architectures.len() > MAX_ARCHITECTURES
        || parts.flags.len() > MAX_FLAGS
        || has_large_entry(parts.entries.as_slice())
}

fn has_large_entry(entries: &[EntryParts]) -> bool
    ensures { result ≡ list_any is_large entries.now }
{
    entries.iter().any(is_large)
}

// Whether it has more names or comparisons than an entry may have.
fn is_large(entry: &EntryParts) -> bool
    ensures { result ≡ is_large entry.now }
{
    entry.names.len() > MAX_NAMES || entry.args.len() > MAX_ARGS
}

// The entries that the parts make.
fn entries_of(alloc: Global, parts: Vec<EntryParts>) -> Result<Vec<Entry>, FilterFault>
    ensures ok { IfOk result (λ entries. (entries.items ≡ map entry_of parts.items)
        × (first_fault (flat_map entry_checks parts.items) ≡ None)
        × All IsLawfulEntry entries.items) }
    ensures err { IfErr result (λ e. e ≢ FilterFault.NoMemory witness
        → first_fault (flat_map entry_checks parts.items) ≡ Some e) }
{
    let mut entries = Vec::with_capacity(alloc, parts.len())?;
    for part in parts {
        let entry = Entry::new(alloc, part)?;
        entries
            .push(entry)
            .map_err(|refused| FilterFault::NoMemory(refused.into()))?;
    }
    Ok(entries)
}
