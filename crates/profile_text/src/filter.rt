//! The reader of `seccomp`.

ghost use Rattle.std.specs.Prelude.{codes};
ghost use Rattle.json_tree.specs.View.{members_view, view};
ghost use Rattle.profile_text.specs.FilterParts.{filter_at, seccomp_in};
ghost use Rattle.profile_text.specs.FilterShape.{seccomp_faults, seccomp_rows};
ghost use Rattle.profile_text.specs.Reading.{Gives, filter_or_fault, unless_faulty};
ghost use Rattle.profile_text.specs.Shape.{object_faults};

use crate::entry::entries_of;
use crate::fault::{DocFault, Path};
use crate::filter_words::words_of;
use crate::members::{FromMembers, with_members};
use crate::place::Place;
use crate::value::{action_of, optional_number_of};
use json_tree::Tree;
use seccomp_doc::{ActionWord, Arch, EntryParts, Filter, FilterFault, FilterParts, ScmpFlag};
use std::alloc::Global;

// What the members of a filter give.
#[derive(Drop)]
pub(crate) struct FoundFilter {
    architectures: Vec<Arch>,
    default: Option<ActionWord>,
    default_errno: Option<u64>,
    flags: Vec<ScmpFlag>,
    entries: Vec<EntryParts>,
}

impl FromMembers for FoundFilter {
    ghost use Rattle.std.specs.Prelude.{codes};
    ghost use Rattle.profile_text.specs.FilterFound.{FilterMembers, filter_found_with, filter_seen};
    ghost use Rattle.profile_text.specs.FilterShape.{seccomp_rows};

    type At = ();

    ghost Seen = { FilterMembers };

    ghost seen = { filter_seen };

    ghost path = { λ _. codes "/seccomp" };

    ghost rows = { seccomp_rows };

    ghost with_member = { filter_found_with };

    fn take_member(
        &mut self,
        alloc: Global,
        _filter: (),
        name: &str,
        value: &Tree<'_>,
    ) -> Result<(), DocFault> {
        if name == "architectures" {
            let architectures = words_of(alloc, Place::Filter, name, value)?;
            self.architectures = architectures;
            Ok(())
        } else if name == "defaultAction" {
            let default = action_of(alloc, Place::Filter, name, value)?;
            self.default = Some(default);
            Ok(())
        } else if name == "defaultErrnoRet" {
            let default_errno = optional_number_of(alloc, Place::Filter, name, value)?;
            self.default_errno = default_errno;
            Ok(())
        } else if name == "flags" {
            let flags = words_of(alloc, Place::Filter, name, value)?;
            self.flags = flags;
            Ok(())
        } else if name == "listenerMetadata" || name == "listenerPath" {
            Err(DocFault::NotInProfile(Path::of_member(alloc, Place::Filter, name)?))
        } else if name == "syscalls" {
            let entries = entries_of(alloc, value)?;
            self.entries = entries;
            Ok(())
        } else {
            Err(DocFault::UnknownMember(Path::of_member(alloc, Place::Filter, name)?))
        }
    }
}

// The parts of the members, of which the default is required.
fn filter_at(alloc: Global, members: &[(&str, Tree<'_>)]) -> Result<FilterParts, DocFault>
    ensures { Gives result (unless_faulty
        (object_faults seccomp_rows (codes "/seccomp") (members_view members.now))
        (filter_at (members_view members.now))) }
{
    let start = FoundFilter {
        architectures: Vec::new(alloc),
        default: None,
        default_errno: None,
        flags: Vec::new(alloc),
        entries: Vec::new(alloc),
    };
    let FoundFilter {
        architectures,
        default,
        default_errno,
        flags,
        entries,
    } = with_members(alloc, (), start, members)?;
    match default {
        Some(default) => Ok(FilterParts {
            default,
            default_errno,
            architectures,
            flags,
            entries,
        }),
        None => Err(DocFault::WrongShape(Path::of_member(alloc, Place::Filter, "defaultAction")?)),
    }
}

/// The parts of the filter that the member `seccomp` of a document names; null names none.
#[tactic(auto, unfolding(crate::specs::Shape::optional_faults, crate::specs::FilterShape::table_faults, crate::specs::FilterParts::seccomp_in))]
pub(crate) fn seccomp_of(alloc: Global, value: &Tree<'_>) -> Result<Option<FilterParts>, DocFault>
    ensures { Gives result (unless_faulty
        (seccomp_faults (codes "/seccomp") (view value.now))
        (seccomp_in (view value.now))) }
{
    match value {
        Tree::Null => Ok(None),
        Tree::Object(members) => {
            let parts = filter_at(alloc, members)?;
            Ok(Some(parts))
        }
        _ => Err(DocFault::WrongShape(Path::of(alloc, Place::Filter)?)),
    }
}

/// The filter of the parts, where there are any.
pub(crate) fn filter_of(
    alloc: Global,
    parts: Option<FilterParts>,
) -> Result<Option<Filter>, DocFault>
    ensures { Gives result (filter_or_fault parts) }
{
    let Some(parts) = parts else {
        return Ok(None);
    };
    match Filter::new(alloc, parts) {
        Ok(filter) => Ok(Some(filter)),
        Err(FilterFault::NoMemory(witness)) => Err(DocFault::NoMemory(witness)),
        Err(fault) => Err(DocFault::Filter(fault)),
    }
}
