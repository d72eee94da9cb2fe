//! The reader of entries.

ghost use Rattle.std.specs.Prelude.{codes};
ghost use Rattle.json_tree.specs.View.{items_view, members_view, view};
ghost use Rattle.profile_text.specs.FilterParts.{entry_at, entry_in, items_as, list_as, string_in};
ghost use Rattle.profile_text.specs.FilterShape.{entry_faults, entry_rows, text_faults};
ghost use Rattle.profile_text.specs.Place.{path_of};
ghost use Rattle.profile_text.specs.Reading.{Gives, GivesAs, unless_faulty};
ghost use Rattle.profile_text.specs.Shape.{below, items_faults, list_faults, object_faults};
ghost use Rattle.profile_text.specs.Shape.{optional_faults};

use crate::argument::optional_args;
use crate::fault::{DocFault, Path};
use crate::members::{FromMembers, with_members};
use crate::place::Place;
use crate::value::{action_of, optional_number_of, text_of};
use json_tree::Tree;
use seccomp_doc::{ActionWord, ArgParts, EntryParts, Text};
use smallvec::SmallVec;
use std::alloc::Global;

// The texts of a list.
fn names_in(
    alloc: Global,
    place: Place,
    name: &str,
    values: &[Tree<'_>],
) -> Result<Vec<Text>, DocFault>
    ensures { GivesAs (λ names. names.items) result (unless_faulty
        (items_faults text_faults (below (path_of place) name.now) 0 (items_view values.now))
        (items_as string_in (items_view values.now))) }
{
    let mut names = Vec::with_capacity(alloc, values.len())?;
    for value in values {
        let text = text_of(alloc, place, name, names.len(), value)?;
        names
            .push(text)
            .map_err(|refused| DocFault::NoMemory(refused.into()))?;
    }
    Ok(names)
}

// A list of texts.
#[tactic(auto, unfolding(crate::specs::Shape::list_faults, crate::specs::FilterParts::list_as))]
fn names_of(
    alloc: Global,
    place: Place,
    name: &str,
    value: &Tree<'_>,
) -> Result<Vec<Text>, DocFault>
    ensures { GivesAs (λ names. names.items) result (unless_faulty
        (list_faults text_faults (below (path_of place) name.now) (view value.now))
        (list_as string_in (view value.now))) }
{
    match value {
        Tree::Array(values) => names_in(alloc, place, name, values),
        _ => Err(DocFault::WrongShape(Path::of_member(alloc, place, name)?)),
    }
}

// What the members of an entry give.
#[derive(Drop)]
pub(crate) struct FoundEntry {
    word: Option<ActionWord>,
    args: SmallVec<ArgParts, 1>,
    errno: Option<u64>,
    names: Option<Vec<Text>>,
}

impl FromMembers for FoundEntry {
    ghost use Rattle.profile_text.specs.FilterFound.{EntryMembers, entry_found_with, entry_seen};
    ghost use Rattle.profile_text.specs.FilterShape.{entry_rows};
    ghost use Rattle.profile_text.specs.Place.{path_of};
    ghost use Rattle.profile_text.specs.declared.place.Place.TheVariants.{Entry};

    type At = usize;

    ghost Seen = { EntryMembers };

    ghost seen = { entry_seen };

    ghost path = { λ entry. path_of (Entry entry) };

    ghost rows = { entry_rows };

    ghost with_member = { entry_found_with };

    fn take_member(
        &mut self,
        alloc: Global,
        entry: usize,
        name: &str,
        value: &Tree<'_>,
    ) -> Result<(), DocFault> {
        if name == "action" {
            let word = action_of(alloc, Place::Entry(entry), name, value)?;
            self.word = Some(word);
            Ok(())
        } else if name == "args" {
            let args = optional_args(alloc, entry, value)?;
            self.args = args;
            Ok(())
        } else if name == "errnoRet" {
            let errno = optional_number_of(alloc, Place::Entry(entry), name, value)?;
            self.errno = errno;
            Ok(())
        } else if name == "names" {
            let names = names_of(alloc, Place::Entry(entry), name, value)?;
            self.names = Some(names);
            Ok(())
        } else {
            Err(DocFault::UnknownMember(Path::of_member(alloc, Place::Entry(entry), name)?))
        }
    }
}

// The entry of the members, of which the action and the names are required.
fn entry_at(
    alloc: Global,
    entry: usize,
    members: &[(&str, Tree<'_>)],
) -> Result<EntryParts, DocFault>
    ensures { Gives result (unless_faulty
        (object_faults entry_rows (path_of (Place.Entry entry)) (members_view members.now))
        (entry_at (members_view members.now))) }
{
    let start = FoundEntry {
        word: None,
        args: SmallVec::new(alloc),
        errno: None,
        names: None,
    };
    let FoundEntry {
        word,
        args,
        errno,
        names,
    } = with_members(alloc, entry, start, members)?;
    let Some(word) = word else {
        return Err(DocFault::WrongShape(Path::of_member(alloc, Place::Entry(entry), "action")?));
    };
    let Some(names) = names else {
        return Err(DocFault::WrongShape(Path::of_member(alloc, Place::Entry(entry), "names")?));
    };
    Ok(EntryParts {
        names,
        word,
        errno,
        args,
    })
}

// An entry.
#[tactic(auto, unfolding(crate::specs::FilterShape::table_faults, crate::specs::FilterParts::entry_in))]
fn entry_of(alloc: Global, entry: usize, value: &Tree<'_>) -> Result<EntryParts, DocFault>
    ensures { Gives result (unless_faulty
        (entry_faults (path_of (Place.Entry entry)) (view value.now))
        (entry_in (view value.now))) }
{
    match value {
        Tree::Object(members) => entry_at(alloc, entry, members),
        _ => Err(DocFault::WrongShape(Path::of(alloc, Place::Entry(entry))?)),
    }
}

// The entries of a list.
fn entries_in(alloc: Global, values: &[Tree<'_>]) -> Result<Vec<EntryParts>, DocFault>
    ensures { GivesAs (λ entries. entries.items) result (unless_faulty
        (items_faults entry_faults (below (codes "/seccomp") (codes "syscalls")) 0
        (items_view values.now))
        (items_as entry_in (items_view values.now))) }
{
    let mut entries = Vec::with_capacity(alloc, values.len())?;
    for value in values {
        let entry = entry_of(alloc, entries.len(), value)?;
        entries
            .push(entry)
            .map_err(|refused| DocFault::NoMemory(refused.into()))?;
    }
    Ok(entries)
}

/// A list of entries, or null.
#[tactic(auto, unfolding(crate::specs::Shape::optional_faults, crate::specs::Shape::list_faults, crate::specs::FilterParts::list_as))]
pub(crate) fn entries_of(alloc: Global, value: &Tree<'_>) -> Result<Vec<EntryParts>, DocFault>
    ensures { GivesAs (λ entries. entries.items) result (unless_faulty
        (optional_faults (list_faults entry_faults) (below (codes "/seccomp") (codes "syscalls"))
        (view value.now))
        (list_as entry_in (view value.now))) }
{
    match value {
        Tree::Null => Ok(Vec::new(alloc)),
        Tree::Array(values) => entries_in(alloc, values),
        _ => Err(DocFault::WrongShape(Path::of_member(alloc, Place::Filter, "syscalls")?)),
    }
}
