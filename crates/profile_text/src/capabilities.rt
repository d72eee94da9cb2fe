//! The reader of `capabilities`.

ghost use Rattle.std.specs.Prelude.{codes, decimal, option_map};
ghost use Rattle.json_tree.specs.View.{items_view, members_view, view};
ghost use Rattle.profile_text.specs.Document.{caps_faults, caps_row, caps_rows, is_cap_name};
ghost use Rattle.profile_text.specs.Document.{set_faults};
ghost use Rattle.profile_text.specs.Reading.{Gives, unless_faulty};
ghost use Rattle.profile_text.specs.Sets.{cap_of, caps_of, set_of, sets_in, sets_of, sets_with};
ghost use Rattle.profile_text.specs.Shape.{below, items_faults, object_faults, row_faults};
ghost use Rattle.profile_text.specs.Shape.{word_faults};

use crate::fault::{DocFault, Path};
use crate::place::Place;
use crate::sets::{CapSet, Sets};
use cap_sets::Caps;
use json_tree::Tree;
use std::alloc::Global;

// One name of a list.
#[tactic(auto, unfolding(crate::specs::Shape::word_faults))]
fn cap_of(alloc: Global, name: &str, position: usize, value: &Tree<'_>) -> Result<Caps, DocFault>
    ensures { Gives result (unless_faulty
        (word_faults is_cap_name
        (below (below (codes "/capabilities") name.now) (decimal position)) (view value.now))
        (cap_of (view value.now))) }
{
    match value {
        Tree::String(word) => match Caps::from_name(word) {
            Some(caps) => Ok(caps),
            None => Err(DocFault::UnknownWord(Path::of_item(
                alloc,
                Place::Capabilities,
                name,
                position,
            )?)),
        },
        _ => Err(DocFault::WrongShape(Path::of_item(alloc, Place::Capabilities, name, position)?)),
    }
}

// The names of a list.
fn caps_of(alloc: Global, name: &str, values: &[Tree<'_>]) -> Result<Caps, DocFault>
    ensures { Gives result (unless_faulty
        (items_faults (word_faults is_cap_name) (below (codes "/capabilities") name.now) 0
        (items_view values.now))
        (caps_of (items_view values.now))) }
{
    let mut caps = Caps::empty();
    for (position, value) in values.iter().enumerate() {
        caps = caps.union(cap_of(alloc, name, position, value)?);
    }
    Ok(caps)
}

// The value of a set.
#[tactic(auto, unfolding(crate::specs::Shape::optional_faults, crate::specs::Shape::list_faults, crate::specs::Sets::set_of))]
fn set_of(alloc: Global, name: &str, value: &Tree<'_>) -> Result<Caps, DocFault>
    ensures { Gives result (unless_faulty
        (set_faults (below (codes "/capabilities") name.now) (view value.now))
        (set_of (view value.now))) }
{
    match value {
        Tree::Null => Ok(Caps::empty()),
        Tree::Array(values) => caps_of(alloc, name, values),
        _ => Err(DocFault::WrongShape(Path::of_member(alloc, Place::Capabilities, name)?)),
    }
}

// The sets with that of one more member.
fn sets_with(
    alloc: Global,
    name: &str,
    sets: Sets,
    set: Option<CapSet>,
    value: &Tree<'_>,
) -> Result<Sets, DocFault>
    ensures { Gives result (unless_faulty
        (row_faults (option_map caps_row set) (below (codes "/capabilities") name.now)
        (view value.now))
        (sets_with set (view value.now) sets)) }
{
    match set {
        Some(set) => {
            let caps = set_of(alloc, name, value)?;
            Ok(sets.with(set, caps))
        }
        None => Err(DocFault::UnknownMember(Path::of_member(alloc, Place::Capabilities, name)?)),
    }
}

// The sets of the members.
fn sets_in(alloc: Global, members: &[(&str, Tree<'_>)]) -> Result<Sets, DocFault>
    ensures { Gives result (unless_faulty
        (object_faults caps_rows (codes "/capabilities") (members_view members.now))
        (sets_in (members_view members.now))) }
{
    let mut sets = Sets::empty();
    for (name, value) in members {
        sets = sets_with(alloc, name, sets, CapSet::from_name(name), value)?;
    }
    Ok(sets)
}

/// The sets of the member `capabilities` of a document.
#[tactic(auto, unfolding(crate::specs::Document::caps_faults, crate::specs::Sets::sets_of))]
pub(crate) fn capabilities_of(alloc: Global, value: &Tree<'_>) -> Result<Sets, DocFault>
    ensures { Gives result (unless_faulty
        (caps_faults (codes "/capabilities") (view value.now))
        (sets_of (view value.now))) }
{
    match value {
        Tree::Object(members) => sets_in(alloc, members),
        _ => Err(DocFault::WrongShape(Path::of(alloc, Place::Capabilities)?)),
    }
}
