//! The reader of arguments: the comparisons of an entry.

ghost use Rattle.std.specs.Prelude.{codes};
ghost use Rattle.json_tree.specs.View.{items_view, members_view, view};
ghost use Rattle.profile_text.specs.FilterParts.{arg_at, arg_in, items_as, list_as};
ghost use Rattle.profile_text.specs.FilterShape.{arg_faults, arg_rows};
ghost use Rattle.profile_text.specs.Place.{path_of};
ghost use Rattle.profile_text.specs.Reading.{Gives, GivesAs, unless_faulty};
ghost use Rattle.profile_text.specs.Shape.{below, items_faults, list_faults, object_faults};
ghost use Rattle.profile_text.specs.Shape.{optional_faults};

use crate::fault::{DocFault, Path};
use crate::members::{FromMembers, with_members};
use crate::place::Place;
use crate::value::{number_of, op_of, optional_number_of};
use json_tree::Tree;
use seccomp_doc::{ArgParts, Op};
use smallvec::SmallVec;
use std::alloc::Global;

// What the members of an argument give.
#[derive(Drop)]
pub(crate) struct FoundArg {
    index: Option<u64>,
    op: Option<Op>,
    value: Option<u64>,
    value_two: u64,
}

impl FromMembers for FoundArg {
    ghost use Rattle.profile_text.specs.declared.argument.FoundArg.{FoundArg};
    ghost use Rattle.profile_text.specs.FilterFound.{arg_found_with};
    ghost use Rattle.profile_text.specs.FilterShape.{arg_rows};
    ghost use Rattle.profile_text.specs.Place.{path_of};

    type At = Place;

    ghost Seen = { FoundArg };

    ghost seen = { λ found. found };

    ghost path = { path_of };

    ghost rows = { arg_rows };

    ghost with_member = { arg_found_with };

    fn take_member(
        &mut self,
        alloc: Global,
        place: Place,
        name: &str,
        value: &Tree<'_>,
    ) -> Result<(), DocFault> {
        if name == "index" {
            let index = number_of(alloc, place, name, value)?;
            self.index = Some(index);
            Ok(())
        } else if name == "op" {
            let op = op_of(alloc, place, name, value)?;
            self.op = Some(op);
            Ok(())
        } else if name == "value" {
            let number = number_of(alloc, place, name, value)?;
            self.value = Some(number);
            Ok(())
        } else if name == "valueTwo" {
            let value_two = optional_number_of(alloc, place, name, value)?;
            self.value_two = value_two.unwrap_or(0);
            Ok(())
        } else {
            Err(DocFault::UnknownMember(Path::of_member(alloc, place, name)?))
        }
    }
}

// The argument of the members, of which the second value isn't required.
fn arg_at(alloc: Global, place: Place, members: &[(&str, Tree<'_>)]) -> Result<ArgParts, DocFault>
    ensures { Gives result (unless_faulty
        (object_faults arg_rows (path_of place) (members_view members.now))
        (arg_at (members_view members.now))) }
{
    let start = FoundArg {
        index: None,
        op: None,
        value: None,
        value_two: 0,
    };
    let found = with_members(alloc, place, start, members)?;
    let Some(index) = found.index else {
        return Err(DocFault::WrongShape(Path::of_member(alloc, place, "index")?));
    };
    let Some(op) = found.op else {
        return Err(DocFault::WrongShape(Path::of_member(alloc, place, "op")?));
    };
    let Some(value) = found.value else {
        return Err(DocFault::WrongShape(Path::of_member(alloc, place, "value")?));
    };
    Ok(ArgParts {
        index,
        op,
        value,
        value_two: found.value_two,
    })
}

// An argument.
#[tactic(auto, unfolding(crate::specs::FilterShape::table_faults, crate::specs::FilterParts::arg_in))]
fn arg_of(alloc: Global, place: Place, value: &Tree<'_>) -> Result<ArgParts, DocFault>
    ensures { Gives result (unless_faulty
        (arg_faults (path_of place) (view value.now))
        (arg_in (view value.now))) }
{
    match value {
        Tree::Object(members) => arg_at(alloc, place, members),
        _ => Err(DocFault::WrongShape(Path::of(alloc, place)?)),
    }
}

// The arguments of a list.
fn args_in(
    alloc: Global,
    entry: usize,
    values: &[Tree<'_>],
) -> Result<SmallVec<ArgParts, 1>, DocFault>
    ensures { GivesAs (λ args. args.items) result (unless_faulty
        (items_faults arg_faults (below (path_of (Place.Entry entry)) (codes "args")) 0
        (items_view values.now))
        (items_as arg_in (items_view values.now))) }
{
    let mut args = SmallVec::with_capacity(alloc, values.len())?;
    for value in values {
        let place = Place::Argument {
            entry,
            position: args.len(),
        };
        let arg = arg_of(alloc, place, value)?;
        args.push(arg)
            .map_err(|refused| DocFault::NoMemory(refused.into()))?;
    }
    Ok(args)
}

/// A list of arguments, or null.
#[tactic(auto, unfolding(crate::specs::Shape::optional_faults, crate::specs::Shape::list_faults, crate::specs::FilterParts::list_as))]
pub(crate) fn optional_args(
    alloc: Global,
    entry: usize,
    value: &Tree<'_>,
) -> Result<SmallVec<ArgParts, 1>, DocFault>
    ensures { GivesAs (λ args. args.items) result (unless_faulty
        (optional_faults (list_faults arg_faults)
        (below (path_of (Place.Entry entry)) (codes "args")) (view value.now))
        (list_as arg_in (view value.now))) }
{
    match value {
        Tree::Null => Ok(SmallVec::new(alloc)),
        Tree::Array(values) => args_in(alloc, entry, values),
        _ => Err(DocFault::WrongShape(Path::of_member(alloc, Place::Entry(entry), "args")?)),
    }
}
