//! The readers of numbers, names and texts.

ghost use Rattle.std.specs.Prelude.{◌≡◌, decimal};
ghost use Rattle.serde_json.specs.Data.{string};
ghost use Rattle.json_tree.specs.View.{number_view, view};
ghost use Rattle.profile_text.specs.FilterParts.{action_in, number_in, op_in, string_in, u64_of};
ghost use Rattle.profile_text.specs.FilterParts.{whole_number};
ghost use Rattle.profile_text.specs.FilterShape.{action_faults, number_faults, op_faults};
ghost use Rattle.profile_text.specs.FilterShape.{text_faults};
ghost use Rattle.profile_text.specs.Place.{path_of};
ghost use Rattle.profile_text.specs.Reading.{Gives, unless_faulty};
ghost use Rattle.profile_text.specs.Shape.{below, optional_faults};

use crate::fault::{DocFault, Path};
use crate::place::Place;
use json_tree::{Number, Tree};
use seccomp_doc::{ActionWord, Op, Text};
use std::alloc::Global;

// The number, where it is a whole number from 0 to 2^64 - 1.
#[tactic(auto, unfolding(crate::specs::FilterParts::u64_of))]
fn u64_of(number: Number) -> Option<u64>
    ensures { result ≡ u64_of (number_view number) }
{
    number.as_u64()
}

/// A number.
#[tactic(auto, unfolding(crate::specs::FilterShape::number_faults))]
pub(crate) fn number_of(
    alloc: Global,
    place: Place,
    name: &str,
    value: &Tree<'_>,
) -> Result<u64, DocFault>
    ensures { Gives result (unless_faulty
        (number_faults (below (path_of place) name.now) (view value.now))
        (number_in (view value.now))) }
{
    match value {
        Tree::Number(number) => match u64_of(*number) {
            Some(number) => Ok(number),
            None => Err(DocFault::BadNumber(Path::of_member(alloc, place, name)?)),
        },
        _ => Err(DocFault::WrongShape(Path::of_member(alloc, place, name)?)),
    }
}

/// A number or null.
#[tactic(auto, unfolding(crate::specs::Shape::optional_faults, crate::specs::FilterShape::number_faults))]
pub(crate) fn optional_number_of(
    alloc: Global,
    place: Place,
    name: &str,
    value: &Tree<'_>,
) -> Result<Option<u64>, DocFault>
    ensures { Gives result (unless_faulty
        (optional_faults number_faults (below (path_of place) name.now) (view value.now))
        (whole_number (view value.now))) }
{
    match value {
        Tree::Null => Ok(None),
        _ => Ok(Some(number_of(alloc, place, name, value)?)),
    }
}

// The action of a name.
#[tactic(auto, unfolding(crate::specs::FilterShape::action_faults, crate::specs::Shape::word_faults))]
fn action_named(alloc: Global, place: Place, name: &str, word: &str) -> Result<ActionWord, DocFault>
    ensures { Gives result (unless_faulty
        (action_faults (below (path_of place) name.now) (string word.now))
        (action_in (string word.now))) }
{
    if word == "SCMP_ACT_NOTIFY" {
        return Err(DocFault::NotInProfile(Path::of_member(alloc, place, name)?));
    }
    match ActionWord::from_word(word) {
        Some(action) => Ok(action),
        None => Err(DocFault::UnknownWord(Path::of_member(alloc, place, name)?)),
    }
}

/// An action.
#[tactic(auto, unfolding(crate::specs::FilterShape::action_faults, crate::specs::Shape::word_faults))]
pub(crate) fn action_of(
    alloc: Global,
    place: Place,
    name: &str,
    value: &Tree<'_>,
) -> Result<ActionWord, DocFault>
    ensures { Gives result (unless_faulty
        (action_faults (below (path_of place) name.now) (view value.now))
        (action_in (view value.now))) }
{
    match value {
        Tree::String(word) => action_named(alloc, place, name, word),
        _ => Err(DocFault::WrongShape(Path::of_member(alloc, place, name)?)),
    }
}

/// An operator.
#[tactic(auto, unfolding(crate::specs::Shape::word_faults))]
pub(crate) fn op_of(
    alloc: Global,
    place: Place,
    name: &str,
    value: &Tree<'_>,
) -> Result<Op, DocFault>
    ensures { Gives result (unless_faulty
        (op_faults (below (path_of place) name.now) (view value.now))
        (op_in (view value.now))) }
{
    match value {
        Tree::String(word) => match Op::from_word(word) {
            Some(op) => Ok(op),
            None => Err(DocFault::UnknownWord(Path::of_member(alloc, place, name)?)),
        },
        _ => Err(DocFault::WrongShape(Path::of_member(alloc, place, name)?)),
    }
}

/// A text at a position of a list.
#[tactic(auto, unfolding(crate::specs::Shape::word_faults))]
pub(crate) fn text_of(
    alloc: Global,
    place: Place,
    name: &str,
    position: usize,
    value: &Tree<'_>,
) -> Result<Text, DocFault>
    ensures { Gives result (unless_faulty
        (text_faults (below (below (path_of place) name.now) (decimal position)) (view value.now))
        (string_in (view value.now))) }
{
    match value {
        Tree::String(text) => Ok(Text::new(alloc, text)?),
        _ => Err(DocFault::WrongShape(Path::of_item(alloc, place, name, position)?)),
    }
}
