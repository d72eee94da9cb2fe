//! The readers of lists of words: architectures and flags.

ghost use Rattle.std.specs.Prelude.{decimal};
ghost use Rattle.json_tree.specs.View.{items_view, view};
ghost use Rattle.profile_text.specs.FilterParts.{items_as, list_as, string_in};
ghost use Rattle.profile_text.specs.Place.{path_of};
ghost use Rattle.profile_text.specs.Reading.{Gives, GivesAs, unless_faulty};
ghost use Rattle.profile_text.specs.Shape.{below, items_faults, list_faults, optional_faults};
ghost use Rattle.profile_text.specs.Shape.{word_faults};

use crate::fault::{DocFault, Path};
use crate::place::Place;
use json_tree::Tree;
use seccomp_doc::{Form, Formed, NameFault};
use std::alloc::Global;

// The word at a position of a list.
#[tactic(auto, unfolding(crate::specs::Shape::word_faults))]
fn word_of<F: Form>(
    alloc: Global,
    place: Place,
    name: &str,
    position: usize,
    value: &Tree<'_>,
) -> Result<Formed<F>, DocFault>
    ensures { Gives result (unless_faulty
        (word_faults F.is_form (below (below (path_of place) name.now) (decimal position))
        (view value.now))
        (string_in (view value.now))) }
{
    match value {
        Tree::String(text) => match Formed::read(alloc, text) {
            Ok(word) => Ok(word),
            Err(NameFault::NotAWord) => {
                Err(DocFault::UnknownWord(Path::of_item(alloc, place, name, position)?))
            }
            Err(NameFault::NoMemory(witness)) => Err(DocFault::NoMemory(witness)),
        },
        _ => Err(DocFault::WrongShape(Path::of_item(alloc, place, name, position)?)),
    }
}

// The words of a list.
fn words_in<F: Form>(
    alloc: Global,
    place: Place,
    name: &str,
    values: &[Tree<'_>],
) -> Result<Vec<Formed<F>>, DocFault>
    ensures { GivesAs (λ words. words.items) result (unless_faulty
        (items_faults (word_faults F.is_form) (below (path_of place) name.now) 0
        (items_view values.now))
        (items_as string_in (items_view values.now))) }
{
    let mut words = Vec::with_capacity(alloc, values.len())?;
    for value in values {
        let word = word_of(alloc, place, name, words.len(), value)?;
        words
            .push(word)
            .map_err(|refused| DocFault::NoMemory(refused.into()))?;
    }
    Ok(words)
}

/// A list of words of one form, or null.
#[tactic(auto, unfolding(crate::specs::Shape::optional_faults, crate::specs::Shape::list_faults, crate::specs::FilterParts::list_as))]
pub(crate) fn words_of<F: Form>(
    alloc: Global,
    place: Place,
    name: &str,
    value: &Tree<'_>,
) -> Result<Vec<Formed<F>>, DocFault>
    ensures { GivesAs (λ words. words.items) result (unless_faulty
        (optional_faults (list_faults (word_faults F.is_form)) (below (path_of place) name.now)
        (view value.now))
        (list_as string_in (view value.now))) }
{
    match value {
        Tree::Null => Ok(Vec::new(alloc)),
        Tree::Array(values) => words_in(alloc, place, name, values),
        _ => Err(DocFault::WrongShape(Path::of_member(alloc, place, name)?)),
    }
}
