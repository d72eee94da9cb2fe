//! Entries grouped by the names of their calls.

ghost use Rattle.std.specs.Prelude.{◌≡◌, ◌<◌, [], ◌∷◌, Some, filter, length, IfOk, OnOk};
ghost use Rattle.std.specs.Bool.{OnTrue};
ghost use Rattle.seccomp_doc.specs.Meaning.{has_name};
ghost use Rattle.widening.specs.Calls.{keeps_to};
ghost use Rattle.widening.specs.Groups.{AddsPlace, AddsUnder, AreWithin, HasSameElements};
ghost use Rattle.widening.specs.Groups.{IsGrouping, IsPlaceAmong, entries_at, name_at};
ghost use Rattle.widening.specs.Memo.{IsMemo};
ghost use Rattle.widening.specs.Ranks.{AreRanksOf, rules_with};
ghost use Rattle.widening.specs.Texts.{AreInOrder};

use crate::memo::{Memo, do_imply};
use crate::ranks::{Asked, Ranks};
use seccomp_doc::{Action, Entry, Filter};
use smallvec::SmallVec;
use std::alloc::{AllocError, Global};

// The entries of one name: those at these places.
#[derive(Drop)]
pub(crate) struct Group<'b> {
    pub(crate) entries: &'b [Entry],
    pub(crate) places: &'b [usize],
    ghost within: { AreWithin entries.now places.now },
}

impl<'b> Group<'b> {
    // The ranks of what may be done with a call of the name.
    fn ranks(&self, default: Action) -> Ranks
        ensures { AreRanksOf result
            (rules_with default (entries_at self.now.entries.now self.now.places.now)) }
    {
        ranks_at(default, self.entries, self.places)
    }
}

// The names of two filters' entries, in byte order, each once, and of each filter the places of the
// entries of each name. Most names have one entry, whose place takes no allocation.
#[derive(Drop)]
pub(crate) struct Groups<'a> {
    names: &'a [&'a str],
    base: &'a Filter,
    new: &'a Filter,
    in_base: Vec<SmallVec<usize, 1>>,
    in_new: Vec<SmallVec<usize, 1>>,
    ghost base_grouped: { IsGrouping base.now.entries names.now in_base.items },
    ghost new_grouped: { IsGrouping new.now.entries names.now in_new.items },
}

impl<'a> Groups<'a> {
    // Groups the entries of two filters by these names.
    pub(crate) fn new(
        alloc: Global,
        base: &'a Filter,
        new: &'a Filter,
        names: &'a [&'a str],
    ) -> Result<Groups<'a>, AllocError>
        requires { AreInOrder names.now }
        ensures { IfOk result (λ groups. (groups.names.now ≡ names.now)
            × (groups.base.now ≡ base.now) × (groups.new.now ≡ new.now)) }
    {
        let in_base = group_by_name(alloc, base, names)?;
        let in_new = group_by_name(alloc, new, names)?;
        Ok(Groups {
            names,
            base,
            new,
            in_base,
            in_new,
        })
    }

    // The names.
    pub(crate) fn names(&self) -> &[&str]
        ensures { result.now ≡ self.now.names.now }
    {
        self.names
    }

    // The baseline's entries of the name at a place.
    fn base_group<'b>(&'b self, at: usize) -> Group<'b>
        requires { at < length self.now.names.now }
        ensures entries { result.entries.now ≡ self.now.base.now.entries }
        ensures named { HasSameElements (entries_at result.entries.now result.places.now)
            (filter (has_name (name_at self.now.names.now at)) self.now.base.now.entries) }
    {
        Group {
            entries: self.base.entries(),
            places: self.in_base[at].as_slice(),
        }
    }

    // The new filter's entries of the name at a place.
    fn new_group<'b>(&'b self, at: usize) -> Group<'b>
        requires { at < length self.now.names.now }
        ensures entries { result.entries.now ≡ self.now.new.now.entries }
        ensures named { HasSameElements (entries_at result.entries.now result.places.now)
            (filter (has_name (name_at self.now.names.now at)) self.now.new.now.entries) }
    {
        Group {
            entries: self.new.entries(),
            places: self.in_new[at].as_slice(),
        }
    }
}

// The ranks of what may be done with a call, where the entries at these places are those of its
// name.
fn ranks_at(default: Action, entries: &[Entry], places: &[usize]) -> Ranks
    requires { AreWithin entries.now places.now }
    ensures { AreRanksOf result (rules_with default (entries_at entries.now places.now)) }
{
    let mut ranks = Ranks::of_default(default);
    for place in places {
        ranks = ranks.with(&entries[*place]);
    }
    ranks
}

// Whether the new filter permits no call of the name at a place more than the baseline.
pub(crate) fn keeps_to(
    alloc: Global,
    groups: &Groups,
    memo: &mut Memo,
    at: usize,
) -> Result<bool, AllocError>
    requires memo { IsMemo groups.now.base.now.entries groups.now.new.now.entries
        memo.old.of_new.items memo.old.of_base.items }
    requires within { at < length groups.now.names.now }
    ensures memo { OnOk result (IsMemo groups.now.base.now.entries groups.now.new.now.entries
        memo.new.of_new.items memo.new.of_base.items) }
    ensures told { IfOk result (λ told. told
        ≡ keeps_to groups.now.base.now groups.now.new.now (name_at groups.now.names.now at)) }
{
    let base_group = groups.base_group(at);
    let new_group = groups.new_group(at);
    let base_ranks = base_group.ranks(groups.base.default_action());
    let new_ranks = new_group.ranks(groups.new.default_action());
    let Asked { of_new, of_base } = Asked::between(base_ranks, new_ranks);
    let new_entries_do = do_imply(alloc, &mut memo.of_new, of_new, &new_group, &base_group)?;
    if !new_entries_do {
        return Ok(false);
    }
    let base_entries_do = do_imply(alloc, &mut memo.of_base, of_base, &base_group, &new_group)?;
    Ok(base_entries_do)
}

// The places of the entries of each of these names.
fn group_by_name(
    alloc: Global,
    filter: &Filter,
    names: &[&str],
) -> Result<Vec<SmallVec<usize, 1>>, AllocError>
    requires { AreInOrder names.now }
    ensures { IfOk result (λ groups. IsGrouping filter.now.entries names.now groups.items) }
{
    let mut groups = without_places(alloc, names)?;
    add_entries(&mut groups, names, filter.entries())?;
    Ok(groups)
}

// No places for each of these names.
fn without_places(alloc: Global, names: &[&str]) -> Result<Vec<SmallVec<usize, 1>>, AllocError>
    ensures { IfOk result (λ groups. IsGrouping [] names.now groups.items) }
{
    let mut groups = Vec::with_capacity(alloc, names.len())?;
    for _ in 0..names.len() {
        groups.push(SmallVec::new(alloc))?;
    }
    Ok(groups)
}

// Adds the places of entries to groups without any.
fn add_entries(
    groups: &mut [SmallVec<usize, 1>],
    names: &[&str],
    entries: &[Entry],
) -> Result<(), AllocError>
    requires order { AreInOrder names.now }
    requires none { IsGrouping [] names.now groups.old }
    ensures { OnOk result (IsGrouping entries.now names.now groups.new) }
{
    let mut guess = 0;
    for place in 0..entries.len() {
        guess = add_entry(groups, names, &entries[place], place, guess)?;
    }
    Ok(())
}

// Adds the place of an entry under each of its names, and gives where the next name is looked for.
fn add_entry(
    groups: &mut [SmallVec<usize, 1>],
    names: &[&str],
    entry: &Entry,
    place: usize,
    first_guess: usize,
) -> Result<usize, AllocError>
    requires order { AreInOrder names.now }
    requires count { length groups.old ≡ length names.now }
    ensures { OnOk result (AddsUnder names.now groups.old groups.new entry.now.names place) }
{
    let mut guess = first_guess;
    for name in entry.names() {
        guess = add_under(groups, names, name.as_str(), place, guess)?;
    }
    Ok(guess)
}

// Adds a place under a name, where it is among the names, and gives where the next one is looked
// for: long lists of names mostly stand in byte order.
fn add_under(
    groups: &mut [SmallVec<usize, 1>],
    names: &[&str],
    name: &str,
    place: usize,
    guess: usize,
) -> Result<usize, AllocError>
    requires order { AreInOrder names.now }
    requires count { length groups.old ≡ length names.now }
    ensures { OnOk result (AddsUnder names.now groups.old groups.new (name.now ∷ []) place) }
{
    match find_name(names, name, guess) {
        Some(at) => {
            add_place(&mut groups[at], place)?;
            Ok(at + 1)
        }
        None => Ok(guess),
    }
}

// The place of a name among the names, which is looked for at the guess first.
fn find_name(names: &[&str], name: &str, guess: usize) -> Option<usize>
    requires { AreInOrder names.now }
    ensures { IsPlaceAmong names.now name.now result }
{
    if is_at(names, name, guess) {
        return Some(guess);
    }
    match names.binary_search(&name) {
        Ok(at) => Some(at),
        Err(_) => None,
    }
}

// Whether the name stands at this place.
fn is_at(names: &[&str], name: &str, at: usize) -> bool
    ensures { OnTrue result (IsPlaceAmong names.now name.now (Some at)) }
{
    at < names.len() && names[at] == name
}

// Adds a place, unless it is the last: an entry that has a name twice stands under it once.
fn add_place(places: &mut SmallVec<usize, 1>, place: usize) -> Result<(), AllocError>
    ensures { OnOk result (AddsPlace places.old.items places.new.items place) }
{
    if places.as_slice().last() != Some(&place) {
        places.push(place)?;
    }
    Ok(())
}
