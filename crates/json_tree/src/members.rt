//! The members of an object while they are read.

ghost use Rattle.std.specs.Prelude.{◌≡◌, ◌∷◌, ◌++◌, [], IfOk, IsTrue, OnOk};
ghost use Rattle.std.specs.Cmp.Lexicographic.{slice_cmp};
ghost use Rattle.std.specs.Ordering.{nat_cmp};
ghost use Rattle.std.specs.declared.cmp.Ordering.TheVariants.{Greater};
ghost use Rattle.serde_json.specs.Data.{no_members, put as with_member};
ghost use Rattle.json_tree.specs.Gathered.{IsOrdered, IsRising, gathered_view};
ghost use Rattle.json_tree.specs.View.{members_view, view};
ghost use Rattle.json_tree.specs.declared.tree.Tree.{Tree as Seen};

use crate::tree::Tree;
use std::alloc::{AllocError, Global};
use std::cmp::Ordering;
use std::collections::BTreeMap;
use std::mem;

// How many members a list holds before one out of order has them go into a map.
const MOST_FEW: usize = 8;

/// Members in byte order of their names, each name once: a list while they are few or come in that
/// order, and then a map, so that an object of many members takes no quadratic time.
#[derive(Drop)]
pub(crate) enum Gathered<'a> {
    Few(Vec<(&'a str, Tree<'a>)>),
    Many(BTreeMap<&'a str, Tree<'a>>),
}

impl<'a> Gathered<'a> {
    /// No members, in an empty list.
    pub(crate) fn new(empty: Vec<(&'a str, Tree<'a>)>) -> Gathered<'a>
        requires { empty.items ≡ [] }
        ensures members { gathered_view result ≡ no_members }
        ensures ordered { IsOrdered result }
    {
        Gathered::Few(empty)
    }

    /// Puts a value at a name.
    #[inline(always)]
    pub(crate) fn put(
        &mut self,
        alloc: Global,
        name: &'a str,
        value: Tree<'a>,
    ) -> Result<(), AllocError>
        requires { IsOrdered self.old }
        ensures members { OnOk result (gathered_view self.new
            ≡ with_member name.now (view value.entry) (gathered_view self.old)) }
        ensures ordered { OnOk result (IsOrdered self.new) }
    {
        if let Gathered::Few(few) = self {
            if goes_last(few, name) {
                few.push((name, value))?;
                return Ok(());
            }
        }
        self.put_anywhere(alloc, name, value)
    }

    // Puts a value at a name, which may belong before others.
    #[inline(never)]
    fn put_anywhere(
        &mut self,
        alloc: Global,
        name: &'a str,
        value: Tree<'a>,
    ) -> Result<(), AllocError>
        requires { IsOrdered self.old }
        ensures members { OnOk result (gathered_view self.new
            ≡ with_member name.now (view value.entry) (gathered_view self.old)) }
        ensures ordered { OnOk result (IsOrdered self.new) }
    {
        match self {
            Gathered::Few(few) => {
                if few.len() < MOST_FEW {
                    put_among(few, name, value)?;
                } else {
                    let mut many = map_of(alloc, mem::replace(few, Vec::new(alloc)))?;
                    drop(many.insert(name, value)?);
                    *self = Gathered::Many(many);
                }
            }
            Gathered::Many(many) => {
                drop(many.insert(name, value)?);
            }
        }
        Ok(())
    }

    /// The list of them.
    #[inline(always)]
    pub(crate) fn into_list(self, alloc: Global) -> Result<Vec<(&'a str, Tree<'a>)>, AllocError>
        ensures { IfOk result (λ list. members_view list.items ≡ gathered_view self.entry) }
    {
        match self {
            Gathered::Few(few) => Ok(few),
            Gathered::Many(many) => list_of(alloc, many),
        }
    }
}

// Whether a name goes behind all members, as each one of an ordered text does.
fn goes_last(members: &[(&str, Tree<'_>)], name: &str) -> bool
    requires { IsRising (members_view members.now) }
    ensures { IsTrue result → (v : Seen) → with_member name.now (view v) (members_view members.now)
        ≡ members_view (members.now ++ (name.entry, v) ∷ []) }
{
    match members.last() {
        Some(last) => begins_above(name.as_bytes(), last.0.as_bytes()) || name > last.0,
        None => true,
    }
}

// Whether a name is above another by its first byte, which tells most apart without a call.
#[inline(always)]
fn begins_above(name: &[u8], other: &[u8]) -> bool
    ensures { IsTrue result → slice_cmp nat_cmp name.now other.now ≡ Greater }
{
    match (name.first(), other.first()) {
        (Some(first), Some(other_first)) => *first > *other_first,
        _ => false,
    }
}

// Puts a value at a name, among those before it.
fn put_among<'a>(
    members: &mut Vec<(&'a str, Tree<'a>)>,
    name: &'a str,
    value: Tree<'a>,
) -> Result<(), AllocError>
    ensures { OnOk result (members_view members.new.items
        ≡ with_member name.now (view value.entry) (members_view members.old.items)) }
{
    for place in 0..members.len() {
        match name.cmp(members[place].0) {
            Ordering::Less => {
                members.insert(place, (name, value))?;
                return Ok(());
            }
            Ordering::Equal => {
                members[place].1 = value;
                return Ok(());
            }
            Ordering::Greater => {}
        }
    }
    members.push((name, value))?;
    Ok(())
}

// The map of the members of a list.
fn map_of<'a>(
    alloc: Global,
    mut few: Vec<(&'a str, Tree<'a>)>,
) -> Result<BTreeMap<&'a str, Tree<'a>>, AllocError>
    requires { IsRising (members_view few.items) }
    ensures { IfOk result (λ many. members_view many.entries ≡ members_view few.entry.items) }
{
    let mut many = BTreeMap::new(alloc);
    while let Some((name, value)) = few.pop() {
        drop(many.insert(name, value)?);
    }
    Ok(many)
}

// The list of the members of a map.
#[inline(never)]
fn list_of<'a>(
    alloc: Global,
    many: BTreeMap<&'a str, Tree<'a>>,
) -> Result<Vec<(&'a str, Tree<'a>)>, AllocError>
    ensures { IfOk result (λ list. members_view list.items ≡ members_view many.entry.entries) }
{
    let list = many.into_iter().collect(alloc)?;
    Ok(list)
}
