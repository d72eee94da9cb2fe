//! Looking into a tree.

ghost use Rattle.std.specs.Prelude.{◌≡◌, option_and_then, option_map};
ghost use Rattle.serde_json.specs.Find.{as_array, as_number, as_object, as_str, as_u64};
ghost use Rattle.serde_json.specs.Find.{get, get_member};
ghost use Rattle.json_tree.specs.View.{items_view, members_view, view};

use crate::tree::Tree;

impl<'a> Tree<'a> {
    /// The value at a name, where it is an object with a member of that name. It looks at the
    /// members one after another.
    pub fn get(&self, name: &str) -> Option<&Tree<'a>>
        ensures { option_map (λ tree. view tree.now) result ≡ get name.now (view self.now) }
    {
        match self {
            Tree::Object(members) => value_at(members, name),
            _ => None,
        }
    }

    /// The text, where it is one.
    pub fn as_str(&self) -> Option<&'a str>
        ensures { option_map (λ text. text.now) result ≡ as_str (view self.now) }
    {
        match self {
            Tree::String(text) => Some(*text),
            _ => None,
        }
    }

    /// The number, where it is a whole number from 0 to 2^64 - 1.
    pub fn as_u64(&self) -> Option<u64>
        ensures { result ≡ option_and_then as_u64 (as_number (view self.now)) }
    {
        match self {
            Tree::Number(number) => number.as_u64(),
            _ => None,
        }
    }

    /// The items, where it is a list.
    pub fn as_array(&self) -> Option<&[Tree<'a>]>
        ensures { option_map (λ items. items_view items.now) result ≡ as_array (view self.now) }
    {
        match self {
            Tree::Array(items) => Some(items),
            _ => None,
        }
    }

    /// The members, in byte order of their names, where it is an object.
    pub fn as_object(&self) -> Option<&[(&'a str, Tree<'a>)]>
        ensures { option_map (λ members. members_view members.now) result
            ≡ as_object (view self.now) }
    {
        match self {
            Tree::Object(members) => Some(members),
            _ => None,
        }
    }
}

// The value at a name, among members.
fn value_at<'t, 'a>(members: &'t [(&'a str, Tree<'a>)], name: &str) -> Option<&'t Tree<'a>>
    ensures { option_map (λ tree. view tree.now) result
        ≡ get_member name.now (members_view members.now) }
{
    for (key, value) in members {
        if name == *key {
            return Some(value);
        }
    }
    None
}
