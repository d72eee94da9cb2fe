//! The reader of trees, in one pass over the tokens of a text.

ghost use Rattle.std.specs.Prelude.{◌≡◌, ◌<◌, Err, IfOk, IsUtf8, None, OnOk, Some, length};
ghost use Rattle.json.specs.Json.{items, members, value};
ghost use Rattle.serde_json.specs.Data.{no_members};
ghost use Rattle.serde_json.specs.Read.{converted, of_items, of_json, of_members};
ghost use Rattle.serde_json.specs.Read.{read as read_text};
ghost use Rattle.json_tree.specs.View.{items_view, members_view, view};

use crate::fault::ReadFault;
use crate::members::Gathered;
use crate::number::Number;
use crate::scratch::{Lists, Scratch};
use crate::tree::Tree;
use bumpalo::Bump;
use json::{Reader, Token};
use std::alloc::Global;

// How deep lists and objects may nest.
const MAX_DEPTH: usize = 127;

impl<'a> Tree<'a> {
    /// The value that the bytes are. Lists, and texts with escapes, are borrowed from `scratch`,
    /// and all other texts from the bytes.
    ///
    /// # Errors
    ///
    /// `NotJson` where the bytes are no JSON text: bytes that aren't UTF-8, a number out of a
    /// float's range, or lists and objects that nest more than 127 deep, are none. `NoMemory`
    /// where memory is refused.
    pub fn from_slice(
        alloc: Global,
        bytes: &'a [u8],
        scratch: &'a mut Scratch,
    ) -> Result<Tree<'a>, ReadFault>
        ensures ok { IfOk result
            (λ tree. IsUtf8 bytes.now × (read_text bytes.now ≡ Some (view tree))) }
        ensures not_json { result ≡ Err ReadFault.NotJson → IsUtf8 bytes.now
            → read_text bytes.now ≡ None }
    {
        match simdutf8::compat::from_utf8(bytes) {
            Ok(text) => read_all(alloc, text, scratch),
            Err(_) => Err(ReadFault::NotJson),
        }
    }
}

// The lists of a tree, while it is read.
#[derive(Drop)]
struct Room<'a> {
    items: Lists<'a, Tree<'a>>,
    members: Lists<'a, (&'a str, Tree<'a>)>,
}

impl<'a> Room<'a> {
    fn new(alloc: Global, arena: &'a Bump) -> Room<'a> {
        Room {
            items: Lists::new(alloc, arena),
            members: Lists::new(alloc, arena),
        }
    }
}

// The value that a text is.
fn read_all<'a>(
    alloc: Global,
    text: &'a str,
    scratch: &'a mut Scratch,
) -> Result<Tree<'a>, ReadFault>
    ensures ok { IfOk result (λ tree. read_text text.now ≡ Some (view tree)) }
    ensures not_json { result ≡ Err ReadFault.NotJson → read_text text.now ≡ None }
{
    let Scratch { texts, lists } = scratch;
    drop(lists.reset());
    let mut room = Room::new(alloc, lists);
    let mut reader = Reader::new(text, texts)?;
    let tree = read(alloc, &mut room, &mut reader, MAX_DEPTH)?;
    if reader.next().is_some() {
        return Err(ReadFault::NotJson);
    }
    Ok(tree)
}

// The next value of the reader. Lists and objects may nest `depth` deep.
#[cycle(read)]
#[inline(always)]
fn read<'a>(
    alloc: Global,
    room: &mut Room<'a>,
    reader: &mut Reader<'a>,
    depth: usize,
) -> Result<Tree<'a>, ReadFault>
    ensures ok { IfOk result
        (λ tree. converted of_json (value depth reader.old) ≡ Some (view tree, reader.new)) }
    ensures shorter { OnOk result (length reader.new < length reader.old) }
    ensures not_json { result ≡ Err ReadFault.NotJson
        → converted of_json (value depth reader.old) ≡ None }
{
    let token = reader.next().ok_or(ReadFault::NotJson)?;
    match token {
        Token::String(text) => Ok(Tree::String(text)),
        Token::Number(text) => match Number::parse(text) {
            Some(number) => Ok(Tree::Number(number)),
            None => Err(ReadFault::NotJson),
        },
        Token::Bool(value) => Ok(Tree::Bool(value)),
        Token::Null => Ok(Tree::Null),
        Token::EndObject | Token::EndArray | Token::Key(_) | Token::Bad => Err(ReadFault::NotJson),
        Token::BeginArray => {
            if depth == 0 {
                return Err(ReadFault::NotJson);
            }
            Ok(Tree::Array(read_items(alloc, room, reader, depth - 1)?))
        }
        Token::BeginObject => {
            if depth == 0 {
                return Err(ReadFault::NotJson);
            }
            Ok(Tree::Object(read_members(alloc, room, reader, depth - 1)?))
        }
    }
}

// The items of a list, after its bracket.
#[cycle(read)]
#[inline(never)]
fn read_items<'a>(
    alloc: Global,
    room: &mut Room<'a>,
    reader: &mut Reader<'a>,
    depth: usize,
) -> Result<&'a [Tree<'a>], ReadFault>
    ensures ok { IfOk result
        (λ found. converted of_items (items (value depth) (length reader.old) reader.old)
        ≡ Some (items_view found.now, reader.new)) }
    ensures shorter { OnOk result (length reader.new < length reader.old) }
    ensures not_json { result ≡ Err ReadFault.NotJson
        → converted of_items (items (value depth) (length reader.old) reader.old) ≡ None }
{
    let mut found = room.items.start(alloc);
    'items: while !reader.take_end_array() {
        let item = read(alloc, room, reader, depth)?;
        found.push(item)?;
    }
    let kept = room.items.keep(found)?;
    Ok(kept)
}

// The members of an object, after its brace. The last value of a name stays.
#[cycle(read)]
#[inline(never)]
fn read_members<'a>(
    alloc: Global,
    room: &mut Room<'a>,
    reader: &mut Reader<'a>,
    depth: usize,
) -> Result<&'a [(&'a str, Tree<'a>)], ReadFault>
    ensures ok { IfOk result
        (λ found. converted (λ ms. of_members ms no_members)
        (members (value depth) (length reader.old) reader.old)
        ≡ Some (members_view found.now, reader.new)) }
    ensures shorter { OnOk result (length reader.new < length reader.old) }
    ensures not_json { result ≡ Err ReadFault.NotJson
        → converted (λ ms. of_members ms no_members)
        (members (value depth) (length reader.old) reader.old) ≡ None }
{
    let mut found = Gathered::new(room.members.start(alloc));
    'members: while let Some(name) = reader.next_key()? {
        let member = read(alloc, room, reader, depth)?;
        found.put(alloc, name, member)?;
    }
    let list = found.into_list(alloc)?;
    let kept = room.members.keep(list)?;
    Ok(kept)
}
