//! The memory that reading needs.

ghost use Rattle.std.specs.Prelude.{◌≡◌, [], IfOk};

use bumpalo::Bump;
use std::alloc::{AllocError, Global};

/// The memory that reading needs, kept from read to read. A tree borrows from it: its texts that
/// had escapes, and its lists of items and members.
#[derive(Drop)]
pub struct Scratch {
    pub(crate) texts: json::Scratch,
    pub(crate) lists: Bump,
}

impl Scratch {
    /// A scratch that holds no memory yet.
    pub fn new(alloc: Global) -> Scratch {
        Scratch {
            texts: json::Scratch::new(alloc),
            lists: Bump::new(alloc),
        }
    }
}

/// Lists of one kind: those that are whole are kept in an arena, and those that are still read have
/// rooms, which serve again.
#[derive(Drop)]
pub(crate) struct Lists<'a, T: Copy> {
    arena: &'a Bump,
    rooms: Vec<Vec<T>>,
}

impl<'a, T: Copy> Lists<'a, T> {
    /// No lists.
    pub(crate) fn new(alloc: Global, arena: &'a Bump) -> Lists<'a, T> {
        Lists {
            arena,
            rooms: Vec::new(alloc),
        }
    }

    /// An empty list, to be read.
    pub(crate) fn start(&mut self, alloc: Global) -> Vec<T>
        ensures { result.items ≡ [] }
    {
        match self.rooms.pop() {
            Some(mut room) => {
                room.clear();
                room
            }
            None => Vec::new(alloc),
        }
    }

    /// Keeps a list that is whole.
    pub(crate) fn keep(&mut self, list: Vec<T>) -> Result<&'a [T], AllocError>
        ensures { IfOk result (λ kept. kept.now ≡ list.items) }
    {
        let kept = self.arena.try_alloc_slice_copy(list.as_slice())?;
        self.rooms.push(list)?;
        Ok(kept)
    }
}
