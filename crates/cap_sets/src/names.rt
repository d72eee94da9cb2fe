//! The names of the members of a set.

ghost use Rattle.std.specs.Prelude.{◌≡◌, ◌<◌, Some, slice_get};
ghost use Rattle.std.specs.Iterator.{YieldsFirstBy, item_count};
ghost use Rattle.cap_sets.specs.Capability.{cap_names, names_of};

use crate::caps::Caps;
use crate::flags::CapFlags;
use bitflags::Flags;
use std::marker::Model;

/// The names of the members of a set that are still to come, by rising number.
#[derive(Drop)]
pub struct Names {
    caps: Caps,
    next: usize,
}

impl Model for Names {
    ghost use Rattle.std.specs.Prelude.{ℕ, List};
    ghost use Rattle.cap_sets.specs.Capability.{names_left};

    ghost Value = { List (List ℕ) };

    ghost view = { λ names. names_left names.next names.caps };
}

impl Names {
    /// The names of all members of a set.
    pub(crate) fn new(caps: Caps) -> Names
        ensures { result ≡ names_of caps }
    {
        Names { caps, next: 0 }
    }
}

impl Iterator for Names {
    type Item = &'static str;

    ghost next_gives = { YieldsFirstBy (λ name. name.now) (λ names. names) };

    ghost remaining = { item_count (λ names. names) };

    fn next(&mut self) -> Option<&'static str> {
        while self.next < 41 {
            let number = self.next;
            self.next += 1;
            if self.caps.has(number) {
                return Some(name_of(number));
            }
        }
        None
    }
}

// The name of the capability of this number.
fn name_of(number: usize) -> &'static str
    requires { number < 41 }
    ensures { slice_get cap_names number ≡ Some result.now }
{
    let flags = CapFlags::flags();
    flags[number].name()
}
