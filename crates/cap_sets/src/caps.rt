//! A set of capabilities.

ghost use Rattle.std.specs.Prelude.{◌≡◌, ◌<◌, ◌^◌, ◌↔◌, ◌==◌, ℕ, List, Some, None, Contains};
ghost use Rattle.std.specs.Prelude.{IsTrue, IsSome, IfSome, IfNone, map, nat_lt, if◌then◌else◌};
ghost use Rattle.std.specs.Prelude.{option_map};
ghost use Rattle.std.specs.Bool.{OnFalse};
ghost use Rattle.std.specs.Int.{bit_at};
ghost use Rattle.std.specs.Int.RustNames.{bit_and, bit_or};
ghost use Rattle.cap_sets.specs.Capability.{Has, IsNamed, IsWithin, single, number_named, names_of};
ghost use Rattle.cap_sets.specs.Capability.{set_named, IsLowest};
ghost use Rattle.cap_sets.specs.Lawful.{lowest_outside};
ghost use Rattle.cap_sets.specs.NumberSet.{HasExactly, nothing, members, ◌∪◌, ◌∩◌};

use crate::flags::CapFlags;
use crate::names::Names;
use bitflags::Flags;
use std::marker::Model;

/// A set of the capabilities 0 to 40, numbered as in `linux/capability.h`.
#[derive(Clone, Copy, PartialEq)]
pub struct Caps {
    flags: CapFlags,
}

impl Model for Caps {
    ghost use Rattle.std.specs.Prelude.{◌<◌, ◌^◌, ℕ};

    ghost Value = { ℕ };

    ghost view = { λ caps. caps.flags.0 };

    ghost invariant = { λ caps. caps.flags.0 < 2 ^ 41 };

    ghost inverse = { λ bits. record { flags = record { 0 = bits } } };
}

impl Caps {
    /// The set with no member.
    pub fn empty() -> Caps
        ensures bits { result ≡ 0 }
        ensures members { HasExactly result nothing }
    {
        Caps { flags: CapFlags(0) }
    }

    /// The set of the one capability of this name, as `CAP_CHOWN`; none where no capability has it.
    pub fn from_name(name: &str) -> Option<Caps>
        ensures named { IfSome result (λ caps. (n : ℕ) × IsNamed n name.now × (caps ≡ single n)) }
        ensures unknown { IfNone result ((n : ℕ) → ¬ IsNamed n name.now) }
        ensures value { result ≡ option_map single (number_named name.now) }
    {
        match CapFlags::from_name(name) {
            Some(flags) => Some(Caps { flags }),
            None => None,
        }
    }

    /// The set of just the capabilities of these names, each any number of times; none where one is
    /// no capability's name.
    pub fn from_names(names: &[&str]) -> Option<Caps>
        ensures { result ≡ set_named (map (λ name. name.now) names.now) }
    {
        let mut caps = Caps::empty();
        'names: for name in names {
            match Caps::from_name(name) {
                Some(named) => caps = caps.union(named),
                None => return None,
            }
        }
        Some(caps)
    }

    /// The set that has capability n where bit n is set; none where a bit above 40 is set.
    pub fn from_bits(bits: u64) -> Option<Caps>
        ensures known { IsSome result ↔ ((n : ℕ) → Has bits n → n < 41) }
        ensures value { result ≡ (if nat_lt bits (2 ^ 41) then Some bits else None) }
    {
        match CapFlags::from_bits(bits) {
            Some(flags) => Some(Caps { flags }),
            None => None,
        }
    }

    /// The number whose bit n is set where capability n is a member.
    pub fn bits(self) -> u64
        ensures value { result ≡ self }
        ensures known { result < 2 ^ 41 }
    {
        self.flags.0
    }

    /// Whether each member of the other set is in this one.
    pub fn contains(self, other: Caps) -> bool
        ensures members { IsTrue result ↔ IsWithin other self }
        ensures lacks { OnFalse result ((n : ℕ) × (Has other n × ¬ Has self n)) }
        ensures bits { result ≡ (bit_and self other == other) }
    {
        self.flags.contains(other.flags)
    }

    /// The members of either set.
    pub fn union(self, other: Caps) -> Caps
        ensures members { HasExactly result (members self ∪ members other) }
        ensures bits { result ≡ bit_or self other }
    {
        Caps {
            flags: self.flags.union(other.flags),
        }
    }

    /// The names of the members, by rising number.
    pub fn names(self) -> Names
        ensures members { (name : List ℕ)
            → Contains result name ↔ ((n : ℕ) × IsNamed n name × Has self n) }
        ensures rising { result ≡ names_of self }
    {
        Names::new(self)
    }

    /// The members of both sets.
    pub(crate) fn intersection(self, other: Caps) -> Caps
        ensures members { HasExactly result (members self ∩ members other) }
        ensures bits { result ≡ bit_and self other }
    {
        Caps {
            flags: self.flags.intersection(other.flags),
        }
    }

    /// The lowest member that isn't in the other set.
    pub(crate) fn lowest_outside(self, other: Caps) -> Option<u8>
        ensures found { IfSome result (IsLowest (λ k. Has self k × ¬ Has other k)) }
        ensures none { IfNone result (IsWithin self other) }
        ensures value { result ≡ lowest_outside self other }
    {
        lowest_bit_outside(self.flags.0, other.flags.0)
    }

    /// Whether this capability is a member.
    pub(crate) fn has(self, number: usize) -> bool
        requires { number < 41 }
        ensures { result ≡ (bit_at self number == 1) }
    {
        (self.flags.0 >> number) & 1 == 1
    }
}

// The lowest bit that is set in the one number and not in the other.
fn lowest_bit_outside(bits: u64, other: u64) -> Option<u8>
    ensures found { IfSome result (IsLowest (λ k. Has bits k × ¬ Has other k)) }
    ensures none { IfNone result (IsWithin bits other) }
    ensures value { result ≡ lowest_outside bits other }
{
    let outside = bits & !other;
    if outside == 0 {
        None
    } else {
        Some(outside.trailing_zeros() as u8)
    }
}
