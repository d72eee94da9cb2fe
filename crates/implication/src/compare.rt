//! Implication between comparisons.

ghost use Rattle.std.specs.Prelude.{◌≡◌, MatchBool};
ghost use Rattle.seccomp_doc.specs.Compare.{admits};
ghost use Rattle.implication.specs.Implication.{AllAdmitted, SomeRefused, implies};

use crate::mask::mask_implies;
use crate::range::{above_implies, below_implies, range_implies};
use seccomp_doc::{Compare, Op};

/// Whether every 64-bit word that a comparison admits is admitted by the other. Their indexes
/// aren't looked at. A comparison that admits no word implies all.
///
/// It takes no memory, and looks at the ends of ranges and the bits of masks alone.
pub fn implies(compare: Compare, other: Compare) -> bool
    ensures value { result ≡ implies compare other }

    // Where it is false, some word is admitted by the one and refused by the other.
    ensures exact { MatchBool result
        (AllAdmitted (admits compare) other) (SomeRefused (admits compare) other) }
{
    let value = compare.value;
    match compare.op {
        Op::NotEqual => below_implies(value, other) && above_implies(value, other),
        Op::LessThan => below_implies(value, other),
        Op::LessOrEqual => range_implies(0, value, other),
        Op::Equal => range_implies(value, value, other),
        Op::GreaterOrEqual => range_implies(value, u64::MAX, other),
        Op::GreaterThan => above_implies(value, other),
        Op::MaskedEqual => mask_implies(value, compare.value_two & value, other),
    }
}
