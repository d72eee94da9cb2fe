//! Whether a comparison admits all words that have given bits under a mask.

ghost use Rattle.std.specs.Prelude.{◌≡◌, bit_and};
ghost use Rattle.implication.specs.Implication.{TellsAllAdmitted};
ghost use Rattle.implication.specs.Sets.{has_bits};

use seccomp_doc::{Compare, Op};

// Whether all words that have these bits under the mask are admitted. The least of them has no
// other bit, the greatest has all bits outside of the mask.
pub(crate) fn mask_implies(mask: u64, bits: u64, other: Compare) -> bool
    requires { bit_and bits mask ≡ bits }
    ensures { TellsAllAdmitted result (has_bits mask bits) other }
{
    match other.op {
        Op::NotEqual => other.value & mask != bits,
        _ => other.admits(bits) && other.admits(bits | !mask),
    }
}
