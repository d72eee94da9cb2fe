//! Whether a comparison admits all words of a range.

ghost use Rattle.std.specs.Prelude.{◌≤◌, MatchBool, nat_lt};
ghost use Rattle.implication.specs.Implication.{TellsAllAdmitted};
ghost use Rattle.implication.specs.Sets.{AllAgree, SomeDiffers, is_between};

use seccomp_doc::{Compare, Op};

// Whether all words below one are admitted.
pub(crate) fn below_implies(word: u64, other: Compare) -> bool
    ensures { TellsAllAdmitted result (λ w. nat_lt w word) other }
{
    word == 0 || range_implies(0, word - 1, other)
}

// Whether all words above one are admitted.
pub(crate) fn above_implies(word: u64, other: Compare) -> bool
    ensures { TellsAllAdmitted result (λ w. nat_lt word w) other }
{
    word == u64::MAX || range_implies(word + 1, u64::MAX, other)
}

// Whether all words from one to another are admitted.
pub(crate) fn range_implies(first: u64, last: u64, other: Compare) -> bool
    requires { first ≤ last }
    ensures { TellsAllAdmitted result (is_between first last) other }
{
    match other.op {
        Op::NotEqual => other.value < first || last < other.value,
        Op::MaskedEqual => other.admits(first)
            && interval_agrees_under_mask(other.value, first, last),
        _ => other.admits(first) && other.admits(last),
    }
}

// Whether all words from one to another are alike in the bits of a mask: in its lowest bit and all
// bits above that.
fn interval_agrees_under_mask(mask: u64, first: u64, last: u64) -> bool
    requires { first ≤ last }
    ensures { MatchBool result (AllAgree mask first last) (SomeDiffers mask first last) }
{
    if mask == 0 {
        return true;
    }
    let lowest = mask.trailing_zeros();
    first >> lowest == last >> lowest
}
