//! Capability sets compared.

ghost use Rattle.std.specs.Prelude.{◌≡◌, ◌<◌, ◌==◌, ◌∷◌, ◌++◌, [], OnOk, if◌then◌else◌, map};
ghost use Rattle.std.specs.Bool.{OnFalse};
ghost use Rattle.std.specs.Int.{bit_at};
ghost use Rattle.cap_sets.specs.Capability.{IsWithin};
ghost use Rattle.widening.specs.Findings.{cap_findings, gained, gains, is_found, is_gained};
ghost use Rattle.widening.specs.Permits.{HoldsNoMore};

use crate::finding::Finding;
use cap_sets::{CapState, Caps};
use profile_text::CapSet;
use std::alloc::AllocError;

// Adds each capability that a set of the new state has and the baseline's hasn't, set by set.
#[tactic(auto, using(crate::proofs::FoundFacts::five_found))]
pub(crate) fn find_caps(
    found: &mut Vec<Finding>,
    base: &CapState,
    new: &CapState,
) -> Result<(), AllocError>
    ensures { OnOk result (found.new.items ≡ found.old.items ++ cap_findings base.now new.now) }
{
    find_gained(found, CapSet::Effective, base.effective, new.effective)?;
    find_gained(found, CapSet::Permitted, base.permitted, new.permitted)?;
    find_gained(
        found,
        CapSet::Inheritable,
        base.inheritable,
        new.inheritable,
    )?;
    find_gained(found, CapSet::Bounding, base.bounding, new.bounding)?;
    find_gained(found, CapSet::Ambient, base.ambient, new.ambient)?;
    Ok(())
}

// Adds each capability of the new set that the baseline's hasn't, by rising number.
fn find_gained(
    found: &mut Vec<Finding>,
    set: CapSet,
    base: Caps,
    new: Caps,
) -> Result<(), AllocError>
    ensures { OnOk result (found.new.items
        ≡ found.old.items ++ map (Finding.Cap set) (gained base new)) }
{
    for number in 0..41u8 {
        find_cap(found, set, base, new, number)?;
    }
    Ok(())
}

// Adds the capability of this number, where the new set has it and the baseline's hasn't.
fn find_cap(
    found: &mut Vec<Finding>,
    set: CapSet,
    base: Caps,
    new: Caps,
    number: u8,
) -> Result<(), AllocError>
    requires { number < 41 }
    ensures { OnOk result (found.new.items ≡ found.old.items
        ++ (if is_gained base new number then Finding.Cap set number ∷ [] else [])) }
{
    if has(new, number) && !has(base, number) {
        found.push(Finding::Cap(set, number))?;
    }
    Ok(())
}

// Whether the capability of this number is in the set.
fn has(caps: Caps, number: u8) -> bool
    requires { number < 41 }
    ensures { result ≡ (bit_at caps number == 1) }
{
    (caps.bits() >> number) & 1 == 1
}

// Whether some set of the new state has a capability that the baseline's hasn't.
#[tactic(auto, using(crate::proofs::FoundFacts::found_caps))]
pub(crate) fn gains_a_cap(base: &CapState, new: &CapState) -> bool
    ensures told { result ≡ is_found (cap_findings base.now new.now) }

    // Where it is false, each of the new sets is within the baseline's.
    ensures no_more { OnFalse result (HoldsNoMore base.now new.now) }
{
    gains(base.effective, new.effective)
        || gains(base.permitted, new.permitted)
        || gains(base.inheritable, new.inheritable)
        || gains(base.bounding, new.bounding)
        || gains(base.ambient, new.ambient)
}

// Whether the new set has a capability that the baseline's hasn't.
fn gains(base: Caps, new: Caps) -> bool
    ensures told { result ≡ gains base new }
    ensures no_more { OnFalse result (IsWithin new base) }
{
    new.bits() & !base.bits() != 0
}
