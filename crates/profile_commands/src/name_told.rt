//! The capability that a fault tells by its number.

ghost use Rattle.std.specs.Prelude.{◌≡◌, option_map, slice_get};
ghost use Rattle.cap_sets.specs.Capability.{cap_names};
ghost use Rattle.profile_commands.specs.FaultTexts.{number_told};

use cap_sets::{CapFault, Caps};

// The set of all capabilities, by its bits.
const ALL: u64 = (1 << 41) - 1;

// The number that a fault tells.
fn number_told(fault: CapFault) -> u8
    ensures { result ≡ number_told fault }
{
    match fault {
        CapFault::EffectiveOutside(number) => number,
        CapFault::AmbientOutside(number) => number,
    }
}

// The name of the capability of this number, where one has it.
fn capability_name(number: u8) -> Option<&'static str>
    ensures { option_map (λ name. name.now) result ≡ slice_get cap_names number }
{
    let all = Caps::from_bits(ALL)?;
    all.names().nth(number as usize)
}

/// The name of the capability that a fault tells by its number.
pub(crate) fn name_told(fault: CapFault) -> Option<&'static str>
    ensures { option_map (λ name. name.now) result ≡ slice_get cap_names (number_told fault) }
{
    capability_name(number_told(fault))
}
