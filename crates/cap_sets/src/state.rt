//! The lawful states of a process.

ghost use Rattle.std.specs.Prelude.{◌≡◌, IfOk};
ghost use Rattle.std.specs.Result.{result_err};
ghost use Rattle.cap_sets.specs.Lawful.{IsLawfulState, first_fault};

use crate::caps::Caps;
use std::error::Error;
use std::fmt;

/// The five capability sets of a process, in a lawful state: effective is within permitted, and
/// ambient is within both permitted and inheritable.
#[derive(Clone, Copy)]
pub struct CapState {
    /// What the kernel checks the process against.
    pub effective: Caps,
    /// What the process may make effective.
    pub permitted: Caps,
    /// What stays inheritable through execve, and is permitted after it where the file's
    /// inheritable set has it too.
    pub inheritable: Caps,
    /// What the process may gain from a file's permitted set.
    pub bounding: Caps,
    /// What stays permitted and effective through the execve of a plain file.
    pub ambient: Caps,
    pub ghost lawful: { IsLawfulState effective permitted inheritable ambient },
}

/// Why five sets are no lawful state.
#[derive(Clone, Copy, Debug)]
pub enum CapFault {
    /// The number of the lowest effective capability that isn't permitted.
    EffectiveOutside(u8),
    /// The number of the lowest ambient capability that isn't both permitted and inheritable.
    AmbientOutside(u8),
}

/// The fault's word and number, as `ambient-outside 10`.
impl fmt::Display for CapFault {
    ghost use Rattle.std.specs.Prelude.{Some};
    ghost use Rattle.cap_sets.specs.Lawful.{fault_text};

    ghost output = { λ fault. Some (fault_text fault) };

    fn fmt<W: fmt::Write>(&self, f: &mut fmt::Formatter<W>) -> fmt::Result {
        match self {
            CapFault::EffectiveOutside(number) => write!(f, "effective-outside {number}"),
            CapFault::AmbientOutside(number) => write!(f, "ambient-outside {number}"),
        }
    }
}

impl Error for CapFault {}

impl CapState {
    /// The state of these five sets, where it is lawful.
    ///
    /// # Errors
    ///
    /// The first fault of the five sets, in the order of `CapFault`.
    #[tactic(auto, unfolding(crate::specs::Lawful::first_fault))]
    pub fn new(
        effective: Caps,
        permitted: Caps,
        inheritable: Caps,
        bounding: Caps,
        ambient: Caps,
    ) -> Result<CapState, CapFault>
        ensures lawful { IfOk result (λ _. IsLawfulState effective permitted inheritable ambient) }
        ensures sets { IfOk result (λ state. (state.effective ≡ effective)
            × (state.permitted ≡ permitted)
            × (state.inheritable ≡ inheritable) × (state.bounding ≡ bounding)
            × (state.ambient ≡ ambient)) }
        ensures fault { result_err result ≡ first_fault effective permitted inheritable ambient }
    {
        if let Some(number) = effective.lowest_outside(permitted) {
            return Err(CapFault::EffectiveOutside(number));
        }
        if let Some(number) = ambient.lowest_outside(permitted.intersection(inheritable)) {
            return Err(CapFault::AmbientOutside(number));
        }
        Ok(CapState {
            effective,
            permitted,
            inheritable,
            bounding,
            ambient,
        })
    }
}
