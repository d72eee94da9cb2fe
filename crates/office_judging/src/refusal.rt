//! Why a request isn't carried out.

ghost use Rattle.std.specs.Prelude.{◌≡◌};

use office_words::{Fault, Text};
use review_policy::Denial;
use std::alloc::AllocError;

/// Why a request isn't carried out.
#[derive(Drop)]
pub enum Refusal {
    /// The first rule that refuses it; for a document that doesn't read, with its fault.
    Denied { denial: Denial, fault: Option<Text> },
    /// A fault of the store, or there is no memory.
    Fault(Fault),
}

impl From<Denial> for Refusal {
    ghost use Rattle.std.specs.Prelude.{◌≡◌, None};
    ghost use Rattle.office_judging.specs.declared.refusal.Refusal.TheVariants.{Denied};

    ghost from_gives = { λ denial refusal. refusal ≡ Denied denial None };

    fn from(denial: Denial) -> Refusal {
        Refusal::Denied {
            denial,
            fault: None,
        }
    }
}

impl From<Fault> for Refusal {
    ghost use Rattle.std.specs.Prelude.{◌≡◌};
    ghost use Rattle.office_judging.specs.declared.refusal.Refusal.TheVariants.{Fault};

    ghost from_gives = { λ fault refusal. refusal ≡ Fault fault };

    fn from(fault: Fault) -> Refusal {
        Refusal::Fault(fault)
    }
}

impl From<AllocError> for Refusal {
    ghost use Rattle.std.specs.Prelude.{◌≡◌};
    ghost use Rattle.office_words.specs.declared.fault.Fault.TheVariants.{NoMemory};
    ghost use Rattle.office_judging.specs.declared.refusal.Refusal.TheVariants.{Fault};
    ghost use Rattle.no_memory.specs.Witness.{witness};

    ghost from_gives = { λ _ refusal. refusal ≡ Fault (NoMemory witness) };

    fn from(refused: AllocError) -> Refusal {
        Refusal::Fault(Fault::NoMemory(refused.into()))
    }
}
