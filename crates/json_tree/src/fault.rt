//! Why bytes are no JSON value.

use json::Invalid;
use no_memory::NoMemory;
use std::alloc::{AllocError, AllocFailed};

/// Why bytes were not read.
#[derive(Clone, Copy, Drop)]
pub enum ReadFault {
    /// They are no JSON value.
    NotJson,
    /// Memory was refused.
    NoMemory(NoMemory),
}

impl From<Invalid> for ReadFault {
    ghost use Rattle.std.specs.Prelude.{◌≡◌};
    ghost use Rattle.json_tree.specs.declared.fault.ReadFault.TheVariants.{NotJson};

    ghost from_gives = { λ _ fault. fault ≡ NotJson };

    fn from(_invalid: Invalid) -> ReadFault {
        ReadFault::NotJson
    }
}

impl From<AllocError> for ReadFault {
    ghost use Rattle.std.specs.Prelude.{◌≡◌};
    ghost use Rattle.json_tree.specs.declared.fault.ReadFault.TheVariants.{NoMemory};
    ghost use Rattle.no_memory.specs.Witness.{witness};

    ghost from_gives = { λ _ fault. fault ≡ NoMemory witness };

    fn from(refused: AllocError) -> ReadFault {
        ReadFault::NoMemory(refused.into())
    }
}

impl<T: Drop> From<AllocFailed<T>> for ReadFault {
    ghost use Rattle.std.specs.Prelude.{◌≡◌};
    ghost use Rattle.json_tree.specs.declared.fault.ReadFault.TheVariants.{NoMemory};
    ghost use Rattle.no_memory.specs.Witness.{witness};

    ghost from_gives = { λ _ fault. fault ≡ NoMemory witness };

    fn from(refused: AllocFailed<T>) -> ReadFault {
        ReadFault::NoMemory(refused.into())
    }
}
