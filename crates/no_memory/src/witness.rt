//! The witness that memory was refused.

ghost use Rattle.std.specs.Prelude.{◌≡◌};
ghost use Rattle.no_memory.specs.Witness.{witness};
ghost use Rattle.no_memory.specs.declared.witness.NoMemory.{«NoMemory» as Witness};

use std::alloc::{AllocError, AllocFailed};

/// That an allocation was refused. Its field is private, so it is made of an error that tells of
/// that, and of nothing else.
#[derive(Clone, Copy, Debug, Drop, PartialEq)]
pub struct NoMemory {
    refused: AllocError,
}

impl NoMemory {
    /// The witness of an error of the kit that says by its own word that memory was refused. It stands
    /// only where that word was matched, which `tools/witness` looks at.
    pub fn told() -> NoMemory {
        NoMemory {
            refused: AllocError,
        }
    }

    /// The witness that more was counted than any memory holds: a number of bytes or rows beyond 64
    /// bits. It stands only where such a count ran out, which `tools/witness` looks at.
    pub fn beyond() -> NoMemory {
        NoMemory {
            refused: AllocError,
        }
    }
}

impl From<AllocError> for NoMemory {
    fn from(refused: AllocError) -> NoMemory {
        NoMemory { refused }
    }
}

impl<T: Drop> From<AllocFailed<T>> for NoMemory {
    fn from(failed: AllocFailed<T>) -> NoMemory {
        NoMemory {
            refused: failed.into(),
        }
    }
}

impl From<NoMemory> for AllocError {
    fn from(memory: NoMemory) -> AllocError {
        memory.refused
    }
}

/// A witness says no more than that there is one.
pub fn each_witness_is_one()
    ensures { (one : Witness) → one ≡ witness }
{}
