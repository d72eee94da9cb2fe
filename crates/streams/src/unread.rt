//! Why bytes weren't read.

use no_memory::NoMemory;
use std::alloc::AllocError;
use thiserror::Error;

/// Why bytes weren't read.
#[derive(Clone, Copy, Debug, Drop, PartialEq, Error)]
pub enum Unread {
    /// The reader failed.
    #[error("read")]
    Failed,
    /// The reader was called as often as is allowed, without an end or a fault.
    #[error("too-many-reads")]
    TooManyReads,
    /// Memory was refused.
    #[error("memory")]
    NoMemory(NoMemory),
}

impl From<AllocError> for Unread {
    ghost use Rattle.std.specs.Prelude.{◌≡◌};
    ghost use Rattle.streams.specs.declared.unread.Unread.TheVariants.{NoMemory};
    ghost use Rattle.no_memory.specs.Witness.{witness};

    ghost from_gives = { λ _ unread. unread ≡ NoMemory witness };

    fn from(refused: AllocError) -> Unread {
        Unread::NoMemory(refused.into())
    }
}
