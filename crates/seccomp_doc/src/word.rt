//! What the readers of names share.

ghost use Rattle.std.specs.Prelude.{◌≡◌, ◌&&◌, length, nat_le, nat_lt};

use no_memory::NoMemory;
use std::alloc::AllocError;
use thiserror::Error;

/// Why a text is read as no name.
#[derive(Debug, Drop, Error)]
pub enum NameFault {
    /// The text isn't of the form.
    #[error("not a word")]
    NotAWord,
    /// Memory was refused; the text is of the form.
    #[error("out of memory")]
    NoMemory(NoMemory),
}

impl From<AllocError> for NameFault {
    ghost use Rattle.std.specs.Prelude.{◌≡◌};
    ghost use Rattle.seccomp_doc.specs.declared.word.NameFault.TheVariants.{NoMemory};
    ghost use Rattle.no_memory.specs.Witness.{witness};

    ghost from_gives = { λ _ e. e ≡ NoMemory witness };

    fn from(refused: AllocError) -> NameFault {
        NameFault::NoMemory(refused.into())
    }
}

// Whether the length is 1 to a number.
pub(crate) fn is_of_length(bytes: &[u8], most: usize) -> bool
    ensures { result ≡ (nat_lt 0 (length bytes.now) && nat_le (length bytes.now) most) }
{
    !bytes.is_empty() && bytes.len() <= most
}
