//! Why no request was read of a line.

use no_memory::NoMemory;
use std::alloc::AllocError;
use thiserror::Error;

/// Why no request was read of a line.
#[derive(Clone, Copy, Debug, Drop, Error)]
pub enum LineFault {
    /// The line isn't JSON.
    #[error("not-json")]
    NotJson,
    /// It is JSON, and not of the form of a request.
    #[error("not-a-request")]
    NotARequest,
    /// There was no memory to read it.
    #[error("memory")]
    NoMemory(NoMemory),
}

impl From<AllocError> for LineFault {
    ghost use Rattle.std.specs.Prelude.{◌≡◌};
    ghost use Rattle.json_requests.specs.declared.fault.LineFault.TheVariants.{NoMemory};
    ghost use Rattle.no_memory.specs.Witness.{witness};

    ghost from_gives = { λ _ e. e ≡ NoMemory witness };

    fn from(refused: AllocError) -> LineFault {
        LineFault::NoMemory(refused.into())
    }
}
