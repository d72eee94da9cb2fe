//! Why no request was heard.

use crate::refusal::Refusal;
use json_requests::LineFault;
use std::alloc::AllocError;
use streams::Unread;

/// Why no request was heard.
#[derive(Clone, Copy)]
pub enum Unheard {
    /// What came is none.
    Refused(Refusal),
    /// The stream ended inside a head or a body.
    Ended,
    /// Not all of it was read. Out of memory may stand in place of any answer, and no contract can
    /// say when.
    Unread(Unread),
}

impl From<AllocError> for Unheard {
    ghost use Rattle.std.specs.Prelude.{◌≡◌};
    ghost use Rattle.streams.specs.declared.unread.Unread.TheVariants.{NoMemory};
    ghost use Rattle.http_requests.specs.declared.unheard.Unheard.TheVariants.{Unread};
    ghost use Rattle.no_memory.specs.Witness.{witness};

    ghost from_gives = { λ _ e. e ≡ Unread (NoMemory witness) };

    fn from(refused: AllocError) -> Unheard {
        Unheard::Unread(Unread::NoMemory(refused.into()))
    }
}

impl From<Refusal> for Unheard {
    ghost use Rattle.std.specs.Prelude.{◌≡◌};
    ghost use Rattle.http_requests.specs.declared.unheard.Unheard.TheVariants.{Refused};

    ghost from_gives = { λ refusal e. e ≡ Refused refusal };

    fn from(refusal: Refusal) -> Unheard {
        Unheard::Refused(refusal)
    }
}

impl From<LineFault> for Unheard {
    ghost use Rattle.std.specs.Prelude.{◌≡◌};
    ghost use Rattle.http_requests.specs.Heard.{of_line_fault};

    ghost from_gives = { λ fault e. e ≡ of_line_fault fault };

    fn from(fault: LineFault) -> Unheard {
        match fault {
            LineFault::NotJson | LineFault::NotARequest => Unheard::Refused(Refusal::NotARequest),
            LineFault::NoMemory(witness) => Unheard::Unread(Unread::NoMemory(witness)),
        }
    }
}
