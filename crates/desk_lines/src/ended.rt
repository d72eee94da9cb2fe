//! How a desk ended.

ghost use Rattle.std.specs.Prelude.{◌≡◌, Err, None, Ok};
ghost use Rattle.no_memory.specs.Witness.{witness};

use crate::fault::DeskFault;
use no_memory::NoMemory;
use std::alloc::AllocError;

/// How a desk ended.
#[derive(Clone, Copy)]
pub struct Ended {
    /// Each line was answered, or why not.
    pub answered: Result<(), DeskFault>,
    /// The witness, where the answer to a line says that there was no memory.
    pub witness: Option<NoMemory>,
}

impl Ended {
    // Each line was answered.
    pub(crate) fn well(want: Option<NoMemory>) -> Ended
        ensures { result ≡ record { answered = Ok tt; witness = want } }
    {
        Ended {
            answered: Ok(()),
            witness: want,
        }
    }

    // Not each line was.
    pub(crate) fn stopped(fault: DeskFault, want: Option<NoMemory>) -> Ended
        ensures { result ≡ record { answered = Err fault; witness = want } }
    {
        Ended {
            answered: Err(fault),
            witness: want,
        }
    }

    // There was no memory to begin.
    pub(crate) fn unbegun(refused: AllocError) -> Ended
        ensures { result
            ≡ record { answered = Err (DeskFault.Unbegun witness); witness = None } }
    {
        Ended {
            answered: Err(DeskFault::Unbegun(refused.into())),
            witness: None,
        }
    }
}
