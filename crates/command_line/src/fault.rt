//! Why words ask for no command.

use clap::error::ErrorKind;
use no_memory::NoMemory;
use std::alloc::{AllocError, Global};
use thiserror::Error;

/// Why words ask for no command.
#[derive(Debug, Drop, Error)]
pub enum WordsFault {
    /// They ask for help: its text, for standard output.
    #[error("{0}")]
    Help(String),
    /// They ask for the version: its text, for standard output.
    #[error("{0}")]
    Version(String),
    /// They are refused: what `clap` says of them, for standard error.
    #[error("{0}")]
    Refused(String),
    /// Memory was refused.
    #[error("memory")]
    NoMemory(NoMemory),
}

impl WordsFault {
    ghost use Rattle.clap.specs.Words.{kind_of};
    ghost use Rattle.command_line.specs.Refusals.{IsTold};

    /// What `clap` answers in place of matches.
    pub(crate) fn of_error(alloc: Global, error: &clap::Error) -> WordsFault
        ensures { IsTold (kind_of error.now) result }
    {
        let text = match format!(in alloc; "{error}") {
            Ok(text) => text,
            Err(refused) => return WordsFault::NoMemory(refused.into()),
        };
        match error.kind() {
            ErrorKind::OutOfMemory => WordsFault::NoMemory(NoMemory::told()),
            ErrorKind::DisplayHelp => WordsFault::Help(text),
            ErrorKind::DisplayVersion => WordsFault::Version(text),
            _ => WordsFault::Refused(text),
        }
    }
}

impl From<AllocError> for WordsFault {
    ghost use Rattle.std.specs.Prelude.{◌≡◌};
    ghost use Rattle.command_line.specs.declared.fault.WordsFault.TheVariants.{NoMemory};
    ghost use Rattle.no_memory.specs.Witness.{witness};

    ghost from_gives = { λ _ fault. fault ≡ NoMemory witness };

    fn from(refused: AllocError) -> WordsFault {
        WordsFault::NoMemory(refused.into())
    }
}
