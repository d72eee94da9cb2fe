//! Why not the whole history of a journal was written.

use crate::refused::Refused;
use no_memory::NoMemory;
use office_words::Fault;
use std::alloc::AllocError;
use std::fmt;

/// Why not the whole history of a journal was written. Its text is a word, behind the line where
/// one is at fault.
#[derive(Clone, Copy, Drop)]
pub enum Unwritten {
    /// The journal can't be read on, or an event doesn't happen again.
    Refused(Refused),
    /// The office of the events before the one of this line had this fault when it was looked at.
    Unseen { line: u64, fault: Fault },
    /// The writer failed.
    Write,
    /// There was no memory for a line. No contract can say when.
    NoMemory(NoMemory),
}

impl From<Refused> for Unwritten {
    ghost use Rattle.std.specs.Prelude.{◌≡◌};
    ghost use Rattle.journal_faults.specs.declared.unwritten.Unwritten.TheVariants as unwritten;

    ghost from_gives = { λ refused e. e ≡ unwritten.Refused refused };

    fn from(refused: Refused) -> Unwritten {
        Unwritten::Refused(refused)
    }
}

impl From<AllocError> for Unwritten {
    ghost use Rattle.std.specs.Prelude.{◌≡◌};
    ghost use Rattle.journal_faults.specs.declared.unwritten.Unwritten.TheVariants.{NoMemory};
    ghost use Rattle.no_memory.specs.Witness.{witness};

    ghost from_gives = { λ _ e. e ≡ NoMemory witness };

    fn from(refused: AllocError) -> Unwritten {
        Unwritten::NoMemory(refused.into())
    }
}

impl fmt::Display for Unwritten {
    ghost use Rattle.std.specs.Prelude.{Some};
    ghost use Rattle.journal_faults.specs.FaultTexts.{unwritten_text};

    ghost output = { λ why. Some (unwritten_text why) };

    fn fmt<W: fmt::Write>(&self, f: &mut fmt::Formatter<W>) -> fmt::Result {
        match self {
            Unwritten::Refused(refused) => write!(f, "{refused}"),
            Unwritten::Unseen { line, fault } => {
                let word = fault.word();
                write!(f, "line {line}: {word}")
            }
            Unwritten::Write => f.write_str("write"),
            Unwritten::NoMemory(_) => f.write_str("memory"),
        }
    }
}
