//! Why the lines of a log can't be read on.

ghost use Rattle.std.specs.Prelude.{◌≡◌};

use no_memory::NoMemory;
use std::alloc::AllocError;
use std::error::Error;
use std::fmt;

/// Why the lines of a log that is read as a stream can't be read on. Its text is one word. Who only
/// reads sealed bodies never tells `NoEventBefore`, and `NotALine` just of a line that is too long.
#[derive(Clone, Copy, Debug, Drop, PartialEq)]
pub enum Unreadable {
    /// The line is too long, its body is that of none, or it says of another line than the one
    /// before that it is carried out.
    NotALine,
    /// The line strikes out the one before it, or says that it is carried out, and that one says
    /// nothing that happened.
    NoEventBefore,
    /// The line isn't sealed behind those before it.
    Unsealed,
    /// The stream ends within the line: it has no line feed.
    TornLine,
    /// The input failed, or gave 2^64 - 1 lines. No contract can say when.
    Read,
    /// There was no memory to read the line.
    NoMemory(NoMemory),
}

impl fmt::Display for Unreadable {
    ghost use Rattle.std.specs.Prelude.{Some};
    ghost use Rattle.sealed_log.specs.FaultTexts.{unreadable_word};

    ghost output = { λ fault. Some (unreadable_word fault) };

    fn fmt<W: fmt::Write>(&self, f: &mut fmt::Formatter<W>) -> fmt::Result {
        f.write_str(match self {
            Unreadable::NotALine => "not-a-line",
            Unreadable::NoEventBefore => "no-event-before",
            Unreadable::Unsealed => "unsealed",
            Unreadable::TornLine => "torn-line",
            Unreadable::Read => "read",
            Unreadable::NoMemory(_) => "memory",
        })
    }
}

impl Error for Unreadable {}

impl From<AllocError> for Unreadable {
    ghost use Rattle.sealed_log.specs.declared.unreadable.Unreadable.TheVariants.{NoMemory};
    ghost use Rattle.no_memory.specs.Witness.{witness};

    ghost from_gives = { λ _ e. e ≡ NoMemory witness };

    fn from(refused: AllocError) -> Unreadable {
        Unreadable::NoMemory(refused.into())
    }
}
