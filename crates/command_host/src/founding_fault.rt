//! Why words describe no founding.

use no_memory::NoMemory;
use office_words::WordFault;
use std::fmt;

/// Why words describe no founding, with the word that the program says on standard error.
#[derive(Clone, Copy, Drop)]
pub enum FoundingWordsFault {
    /// NAME or TEAM is no word, or DIGEST isn't 64 lower-case hexadecimal digits.
    BadWord,
    /// A CAP is no name of a capability.
    UnknownCapability,
    /// Memory was refused.
    NoMemory(NoMemory),
}

impl fmt::Display for FoundingWordsFault {
    ghost use Rattle.std.specs.Prelude.{Some};
    ghost use Rattle.command_host.specs.FaultTexts.{founding_words_fault_word};

    ghost output = { λ fault. Some (founding_words_fault_word fault) };

    fn fmt<W: fmt::Write>(&self, f: &mut fmt::Formatter<W>) -> fmt::Result {
        f.write_str(match self {
            FoundingWordsFault::BadWord => "bad-word",
            FoundingWordsFault::UnknownCapability => "unknown-capability",
            FoundingWordsFault::NoMemory(_) => "memory",
        })
    }
}

impl From<WordFault> for FoundingWordsFault {
    ghost use Rattle.command_host.specs.FoundingFaults.{IsFaultOfWord};

    ghost from_gives = { IsFaultOfWord };

    fn from(fault: WordFault) -> FoundingWordsFault {
        match fault {
            WordFault::NotAWord => FoundingWordsFault::BadWord,
            WordFault::NoMemory(witness) => FoundingWordsFault::NoMemory(witness),
        }
    }
}
