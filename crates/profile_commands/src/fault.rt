//! Why a command on a document in a file gave nothing.

ghost use Rattle.std.specs.Prelude.{◌≡◌};
ghost use Rattle.profile_commands.specs.FaultTexts.{unread_word};

use crate::json_place::JsonPlace;
use crate::name_told::name_told;
use profile_text::DocFault;
use std::alloc::AllocError;
use std::fmt;
use streams::Unread;

/// Why a command on a document in a file gave nothing, with the words that the program says on
/// standard error.
#[derive(Drop)]
pub enum FileFault {
    /// The file wasn't read: why. `NoMemory` is also answered where memory was refused later.
    Unread(Unread),
    /// The bytes of the file are no JSON text: where they stop being one.
    NotJson(JsonPlace),
    /// The bytes of the file are no document: the first fault that they have, which is never out of
    /// memory.
    Document(DocFault),
}

// The word of why a file wasn't read.
fn unread_word(unread: Unread) -> &'static str
    ensures { result.now ≡ unread_word unread }
{
    match unread {
        Unread::Failed => "read",
        Unread::TooManyReads => "too-many-reads",
        Unread::NoMemory(_) => "memory",
    }
}

/// The fault's word and what goes with it. A capability that it tells by number is named behind that,
/// as `ambient-outside 10 CAP_NET_BIND_SERVICE`.
impl fmt::Display for FileFault {
    ghost use Rattle.std.specs.Prelude.{Some};
    ghost use Rattle.profile_commands.specs.FaultTexts.{file_fault_text};

    ghost output = { λ fault. Some (file_fault_text fault) };

    fn fmt<W: fmt::Write>(&self, f: &mut fmt::Formatter<W>) -> fmt::Result {
        match self {
            FileFault::Unread(why) => f.write_str(unread_word(*why)),
            FileFault::NotJson(place) => {
                write!(f, "not-json line {} column {}", place.line, place.column)
            }
            FileFault::Document(DocFault::Caps(fault)) => match name_told(*fault) {
                Some(name) => write!(f, "{fault} {name}"),
                None => write!(f, "{fault}"),
            },
            FileFault::Document(fault) => write!(f, "{fault}"),
        }
    }
}

impl From<Unread> for FileFault {
    ghost use Rattle.std.specs.Prelude.{◌≡◌};
    ghost use Rattle.profile_commands.specs.declared.fault.FileFault.TheVariants.{Unread};

    ghost from_gives = { λ unread fault. fault ≡ Unread unread };

    fn from(unread: Unread) -> FileFault {
        FileFault::Unread(unread)
    }
}

impl From<AllocError> for FileFault {
    ghost use Rattle.std.specs.Prelude.{◌≡◌};
    ghost use Rattle.profile_commands.specs.Refusal.{no_memory};

    ghost from_gives = { λ _ fault. fault ≡ no_memory };

    fn from(refused: AllocError) -> FileFault {
        FileFault::Unread(Unread::NoMemory(refused.into()))
    }
}

impl From<DocFault> for FileFault {
    ghost use Rattle.profile_commands.specs.Refusal.{IsRefusalOf};

    ghost from_gives = { IsRefusalOf };

    fn from(fault: DocFault) -> FileFault {
        match fault {
            DocFault::NoMemory(witness) => FileFault::Unread(Unread::NoMemory(witness)),
            fault => FileFault::Document(fault),
        }
    }
}
