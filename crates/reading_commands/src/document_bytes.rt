//! The bytes of the file that a word names for a document.

ghost use Rattle.std.specs.Prelude.{IfErr, IfOk};
ghost use Rattle.reading_commands.specs.Documents.{file_of, AreBytesOf};
ghost use Rattle.reading_commands.specs.DocumentFailures.{AreNoBytes};

use crate::named::file_of;
use crate::reading::read_on;
use command_host::{CommandFault, PassFiles};
use profile_commands::{FileFault, MOST_BYTES};
use std::alloc::Global;
use streams::Unread;

/// Why a file gave no bytes.
#[derive(Clone, Copy, Drop)]
pub(crate) enum NoBytes {
    /// It can't be opened.
    Unopened,
    /// It wasn't read.
    Unread(Unread),
}

impl From<NoBytes> for FileFault {
    ghost use Rattle.std.specs.Prelude.{◌≡◌};
    ghost use Rattle.reading_commands.specs.DocumentFailures.{file_fault_of};

    ghost from_gives = { λ none fault. fault ≡ file_fault_of none };

    fn from(none: NoBytes) -> FileFault {
        match none {
            NoBytes::Unopened => FileFault::Unread(Unread::Failed),
            NoBytes::Unread(why) => FileFault::Unread(why),
        }
    }
}

impl From<NoBytes> for CommandFault {
    ghost use Rattle.std.specs.Prelude.{◌≡◌};
    ghost use Rattle.reading_commands.specs.DocumentFailures.{fault_of};

    ghost from_gives = { λ none fault. fault ≡ fault_of none };

    fn from(none: NoBytes) -> CommandFault {
        match none {
            NoBytes::Unopened => CommandFault::Open,
            NoBytes::Unread(why) => CommandFault::File(FileFault::Unread(why)),
        }
    }
}

/// The bytes of the file that a word names; of one that is longer than a document may be, the first.
pub(crate) fn document_bytes<F: PassFiles>(
    files: &F,
    alloc: Global,
    word: &str,
) -> Result<Vec<u8>, NoBytes>
    ensures bytes { IfOk result (λ bytes.
        AreBytesOf (F.opens files.now (file_of word.now)) F.File.remaining bytes.items) }
    ensures none { IfErr result (AreNoBytes (F.opens files.now (file_of word.now)) F.gives) }
{
    let mut file = match files.open_at(file_of(word)) {
        Ok(file) => file,
        Err(_) => return Err(NoBytes::Unopened),
    };
    let mut bytes = Vec::new(alloc);
    match read_on(files, &mut file, &mut bytes, MOST_BYTES) {
        Ok(()) => Ok(bytes),
        Err(why) => Err(NoBytes::Unread(why)),
    }
}
