//! Why the file of a journal can't be had.

ghost use Rattle.std.specs.Prelude.{◌≡◌};
ghost use Rattle.command_host.specs.NoFiles.{file_fault};

use crate::fault::CommandFault;
use no_memory::NoMemory;

/// Why the file of a journal can't be had.
#[derive(Clone, Copy, Drop)]
pub enum NoFile {
    /// Something is where it is to be made.
    There,
    /// Another command has it open.
    Busy,
    /// There was no memory.
    NoMemory(NoMemory),
    /// It can't be made or opened.
    Failed,
}

/// The fault of a command that has no file for a journal.
pub fn fault_of(why: NoFile) -> CommandFault
    ensures { result ≡ file_fault why }
{
    match why {
        NoFile::There => CommandFault::JournalThere,
        NoFile::Busy => CommandFault::Busy,
        NoFile::NoMemory(witness) => CommandFault::NoMemory(witness),
        NoFile::Failed => CommandFault::Journal,
    }
}
