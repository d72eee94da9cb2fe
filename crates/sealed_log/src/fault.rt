ghost use Rattle.std.specs.Prelude.{◌≡◌};
ghost use Rattle.std.specs.IoError.{error_kind};
ghost use Rattle.sealed_log.specs.Faults.{fault_of_read, fault_of_write};
ghost use Rattle.sealed_log.specs.declared.fault.LogFault.TheVariants.{NoMemory};
ghost use Rattle.no_memory.specs.Witness.{witness};

use no_memory::NoMemory;
use sqlite_disk::is_no_room;
use std::alloc::AllocError;
use std::io;
use thiserror::Error;

/// Why a log can't be read or written.
#[derive(Clone, Copy, Debug, Drop, Error)]
pub enum LogFault {
    /// There was no memory.
    #[error("memory")]
    NoMemory(NoMemory),
    /// The disk failed, or an earlier failure shut the log.
    #[error("disk")]
    Disk,
    /// The disk has no room.
    #[error("full")]
    Full,
}

impl From<AllocError> for LogFault {
    ghost from_gives = { λ _ fault. fault ≡ NoMemory witness };

    fn from(refused: AllocError) -> LogFault {
        LogFault::NoMemory(refused.into())
    }
}

impl LogFault {
    // Why a call failed that reads. None of these is refused for want of room.
    pub(crate) fn of_read(error: &io::Error) -> LogFault
        ensures { result ≡ fault_of_read (error_kind error.now) }
    {
        match error.kind() {
            io::ErrorKind::OutOfMemory => LogFault::NoMemory(NoMemory::told()),
            _ => LogFault::Disk,
        }
    }
}

/// Why a call failed that writes.
impl From<io::Error> for LogFault {
    ghost from_gives = { λ error fault. fault ≡ fault_of_write (error_kind error) };

    fn from(error: io::Error) -> LogFault {
        if is_no_room(&error) {
            LogFault::Full
        } else {
            LogFault::of_read(&error)
        }
    }
}
