//! Where the two files of a database lie.

ghost use Rattle.std.specs.Prelude.{◌≡◌, IfErr, IfOk};
ghost use Rattle.reading_commands.specs.Places.{IsNoPlace, IsPlace};

use command_host::{CommandFault, PassFiles};
use no_memory::NoMemory;
use office_words::Fault;
use std::alloc::Global;
use std::io::ErrorKind;
use std::path::PathBuf;

/// Where the two files of a database lie: that of it, by its name without a link, and its log beside
/// that.
#[derive(Drop)]
pub(crate) struct Place {
    pub database: PathBuf,
    pub log: String,
}

/// Where the files of the database at a path lie.
///
/// # Errors
///
/// `Store`: `NotAnOffice` where nothing is there, `Disk` where that can't be seen, or one who serves
/// an office refuses what is there, and `NoMemory`.
pub(crate) fn place_at<F: PassFiles>(
    files: &F,
    alloc: Global,
    path: &str,
) -> Result<Place, CommandFault>
    ensures place { IfOk result (IsPlace (F.places files.now path.now)) }
    ensures none { IfErr result (IsNoPlace (F.places files.now path.now)) }
{
    let database = match files.place_of(alloc, path) {
        Ok(database) => database,
        Err(error) => {
            return Err(CommandFault::Store(match error.kind() {
                ErrorKind::NotFound => Fault::NotAnOffice,
                ErrorKind::OutOfMemory => Fault::NoMemory(NoMemory::told()),
                _ => Fault::Disk,
            }));
        }
    };
    match format!(in alloc; "{}-wal", database.as_str()) {
        Ok(log) => Ok(Place { database, log }),
        Err(refused) => Err(CommandFault::Store(Fault::NoMemory(refused.into()))),
    }
}
