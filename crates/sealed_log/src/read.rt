//! Reading a log to its end.

ghost use Rattle.std.specs.Prelude.{IsTrue, IfErr, IfOk, []};
ghost use Rattle.sealed_log.specs.Disks.{IsRead};
ghost use Rattle.sealed_log.specs.Faults.{IsMetBetween};
ghost use Rattle.sealed_log.specs.Reading.{IsThrough};
ghost use Rattle.sealed_log.specs.Told.{told};

use crate::fault::LogFault;
use crate::keeps::Keeps;
use crate::reader::Reader;
use crate::through::Through;
use sqlite_disk::Disk;
use std::alloc::Global;

/// Reads a file to the end of what is sealed, and has the keeper see each body.
///
/// # Errors
///
/// The fault of the call of the disk that failed, or `NoMemory`.
pub fn read_through<K: Keeps, D: Disk>(
    alloc: Global,
    disk: &mut D,
    keeper: &mut K,
) -> Result<Through, LogFault>
    requires usable { IsTrue (D.is_usable disk.old) }
    requires begun { K.is_of [] keeper.old }
    ensures read { IsRead D.Disk disk.old disk.new }
    ensures word { IsTrue (D.is_clean disk.new)
        → IfErr result (IsMetBetween D.Disk disk.old disk.new) }
    ensures through { IfOk result (λ through. IsTrue (D.is_clean disk.new)
        → IsThrough (D.seen disk.old) through) }
    ensures keeps { IfOk result (λ _. IsTrue (D.is_clean disk.new)
        → K.is_of (told (D.seen disk.old)) keeper.new) }
{
    let len = match disk.len() {
        Ok(len) => len,
        Err(error) => return Err(LogFault::of_read(&error)),
    };
    let mut reader = Reader::new(len);
    let mut lines = 0;
    'lines: while let Some(body) = reader.next(alloc, disk)? {
        keeper.see(alloc, lines, &body);
        lines += 1;
    }
    Ok(reader.through(lines))
}
