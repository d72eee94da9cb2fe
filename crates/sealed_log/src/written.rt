//! Putting a line behind the bytes of a file.

ghost use Rattle.std.specs.Prelude.{◌≡◌, ◌⊎◌, ◌≤◌, ◌<◌, ℕ, List, length, true, false, IsTrue};
ghost use Rattle.std.specs.Prelude.{IfErr, OnErr, OnOk};
ghost use Rattle.sqlite_disk.specs.Disk.{MoreFaults, Only};
ghost use Rattle.sqlite_disk.specs.Refusal.{is_no_room};
ghost use Rattle.sealed_log.specs.Told.{HasTail};
ghost use Rattle.sealed_log.specs.Disks.{HasJust, IsCaused, IsLostBy, IsTried, LeavesTail};
ghost use Rattle.sealed_log.specs.Disks.{NamesCall, StaysKept};
ghost use Rattle.sealed_log.specs.Faults.{HasFailed, IsLater};
ghost use Rattle.sealed_log.specs.Whole.{IsEnd};

use crate::fault::LogFault;
use sqlite_disk::Disk;
use std::io;

// What became of a line.
#[derive(Drop)]
pub(crate) enum Written {
    // It is there, and a crash leaves it.
    Whole,
    // Nothing of it is there, and a crash leaves what there was.
    Undone(LogFault),
    // It isn't known what a crash leaves.
    Lost(LogFault),
}

// Takes away all that stands behind so many bytes.
pub(crate) fn cut<D: Disk>(disk: &mut D, end: usize) -> io::Result<()>
    requires { IsTrue (D.is_usable disk.old) }
    ensures cut { OnOk result ((bytes : List ℕ) (most : ℕ) → end ≡ length bytes
        → HasTail bytes most (D.seen disk.old) → HasJust D.Disk disk.new bytes) }
    ensures settled { OnOk result (Only (D.seen disk.new) (D.may_leave disk.new)) }
    ensures crash { (bytes : List ℕ) (most : ℕ) → end ≡ length bytes
        → LeavesTail D.Disk disk.old bytes most → LeavesTail D.Disk disk.new bytes most }
    ensures clean { IsTrue (D.is_clean disk.new) → IsTrue (D.is_clean disk.old) }
    ensures usable { OnOk result (IsTrue (D.is_usable disk.new)) }
    ensures failed { OnErr result ((D.is_usable disk.new ≡ false)
        ⊎ MoreFaults (D.faults disk.old) (D.faults disk.new)) }
    ensures counts { IsLater D.Disk disk.old disk.new }
    ensures call { IfErr result (λ error. HasFailed D.Disk disk.old disk.new (is_no_room error)) }
{
    disk.set_len(end)?;
    disk.sync()
}

// Writes a line behind the bytes of a file, which are so many.
fn write_line<D: Disk>(disk: &mut D, end: usize, line: &[u8]) -> Written
    requires usable { IsTrue (D.is_usable disk.old) }
    requires some { 0 < length line.now }
    ensures added { (bytes : List ℕ) → end ≡ length bytes → HasJust D.Disk disk.old bytes
        → IsTried D.Disk disk.old disk.new bytes line.now result }
    ensures clean { IsTrue (D.is_clean disk.new) → IsTrue (D.is_clean disk.old) }
    ensures counts { IsLater D.Disk disk.old disk.new }
    ensures caused { IsCaused D.Disk disk.old disk.new result }
    ensures word { NamesCall D.Disk disk.old disk.new result }
    ensures lost { IsLostBy D.Disk disk.old disk.new result }
    ensures kept { StaysKept D.Disk disk.new result }
{
    match disk.write_at(end, line) {
        Ok(()) => match disk.sync() {
            Ok(()) => Written::Whole,
            Err(error) => Written::Lost(error.into()),
        },
        Err(error) => match cut(disk, end) {
            Ok(()) => Written::Undone(error.into()),
            Err(_) => Written::Lost(error.into()),
        },
    }
}

// Whether a file of so many bytes has as many as it had, by a count that may be the greatest.
fn is_as_long(len: usize, end: usize) -> bool
    ensures { (file : List ℕ) → IsEnd file end → len ≡ length file → result ≡ true }
{
    len == end
}

// Writes a line behind the bytes of a file, which has as many as it had when it was written last.
pub(crate) fn add_line<D: Disk>(disk: &mut D, end: usize, line: &[u8]) -> Written
    requires usable { IsTrue (D.is_usable disk.old) }
    requires some { 0 < length line.now }
    ensures added { IsTrue (D.is_clean disk.new) → (bytes : List ℕ) → IsEnd bytes end
        → HasJust D.Disk disk.old bytes
        → IsTried D.Disk disk.old disk.new bytes line.now result }
    ensures clean { IsTrue (D.is_clean disk.new) → IsTrue (D.is_clean disk.old) }
    ensures counts { IsLater D.Disk disk.old disk.new }
    ensures caused { IsTrue (D.is_clean disk.new) → IsEnd (D.seen disk.old) end
        → IsCaused D.Disk disk.old disk.new result }
    ensures word { IsTrue (D.is_clean disk.new) → IsEnd (D.seen disk.old) end
        → NamesCall D.Disk disk.old disk.new result }
    ensures lost { IsTrue (D.is_clean disk.new) → IsEnd (D.seen disk.old) end
        → IsLostBy D.Disk disk.old disk.new result }
    ensures kept { Only (D.seen disk.old) (D.may_leave disk.old)
        → StaysKept D.Disk disk.new result }
{
    match disk.len() {
        Ok(len) => {
            if is_as_long(len, end) {
                write_line(disk, len, line)
            } else {
                Written::Lost(LogFault::Disk)
            }
        }
        Err(error) => Written::Undone(LogFault::of_read(&error)),
    }
}
