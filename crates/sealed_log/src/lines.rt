//! Reading a line of a file, piece by piece.

ghost use Rattle.std.specs.Prelude.{◌≡◌, ◌<◌, ◌≤◌, ◌↔◌, ◌+◌, ◌^◌, length, take, slice_index};
ghost use Rattle.std.specs.Prelude.{IsTrue, IfErr, IfOk, IfSome, MatchOption};
ghost use Rattle.streams.specs.Lines.{NoFeed};
ghost use Rattle.sealed_log.specs.Disks.{IsRead};
ghost use Rattle.sealed_log.specs.Faults.{IsMetBetween};
ghost use Rattle.sealed_log.specs.Lines.{IsFound, IsLonger, IsMore, IsPart};
ghost use Rattle.sealed_log.specs.Sealed.{IsBody, longest};

use crate::fault::LogFault;
use sqlite_disk::Disk;
use std::alloc::Global;
use std::cmp;

/// How many bytes a line has at most, with its line feed.
pub const LONGEST: usize = 2_097_152;

// How many a line has beside its body, with its line feed.
const AROUND: usize = 84;

// How many bytes are read at once.
const PIECE: usize = 512;

const FEED: u8 = b'\n';

// Where the first line feed stands.
pub(crate) fn find_feed(bytes: &[u8]) -> Option<usize>
    ensures { MatchOption result (NoFeed bytes.now) (λ n. (n < length bytes.now)
        × NoFeed (take n bytes.now) × (slice_index bytes.now n ≡ 10)) }
{
    for (i, byte) in bytes.iter().enumerate() {
        if *byte == FEED {
            return Some(i);
        }
    }
    None
}

/// Whether it can be the body of a line: no line feed stands in it, and it isn't too long.
pub fn is_body(bytes: &[u8]) -> bool
    ensures { IsTrue result ↔ IsBody bytes.now }
{
    bytes.len() <= LONGEST - AROUND && find_feed(bytes).is_none()
}

// Reads the piece of a file behind a part of a line, and adds what belongs to the line. Says
// whether that is whole.
fn read_piece<D: Disk>(
    disk: &mut D,
    at: usize,
    piece: &mut [u8],
    line: &mut Vec<u8>,
) -> Result<bool, LogFault>
    requires usable { IsTrue (D.is_usable disk.old) }
    requires some { 0 < length piece.old }
    requires fits { at + length line.old.items + length piece.old < 2 ^ 64 }
    ensures read { IsRead D.Disk disk.old disk.new }
    ensures word { IsTrue (D.is_clean disk.new)
        → at + length line.old.items + length piece.old ≤ length (D.seen disk.old)
        → IfErr result (IsMetBetween D.Disk disk.old disk.new) }
    ensures longer { IfOk result (IsLonger
        (length line.old.items) (length piece.old) (length line.new.items)) }
    ensures more { IfOk result (λ whole. IsTrue (D.is_clean disk.new)
        → IsPart (D.seen disk.old) at line.old.items
        → IsMore (D.seen disk.old) at line.new.items whole) }
{
    match disk.read_at(at + line.len(), piece) {
        Ok(()) => {}
        Err(error) => return Err(LogFault::of_read(&error)),
    }
    match find_feed(piece) {
        Some(n) => {
            line.extend_from_slice(&piece[..n])?;
            Ok(true)
        }
        None => {
            line.extend_from_slice(piece)?;
            Ok(false)
        }
    }
}

// Reads the line that begins at `at`, if its line feed stands below `len`, and soon enough for a
// line.
pub(crate) fn read_line<D: Disk>(
    alloc: Global,
    disk: &mut D,
    len: usize,
    at: usize,
) -> Result<Option<Vec<u8>>, LogFault>
    requires usable { IsTrue (D.is_usable disk.old) }
    requires within { at ≤ len }
    ensures read { IsRead D.Disk disk.old disk.new }
    ensures word { IsTrue (D.is_clean disk.new) → len ≡ length (D.seen disk.old)
        → IfErr result (IsMetBetween D.Disk disk.old disk.new) }
    ensures short { IfOk result (λ found. IfSome found (λ line. at + length line.items < len)) }
    ensures line { IfOk result (λ found. IsTrue (D.is_clean disk.new)
        → len ≡ length (D.seen disk.old) → IsFound (D.seen disk.old) at found) }
{
    let most = cmp::min(len - at, LONGEST);
    let mut line = Vec::new(alloc);
    let mut piece = [0; PIECE];
    'pieces: while line.len() < most {
        let wanted = cmp::min(PIECE, most - line.len());
        if read_piece(disk, at, &mut piece[..wanted], &mut line)? {
            return Ok(Some(line));
        }
    }
    Ok(None)
}
