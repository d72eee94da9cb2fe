//! What a log says of its database.

ghost use Rattle.std.specs.Prelude.{◌≡◌, ◌+◌, ◌<◌, ◌≤◌, ◌^◌, length, IsTrue};
ghost use Rattle.database_files.specs.Extents.{begins_log, frame_count, logged_pages};
ghost use Rattle.database_files.specs.Extents.{most_pages};

use crate::number::long_at;

// The bytes of a log before its frames, and those of a frame before its page.
const HEADER: usize = 32;

const FRAME_HEADER: usize = 24;

/// Whether the bytes that begin a file are those of a log.
pub(crate) fn begins_log(head: &[u8]) -> bool
    ensures { result ≡ begins_log head.now }
{
    head.len() >= HEADER + FRAME_HEADER
        && (long_at(head, 0) == 0x377f_0682 || long_at(head, 0) == 0x377f_0683)
}

// The most pages that a frame of a log says that the database has, where each has so many bytes.
#[tactic(auto, unfolding(crate::specs::Extents::most_pages))]
fn most_pages(log: &[u8], size: usize) -> u64
    requires long { 32 ≤ length log.now }
    requires size { 24 ≤ size }
    ensures value { result ≡ most_pages size log.now (frame_count size log.now) }
    ensures bound { result < 2 ^ 32 }
{
    let mut most = 0;
    let frames = (log.len() - HEADER) / size;
    for i in 0..frames {
        most = most.max(long_at(log, HEADER + i * size + 4));
    }
    most
}

/// The most pages that a log says that its database has.
pub(crate) fn logged_pages(log: &[u8]) -> u64
    requires { IsTrue (begins_log log.now) }
    ensures value { result ≡ logged_pages log.now }
    ensures bound { result < 2 ^ 32 }
{
    most_pages(log, FRAME_HEADER + long_at(log, 8) as usize)
}
