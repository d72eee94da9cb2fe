//! What the heads of the two files of a database say.

ghost use Rattle.std.specs.Prelude.{◌≡◌, ◌+◌, ◌<◌, ◌≤◌, ◌^◌, length};
ghost use Rattle.database_files.specs.Extents.{begins_database, database_extent, log_extent};
ghost use Rattle.database_files.specs.Extents.{stated_pages, stated_size, wanted_bytes};
ghost use Rattle.database_files.specs.Extents.{within_most, head_bytes, most_bytes, user_version};

use crate::log::{begins_log, logged_pages};
use crate::number::{long_at, short_at};

/// So many bytes of a file say how far it goes.
pub const HEAD: usize = 100;

/// No more of a file is read than this, 4 GiB.
pub const MOST: usize = 4_294_967_296;

// How a database of SQLite begins.
const HEADER_TEXT: &[u8] = b"SQLite format 3\0";

// Whether the bytes that begin a file are those of a database.
fn begins_database(head: &[u8]) -> bool
    ensures { result ≡ begins_database head.now }
{
    head.len() >= HEAD && &head[..16] == HEADER_TEXT
}

// How many pages the header of a database says that it has.
fn stated_pages(head: &[u8]) -> u64
    ensures value { result ≡ stated_pages head.now }
    ensures bound { result < 2 ^ 32 }
{
    if head.len() >= 32 {
        long_at(head, 28)
    } else {
        0
    }
}

// How many bytes it says that a page has.
fn stated_size(head: &[u8]) -> u64
    requires { 18 ≤ length head.now }
    ensures value { result ≡ stated_size head.now }
    ensures bound { result ≤ 65536 }
{
    match short_at(head, 16) {
        1 => 65536,
        size => size,
    }
}

// How many bytes are wanted of the file of a database, by its head and its log.
fn wanted_bytes(log: &[u8], head: &[u8]) -> u64
    ensures { result ≡ wanted_bytes log.now head.now }
{
    if begins_log(log) {
        (stated_pages(head).max(logged_pages(log)) + 1) * long_at(log, 8)
    } else if begins_database(head) {
        (stated_pages(head) + 1) * stated_size(head)
    } else {
        HEAD as u64
    }
}

// No fewer bytes than were looked at, and no more than one more than the most.
fn within_most(wanted: u64) -> u64
    ensures { result ≡ within_most wanted }
{
    wanted.min(MOST as u64 + 1).max(HEAD as u64)
}

/// How far the file of a database is read whose first [`HEAD`] bytes are these, or all that there are,
/// beside such a log: a page more than the header or the log says that there are. Of a file that is
/// no database no more is read.
pub fn database_extent(log: &[u8], head: &[u8]) -> u64
    ensures value { result ≡ database_extent log.now head.now }
    ensures least { head_bytes ≤ result }
    ensures most { result ≤ most_bytes + 1 }
{
    within_most(wanted_bytes(log, head))
}

/// How far a log is read whose first [`HEAD`] bytes are these, or all that there are. Of a file that is
/// no log no more is read.
pub fn log_extent(head: &[u8]) -> u64
    ensures value { result ≡ log_extent head.now }
    ensures least { head_bytes ≤ result }
    ensures most { result ≤ most_bytes + 1 }
{
    if begins_log(head) {
        MOST as u64 + 1
    } else {
        HEAD as u64
    }
}

/// The number that a database has for its application, whose first [`HEAD`] bytes are these; 0 of a file
/// that is none.
pub fn user_version(head: &[u8]) -> u32
    ensures { result ≡ user_version head.now }
{
    if begins_database(head) {
        long_at(head, 60) as u32
    } else {
        0
    }
}
