//! Why a database in memory fails.

use no_memory::NoMemory;

/// The want of memory that any failure of a database in memory is, since no other disk is there to
/// fail.
pub fn want_of_memory<E: Drop>(_failed: E) -> NoMemory {
    NoMemory::told()
}
