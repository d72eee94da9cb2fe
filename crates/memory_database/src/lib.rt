//! A database in memory, in pages.
#![tactic(auto)]

mod copy;
mod file;
mod laws;
mod open;
mod store;
mod want;

pub use copy::{CopyStore, open_copy};
pub use file::VolatileFile;
pub use laws::{a_copy_is_clean, memory_is_clean, no_disk_fails, want_of_memory_fails_a_copy};
pub use open::{MemoryStore, open_in_memory};
pub use store::InMemory;
pub use want::want_of_memory;
