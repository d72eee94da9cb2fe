//! Want of memory, and the witness of it.
#![tactic(auto)]

mod witness;

pub use witness::NoMemory;
