//! When one comparison of an argument, or one entry of a filter, implies another.
//!
//! A comparison implies another where every 64-bit word that it admits is admitted by the other, as
//! in seccomp_rule_add(3). No call takes memory.
#![tactic(auto)]

mod compare;
mod entry;
mod mask;
mod range;

pub use compare::implies;
pub use entry::entry_implies;
