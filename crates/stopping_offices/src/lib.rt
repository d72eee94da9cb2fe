//! Offices over two files in memory of which one stops: scripts of requests, how far they come, and what is left of them.
#![tactic(auto)]

pub mod asked;
pub mod begun;
pub mod course;
pub mod files;
pub mod runs;
pub mod texts;
