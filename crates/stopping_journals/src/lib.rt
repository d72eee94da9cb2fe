//! Offices over two files with a journal in a third, of which one stops.
#![tactic(auto)]

mod left;
pub mod runs;
pub mod torn;
