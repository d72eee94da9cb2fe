//! Offices that tests begin with, and their tables as text.
#![tactic(auto)]

pub mod offices;
pub mod old;
pub mod served;
pub mod tables;
pub mod trial;
