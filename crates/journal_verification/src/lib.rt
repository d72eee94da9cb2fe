//! Whether an office is the one of a journal.
#![tactic(auto)]

mod compare;
mod naming;
mod reading;
mod rows;
mod schema;
mod side_by_side;
mod table;
mod verification;

pub use verification::{KeptSeal, Verified, verify};
