//! What can be wrong with an office and its journal, and the words of each such fault.
#![tactic(auto)]

mod difference;
mod no_evidence;
mod not_reopened;
mod refused;
mod table;
mod unverified;
mod unwritten;

pub use difference::Difference;
pub use no_evidence::NoEvidence;
pub use not_reopened::NotReopened;
pub use refused::{Refused, Why};
pub use table::Table;
pub use unverified::Unverified;
pub use unwritten::Unwritten;
