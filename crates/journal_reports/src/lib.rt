//! What people read of a journal.
#![tactic(auto)]

mod filter;
mod history;
pub mod json_line;
pub mod laws;
pub mod line;
mod sheet_before;
mod struck;

pub use filter::Filter;
pub use history::write_history;
pub use sheet_before::evidence;
