//! The commands that change nothing: what documents and journals in files say, and whether an office
//! is the one that its journal tells.
#![tactic(auto)]

mod compare;
mod copied;
mod document_bytes;
mod documents;
mod evidence;
mod history;
mod moment;
mod name;
mod named;
mod place;
mod reading;
mod verify;

pub use documents::{run_check, run_compare, run_execve};
pub use evidence::run_evidence;
pub use history::run_history;
pub use moment::Moment;
pub use verify::run_verify;
