//! The commands on documents in files: `check`, `execve` and `compare`.
#![tactic(auto)]

mod check;
mod compare;
mod document;
mod execution;
mod execve;
mod fault;
mod json_place;
mod list;
mod name_told;

pub use check::check_document;
pub use compare::{ComparedFault, compare_profiles};
pub use document::{MOST_BYTES, read_document};
pub use execution::{Execution, ExecutionFault, execution_of, unknown_of};
pub use execve::{ExecveOutcome, execve_document};
pub use fault::FileFault;
pub use json_place::JsonPlace;
pub use list::{set_listed, unknown_name, unknown_part};
