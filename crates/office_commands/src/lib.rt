//! The words of a command line, carried out: what the program prints where, and the status that it
//! ends with.
#![tactic(auto)]

mod ended;
mod host;
mod run;
mod same_file;
mod subject;

pub use ended::Ended;
pub use host::{Parts, run_here};
pub use run::run_words;
