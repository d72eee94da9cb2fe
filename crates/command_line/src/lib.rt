//! The words of the command line: which command they ask for, and with which values.
//!
//! They are read with `clap`. What its parse makes of words is defined there; here stand the
//! commands, and what their values mean.
#![tactic(auto)]

mod check;
mod command;
mod compare;
mod desk;
mod evidence;
mod execve;
mod fault;
mod history;
mod init;
mod journal;
mod line;
mod migrate;
mod parts;
mod rebuild;
mod seal;
mod serve;
mod verify;
mod words;

pub use command::{
    Command, EvidenceWords, ExecveWords, HistoryWords, InitWords, JournalWords, KeptSeal, Requests,
    ServeWords, VerifyWords,
};
pub use fault::WordsFault;
pub use words::read_words;
