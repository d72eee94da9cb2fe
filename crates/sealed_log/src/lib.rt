//! A log whose lines are sealed, in a file of which a crash may leave what a disk may leave.
#![tactic(auto)]

mod fault;
mod input;
mod keeps;
pub mod laws;
mod lines;
mod log;
mod read;
mod reader;
mod seals;
mod through;
mod unreadable;
mod written;

pub use fault::LogFault;
pub use input::read_body;
pub use keeps::{Keeps, Nothing};
pub use lines::{LONGEST, is_body};
pub use log::SealedLog;
pub use read::read_through;
pub use reader::Reader;
pub use seals::{Seal, no_seal, seal, seal_in};
pub use through::Through;
pub use unreadable::Unreadable;
