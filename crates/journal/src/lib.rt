//! The journal of an office: its lines, how they are read, and an office that writes the line of each
//! event before it happens.
#![tactic(auto)]

pub mod events;
mod journal;
mod journaled;
mod kept;
pub mod laws;
pub mod line;
mod log;
pub mod members;
mod part;
mod print;
pub mod read;
pub mod reader;
mod seal_at;
mod writers;

pub use events::{Events, Placed};
pub use journal::Journal;
pub use journaled::Journaled;
pub use kept::Kept;
pub use line::Line;
pub use print::{change_text, text};
pub use read::read_line;
pub use reader::Reader;
pub use writers::Writers;
