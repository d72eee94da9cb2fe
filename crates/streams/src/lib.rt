//! Streams: readers and writers that count their calls and those that failed, reading and writing
//! by single calls, and the lines of a stream as they come.
#![tactic(auto)]

pub mod counted;
mod feed;
mod find;
mod lines;
pub mod passed;
mod room;
pub mod some;
pub mod step;
pub mod unread;
pub mod whole;

pub use counted::{Counted, is_interrupted};
pub use find::Found;
pub use lines::{Lines, MAX_LINE, TooLong};
pub use passed::{PassRead, PassWrite};
pub use some::{SomeRead, read_some};
pub use step::{ReadStep, read_step};
pub use unread::Unread;
pub use whole::{WriteFailed, write_whole};
