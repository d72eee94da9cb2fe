//! JSON values over borrowed text, as `serde_json` reads them: numbers have values, and the members
//! of an object stand once each, in byte order of their names. Beside them, what texts share that
//! are written a token at a time.
#![tactic(auto)]

mod escape;
mod fault;
mod look;
mod members;
mod number;
mod place;
mod reader;
mod room;
mod scratch;
mod token;
mod tree;
mod writer;

pub use fault::ReadFault;
pub use number::Number;
pub use scratch::Scratch;
pub use tree::Tree;
pub use writer::{Writer, written_text};
