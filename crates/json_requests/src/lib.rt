//! Requests and answers as JSON: one request to a line or to the body of an exchange, and one
//! answer to a line.
#![tactic(auto)]

pub mod answer;
mod ask;
pub mod bad;
mod body;
mod denial;
pub mod fault;
pub mod laws;
pub mod member;
mod object;
pub mod request;
mod revisions;
pub mod roles;
pub mod write;

pub use answer::{answer_text, line};
pub use bad::{BadLine, bad_text};
pub use body::{read_enrol, read_vote};
pub use fault::LineFault;
pub use request::read_line;
