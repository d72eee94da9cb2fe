//! Streams of lines, requests and answers, where no command, no line and no exchange shows what is
//! tried. What requests are answered and what is refused over HTTP stands in `tests/transcripts`.
#![tactic(auto)]

#[cfg(test)]
mod faults;
pub mod lines;
#[cfg(test)]
mod requests;
