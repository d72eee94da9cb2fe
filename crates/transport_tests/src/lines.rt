//! The desk: lines of requests, and lists of them.

mod conversations;
mod memory;
mod requests;
mod stops;
mod texts;
mod turns;
