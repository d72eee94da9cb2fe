//! What stands in for streams, clocks, documents and those who ask, in tests.
#![tactic(auto)]

pub mod clock;
pub mod conversations;
pub mod fake_streams;
pub mod long_texts;
pub mod messages;
