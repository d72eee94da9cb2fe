//! The policy of an office, as definitions over what has happened in it, the laws that follow from
//! them, what the tables of a history are to it, and the traits by which others see an office.
#![tactic(auto)]

pub mod callers;
pub mod change;
pub mod deed;
pub mod duty;
pub mod event;
pub mod events;
pub mod examples;
pub mod forms;
mod handler;
pub mod issued;
mod judge;
pub mod law_examples;
pub mod laws;
pub mod listing;
pub mod question_examples;
pub mod reads;
pub mod shown;
pub mod standing;
pub mod submission_examples;

pub use change::Change;
pub use deed::Deed;
pub use event::Event;
pub use forms::{ask_forms, founding_forms, request_forms};
pub use handler::Handler;
pub use judge::{Allowed, Judge, Judgement};
