//! HTTP without an office: the head of a request, its target's route, its body, what they ask
//! together, and responses.
//!
//! Bytes are read as RFC 9112 (HTTP/1.1) has them, and mean what RFC 9110 (HTTP semantics) says.
#![tactic(auto)]

mod ask;
mod body;
mod end;
mod field;
mod form;
mod head;
mod head_bytes;
pub mod laws;
mod length;
mod message;
mod method;
mod number;
mod parameter;
mod part;
mod query;
mod refusal;
mod request;
mod resource;
mod response;
mod route;
mod router;
mod same;
mod status;
mod target;
mod token;
mod unheard;

pub use method::{Method, Methods};
pub use refusal::Refusal;
pub use request::hear;
pub use response::{answer_response, answer_status, memory_response, refusal_response};
pub use router::OfficeRouter;
pub use status::Status;
pub use unheard::Unheard;
