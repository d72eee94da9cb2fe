//! HTTP with an office: one exchange, and exchanges over connections one after the other, each with
//! its deadline.
#![tactic(auto)]

pub mod clock;
pub mod deadline;
pub mod ending;
pub mod fault;
pub mod listener;
pub mod outcome;
mod serve;
pub mod served;
pub mod server;
pub mod serving;
mod tell;
pub mod timed;
pub mod timed_listener;

pub use clock::PassClock;
pub use deadline::Deadline;
pub use ending::EndWriting;
pub use fault::HttpFault;
pub use listener::{Listener, Stream};
pub use outcome::ExchangeOutcome;
pub use serve::{MAX_READS, serve_one};
pub use served::Served;
pub use server::Server;
pub use serving::serve_exchanges;
pub use timed::{Timed, Timeouts};
pub use timed_listener::TimedListener;
