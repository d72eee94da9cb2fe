//! Offices and their journals: opened again after a crash, or built anew from the journal alone.
#![tactic(auto)]

pub mod laws;
mod mending;
mod office;
mod opening;
mod rebuilding;
mod replay;
mod visitor;

pub use mending::mend;
pub use office::{Rebuilt, rebuild};
pub use opening::reopen;
pub use rebuilding::rebuild_as_read;
pub use replay::Replay;
pub use visitor::{Visitor, visit};
