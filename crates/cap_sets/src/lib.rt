//! Sets of Linux capabilities, the lawful states of a process, and what `execve` makes of them.
//!
//! The rules are those of capabilities(7). No call takes memory.
#![tactic(auto)]

mod caps;
mod exec;
mod flags;
mod names;
mod state;

pub use caps::Caps;
pub use exec::{Eperm, File, execve, execve_root};
pub use names::Names;
pub use state::{CapFault, CapState};
