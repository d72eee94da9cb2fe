//! Seccomp filters as an OCI runtime configuration writes them: actions, comparisons, entries, and
//! what a filter means.
#![tactic(auto)]

pub mod action;
pub mod arch;
pub mod call_name;
pub mod compare;
pub mod entry;
pub mod fault;
pub mod filter;
pub mod flag;
pub mod laws;
mod names;
pub mod parts;
pub mod short;
pub mod text;
pub mod word;

pub use action::{Action, ActionWord};
pub use arch::Arch;
pub use call_name::CallName;
pub use compare::{Compare, Op};
pub use entry::Entry;
pub use fault::FilterFault;
pub use filter::{Filter, action_for};
pub use flag::ScmpFlag;
pub use parts::{ArgParts, EntryParts, FilterParts};
pub use short::Text;
pub use text::{Form, Formed};
pub use word::NameFault;
