//! What each request comes to, before anything is changed: the store is read, and the policy asked.
#![tactic(auto)]

mod asking;
mod baseline;
mod caller;
mod changing;
mod enrol;
mod issue;
pub mod judge;
mod let_through;
mod looked;
mod need;
mod newest;
mod profiles;
mod reading;
mod refusal;
mod refuses;
mod revisions;
mod row;
mod sheet;
mod submit;

pub use refusal::Refusal;
pub use revisions::state_of;
pub use sheet::sheet_at;
pub use submit::number_of;
