//! An office as a whole in a store: how it is founded, looked at, brought from schema 1 to schema
//! 2, and opened again. The connection of a call has no transaction open and no limit on steps.
#![tactic(auto)]

mod caps;
pub mod examples;
pub mod fault;
pub mod form;
pub mod founding;
pub mod migration;
pub mod office;
pub mod reopening;

pub use fault::{FoundingFault, MigrationFault, OpeningFault};
pub use form::check_office;
pub use founding::found;
pub use migration::migrate;
pub use office::listed;
