//! Requests against the tables of an office: what the policy allows is carried out, and nothing
//! else.
#![tactic(auto)]

mod answer;
mod carry_out;
pub mod migrated;
mod office;
pub mod reopening;
mod replay;
mod shown;

pub use office::Office;
pub use replay::Unreplayed;
