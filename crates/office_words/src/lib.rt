//! The words of the office and the rows of its tables: who and what a request may name, and what a store
//! keeps of it.
#![tactic(auto)]

pub mod digest;
pub mod fault;
pub mod listed;
pub mod name;
pub mod revision;
pub mod role;
pub mod row;
pub mod text;
pub mod token;
pub mod word;

pub use digest::digest_from_hex;
pub use fault::Fault;
pub use listed::{ListedRevision, ProfileRevision, Tally};
pub use name::ProfileName;
pub use revision::{MAX_LISTED, MAX_REVISIONS, State, VoteRow};
pub use role::{Role, Roles, each_role_is_listed};
pub use row::{RevisionRow, UserRow};
pub use text::Text;
pub use token::Token;
pub use word::{Word, WordFault};
