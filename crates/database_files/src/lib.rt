//! The files of a database: a disk that is written to only while its name leads to it, what the heads of
//! the file and its log say, and the mark in it.
#![tactic(auto)]

mod close;
mod disk;
mod examples;
mod extent;
mod laws;
mod log;
mod name;
mod number;

pub use close::close_with;
pub use disk::NamedDisk;
pub use extent::{HEAD, MOST, database_extent, log_extent, user_version};
pub use laws::a_marked_database_is_one;
pub use name::Name;
