//! The rows of tables over `sqlite`: one query, one transaction of several statements, and what
//! each does to the entries that the rows stand for.
//!
//! Most of the crate is proofs that the guide of `sqlite` leaves to a caller. The kit says that a
//! call does what its text means under the schema of that time, and its `proofs/Callers.antt` leads
//! from a call to that meaning. What a meaning makes of rows of which the caller knows more, and
//! which errors it can't meet, a caller proves. These are said once here, for any table:
//!
//! left to a caller | proved in
//! ---|---
//! what a text means, whatever the values of its parameters | `Plain`
//! that a text is no write, whatever the schema, so that a query leaves any connection as it was | `Queries`
//! which entries the first row of an answer shows, and which all its rows | `Reading`, `Finding`, `Ordered`; `Asked`, `InOrder`, `Distinct`, `Limited`, `Whole`
//! what a write makes of the entries, and of what stands at each key | `Writing`, `Upserting`, `Steps`, `Stored`, `Creating`
//! what several statements make, and what a crash may leave between them | `Transactions`, `Leading`
//! that an error says nothing of the form of the tables | `Errors`, `Failing`, `Shut`
//! that an error is of memory, of the disk or of a shut connection, or that SQLite refuses a row | `Sure`
//! that it refuses none for a key, and what it lacks then | `Halting`, `Refused`, `RefusedUpdates`, `RefusedUpserts`, `Storing`
//!
//! `Rowids` and `Permuted` are of lists alone: an answer has its rows in any order, and a new row
//! under any rowid that is free.
#![tactic(auto)]

pub mod fault;
pub mod query;
pub mod rows;
pub mod transaction;

pub use fault::fault_of_error;
pub use query::{first_row, is_there};
pub use rows::all_rows;
pub use transaction::{Statement, run_all};
