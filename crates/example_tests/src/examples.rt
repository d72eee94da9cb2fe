//! Small offices, journals, connections, filters, streams and files, and what definitions say of
//! them.

pub mod approvals;
pub mod buildings;
pub mod calls;
pub mod causes;
pub mod documents;
pub mod duties;
pub mod endings;
pub mod exchanges;
pub mod filters;
pub mod foundings;
pub mod histories;
pub mod journals;
pub mod laws;
pub mod leavings;
pub mod limits;
pub mod migrations;
pub mod networks;
pub mod openings;
pub mod reads;
pub mod replays;
pub mod revisions;
pub mod sayings;
pub mod servings;
pub mod stores;
pub mod strikes;
pub mod verifications;
