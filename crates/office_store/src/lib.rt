//! The six tables of an office over `sqlite`, generic in the store: each call answers what the
//! tables have, or changes them in one transaction. The connection of a call has no transaction
//! open and no limit on steps.
#![tactic(auto)]

pub mod author;
pub mod baselines;
mod bind;
pub mod briefs;
mod column;
mod finding;
mod from_row;
pub mod holds;
pub mod listing;
pub mod newest;
pub mod numbers;
pub mod refusing;
pub mod revisions;
pub mod schema;
pub mod standing_votes;
pub mod summaries;
pub mod users;
pub mod votes;
pub mod walk;
mod write;

pub use author::{authors, is_author};
pub use baselines::{Adopted, baseline, put_baseline};
pub use briefs::{Brief, issued_brief};
pub use column::{bytes_of, number_at, word_at};
pub use holds::{delete_hold, is_held, put_hold};
pub use listing::revisions_of;
pub use newest::newest_below;
pub use numbers::{Numbered, issued_number, last_numbered};
pub use revisions::{
    add_revision, has_revision, issued, last, revision, set_issued, set_withdrawn,
};
pub use standing_votes::{standing, tally};
pub use summaries::{Summary, summary_at};
pub use users::{put_user, user_by_name, user_by_token};
pub use votes::{Ballot, ballot_of, put_vote};
pub use walk::{first_listed, next_listed};
