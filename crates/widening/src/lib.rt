//! Whether a new profile permits more than its baseline: the list of findings, and the test by
//! which a review needs a second approval.
//!
//! Where nothing is found, the new profile permits no more: each of its capability sets is within
//! the baseline's, and no call with whatever arguments has a more permissive action. The test may
//! find something where nothing is permitted more.
#![tactic(auto)]

mod calls;
mod caps;
mod finding;
mod groups;
mod laws;
mod listing;
mod memo;
mod ranks;
mod text_lists;
mod wider;

pub use finding::Finding;
pub use implication::{entry_implies, implies};
pub use laws::{
    calls_are_found_in_byte_order, examples_of_what_filters_list, no_finding_permits_no_more,
    nothing_is_found_against_itself, the_closed_profile_permits_no_more_than_any,
};
pub use listing::findings;
pub use profile_text::CapSet;
pub use wider::is_wider;
