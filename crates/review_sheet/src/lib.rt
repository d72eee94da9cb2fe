//! Review sheets: the exact text by which a reviewer decides on a revision.
//!
//! A sheet says what the document grants, what execve makes of it, what is new against the
//! baseline, who voted, and how many approvals it needs. All that it shows is in `SheetFacts`.
#![tactic(auto)]

mod facts;
mod filter;
mod findings;
mod laws;
mod layout;
mod sets;
mod sheet_text;
mod votes;

pub use facts::SheetFacts;
pub use findings::findings_text;
pub use laws::{
    a_sheet_of_a_profile_without_a_filter, a_sheet_with_each_part,
    approvals_and_rejections_are_the_votes_that_say_so, each_line_ends_with_a_line_feed,
    examples_of_what_is_counted, findings_and_need_are_those_of_the_comparison_and_the_policy,
    lines_after_execve_are_those_of_any_state_after_it, numbers_of_lists_are_those_of_their_lines,
};
pub use sets::state_text;
pub use sheet_text::sheet;
pub use votes::vote_word;
