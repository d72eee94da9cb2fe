//! Lines in and answer lines out: each line is read, handled and answered before the next.
#![tactic(auto)]

mod ended;
mod fault;
mod flaw;
mod flawed;
mod formed;
mod laws;
mod note;
mod outcome;
mod serve;

pub use ended::Ended;
pub use fault::{DeskFault, each_fault_has_its_word};
pub use flaw::{Flaw, Member};
pub use flawed::flaw_of_line;
pub use laws::{a_line_has_a_flaw_where_it_is_no_request, each_member_of_a_kind_is_looked_at};
pub use outcome::LineOutcome;
pub use serve::{MAX_READS, desk};
