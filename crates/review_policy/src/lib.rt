//! The requests that are made of the office, what it answers, and the rules that allow or refuse them.
#![tactic(auto)]

pub mod act;
pub mod answer;
pub mod ask;
pub mod decide;
pub mod denial;
pub mod facts;

pub use act::{Effect, ProfileAct, ProfileView, RevisionAct, RevisionView};
pub use answer::{Answer, ListedProfile, Listing, Reply, RevisionList};
pub use ask::{Ask, Request};
pub use decide::{need, no_rule_refuses_passing_facts, the_first_refusing_rule_is_named};
pub use denial::{Denial, Need, Rule};
