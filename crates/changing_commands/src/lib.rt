//! The commands that make an office, build it anew, serve it or migrate it, in files or in memory,
//! and what they leave there.
#![tactic(auto)]

mod begun;
mod founding;
mod init;
mod kept;
mod lines;
mod marking;
mod migrate;
mod rebuild;
mod reopening;
mod serve;
mod served;
mod stored;
mod trial;

pub use founding::{Founding, founding_of};
pub use init::found_at;
pub use lines::DeskEnded;
pub use marking::mark_stored;
pub use migrate::migrate_at;
pub use rebuild::run_rebuild;
pub use reopening::{
    a_closed_office_is_left_in_its_files, a_kept_office_is_left_with_its_journal,
    a_rebuilt_office_is_left_in_its_files,
};
pub use serve::serve_http;
pub use stored::serve_stored;
pub use trial::serve_trial;
