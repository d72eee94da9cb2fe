//! What a command gets from outside (files, databases, journals, a network), by traits that tests
//! can stand in for; and how it says why it is refused or failed.
#![tactic(auto)]

mod argument;
mod databases;
mod fault;
mod file_id;
mod files;
mod founding_fault;
mod host;
mod host_files;
mod host_journals;
mod host_name;
mod journal_text;
mod journals;
mod made;
mod marks;
mod network;
mod no_file;
mod noted;
mod opening;
mod place;
mod plain;
mod unread;
mod written;

pub use argument::{subject_of_evidence, subject_of_execve, subject_of_history, subject_of_init};
pub use databases::Databases;
pub use fault::CommandFault;
pub use files::PassFiles;
pub use founding_fault::FoundingWordsFault;
pub use host::{Host, HostOf, Outside};
pub use host_files::{ClosedFiles, HostFiles, UnknownFiles};
pub use host_journals::HostJournals;
pub use host_name::{HostFile, HostName};
pub use journal_text::{JournalText, text_at, told_of_text};
pub use journals::Journals;
pub use marks::{PARTED, has_journal, least_lines, mark_of_lines};
pub use network::{Network, PassNet};
pub use no_file::{NoFile, fault_of};
pub use noted::{NoneFailed, Noted};
pub use opening::{
    close, close_database, database_at, fault_of_opening, first_fault, kept_at, marked_at,
    office_at, office_over, open, unmarked_at,
};
pub use place::Stamp;
pub use plain::{plain_lines, plain_text};
pub use unread::{unread_at, unread_of};
pub use written::{print, print_bytes, refuse, say, say_lines, seal_line};
