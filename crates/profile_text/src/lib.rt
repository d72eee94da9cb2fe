//! Sandbox profiles as documents: their reader, their canonical text and its digest.
//!
//! A document is JSON in the form of the OCI Runtime Specification 1.x: the member
//! `process.capabilities` of `config.md` as `capabilities`, and Seccomp of `config-linux.md` as
//! `seccomp`.
#![tactic(auto)]

mod argument;
mod canonical;
mod capabilities;
mod document;
mod entry;
mod fault;
mod filter;
mod filter_text;
mod filter_words;
mod hash;
pub mod law;
mod members;
mod place;
mod profile;
mod sets;
mod value;

pub use canonical::{print, write_set};
pub use document::{Document, read, read_stored, read_with_text};
pub use fault::{DocFault, Path, fault_text};
pub use hash::digest;
pub use profile::Profile;
pub use sets::CapSet;
