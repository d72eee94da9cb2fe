//! The rows that a store answers.

use crate::revision::State;
use crate::role::Roles;
use crate::text::Text;
use crate::word::Word;

/// An enrolled user.
#[derive(Drop)]
pub struct UserRow {
    pub name: Word,
    pub team: Word,
    pub roles: Roles,
    /// SHA-256 of the token that the user shows.
    pub digest: [u8; 32],
}

/// A revision of a profile.
#[derive(Drop)]
pub struct RevisionRow {
    /// Its number, from 1.
    pub number: u32,
    /// Who submitted it.
    pub author: Word,
    pub state: State,
    /// Its canonical text.
    pub body: Text,
    /// SHA-256 of the text.
    pub digest: [u8; 32],
}
