//! What a store answers of several rows.

use crate::revision::State;
use crate::word::Word;

/// A revision among those of a team.
#[derive(Drop)]
pub struct ListedRevision {
    /// The name of its profile, which is of the team.
    pub profile: Word,
    /// Its number, from 1.
    pub number: u32,
    pub state: State,
}

/// How the standing votes on a revision stand. A vote that lapsed is none of these.
#[derive(Clone, Copy)]
pub struct Tally {
    /// How many count and approve.
    pub approvals: u64,
    /// How many approve with the role security.
    pub secure: u64,
    /// How many count and reject.
    pub rejections: u64,
}

/// A revision in a list of a profile's revisions.
#[derive(Drop)]
pub struct ProfileRevision {
    /// Its number, from 1.
    pub revision: u32,
    pub state: State,
    /// SHA-256 of its text.
    pub digest: [u8; 32],
    /// Who handed it in.
    pub by: Word,
}
