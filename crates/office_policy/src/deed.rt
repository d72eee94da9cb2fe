//! What users do in an office.

use office_words::{ProfileName, Roles, Text, Word};
use review_policy::{ProfileAct, RevisionAct};

/// What a user does in an office, by a request of a changing kind. Digests are of SHA-256; revisions
/// are numbered from 1.
#[derive(Drop)]
pub enum Deed {
    /// A user is enrolled, or given these roles and the token of this digest.
    Enrol {
        user: Word,
        team: Word,
        roles: Roles,
        digest: [u8; 32],
    },
    /// A document is handed in; its canonical text.
    Submit {
        name: ProfileName,
        text: Text,
    },
    /// A vote is cast on a revision; the digest that it named.
    Vote {
        name: ProfileName,
        revision: u32,
        digest: [u8; 32],
        approves: bool,
    },
    /// This is done to a revision.
    ActOnRevision {
        act: RevisionAct,
        name: ProfileName,
        revision: u32,
    },
    /// This is done to a profile.
    ActOnProfile {
        act: ProfileAct,
        name: ProfileName,
    },
}
