//! What requests change, as values of a program.

use office_words::{ProfileName, RevisionRow, UserRow};
use review_policy::{ProfileAct, RevisionAct};

/// What is to be done by a request of a changing kind, with the row that is written where it adds
/// one. Digests are of SHA-256; revisions are numbered from 1.
#[derive(Drop)]
pub enum Change {
    /// A user is enrolled, or given these roles and the token of this digest: the row.
    Enrol {
        user: UserRow,
    },
    /// A revision is added to a profile: its row, with the canonical text of what was handed in.
    AddRevision {
        name: ProfileName,
        row: RevisionRow,
    },
    /// A vote is cast on a revision; the digest that it named.
    Vote {
        name: ProfileName,
        revision: u32,
        digest: [u8; 32],
        approves: bool,
    },
    /// This is done to a revision.
    ActOnRevision {
        act: RevisionAct,
        name: ProfileName,
        revision: u32,
    },
    /// This is done to a profile.
    ActOnProfile {
        act: ProfileAct,
        name: ProfileName,
    },
}
