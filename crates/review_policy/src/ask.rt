//! What is asked of the office.

use crate::act::{ProfileAct, ProfileView, RevisionAct, RevisionView};
use office_words::{ProfileName, Roles, Token, Word};

/// What a request asks for. Digests are of SHA-256; revisions are numbered from 1 to
/// [`office_words::MAX_REVISIONS`].
#[derive(Drop)]
pub enum Ask {
    /// To enrol a user, or to give an enrolled one these roles and the token of this digest.
    Enrol {
        user: Word,
        team: Word,
        roles: Roles,
        digest: [u8; 32],
    },
    /// To hand in a document, its bytes as they came.
    Submit {
        name: ProfileName,
        document: Vec<u8>,
    },
    /// To vote on a revision whose text has this digest.
    Vote {
        name: ProfileName,
        revision: u32,
        digest: [u8; 32],
        approve: bool,
    },
    /// To have this done to a revision.
    ActOnRevision {
        act: RevisionAct,
        name: ProfileName,
        revision: u32,
    },
    /// To see this of a revision.
    SeeRevision {
        view: RevisionView,
        name: ProfileName,
        revision: u32,
    },
    /// To see the profiles of a team.
    List {
        team: Word,
    },
    /// To have this done to a profile.
    ActOnProfile {
        act: ProfileAct,
        name: ProfileName,
    },
    /// To see this of a profile.
    SeeProfile {
        view: ProfileView,
        name: ProfileName,
    },
    /// To see who the caller is.
    Me,
    /// To see the newest revisions of a profile: of all, or of those before this number.
    Revisions {
        name: ProfileName,
        before: Option<u32>,
    },
}

/// A request: what is asked, and the token that its caller shows.
#[derive(Drop)]
pub struct Request {
    /// What the caller shows to be known.
    pub token: Token,
    /// What is asked.
    pub ask: Ask,
}
