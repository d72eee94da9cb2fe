//! What the office answers.

ghost use Rattle.std.specs.Prelude.{◌≡◌};

use crate::denial::Denial;
use office_words::{Fault, ProfileRevision, Roles, State, Text, Word};
use std::marker::Model;

/// A profile in the list of a team's profiles.
#[derive(Drop)]
pub struct ListedProfile {
    /// Its name within the team.
    pub profile: Word,
    /// The number of the revision that is issued, or 0.
    pub issued: u32,
    /// How many revisions there are.
    pub revisions: u32,
    /// The state of the last revision.
    pub state: State,
}

/// The profiles of a team, by name.
#[derive(Drop)]
pub struct Listing {
    profiles: Vec<ListedProfile>,
}

impl Model for Listing {
    ghost use Rattle.std.specs.Prelude.{List};
    ghost use Rattle.review_policy.specs.declared.answer.ListedProfile.{ListedProfile};

    ghost Value = { List ListedProfile };

    ghost view = { λ l. l.profiles.items };
}

impl Listing {
    /// These profiles, in their order.
    pub fn new(profiles: Vec<ListedProfile>) -> Listing
        ensures { result ≡ profiles.items }
    {
        Listing { profiles }
    }

    /// The profiles in their order.
    pub fn profiles(&self) -> &[ListedProfile]
        ensures { result.now ≡ self.now }
    {
        self.profiles.as_slice()
    }
}

/// Revisions of a profile, the newest first.
#[derive(Drop)]
pub struct RevisionList {
    revisions: Vec<ProfileRevision>,
}

impl Model for RevisionList {
    ghost use Rattle.std.specs.Prelude.{List};
    ghost use Rattle.office_words.specs.declared.listed.ProfileRevision.{ProfileRevision};

    ghost Value = { List ProfileRevision };

    ghost view = { λ l. l.revisions.items };
}

impl RevisionList {
    /// These revisions, in their order.
    pub fn new(revisions: Vec<ProfileRevision>) -> RevisionList
        ensures { result ≡ revisions.items }
    {
        RevisionList { revisions }
    }

    /// The revisions in their order.
    pub fn revisions(&self) -> &[ProfileRevision]
        ensures { result.now ≡ self.now }
    {
        self.revisions.as_slice()
    }
}

/// What a request that was done is answered. Digests are of SHA-256; revisions are numbered from 1.
#[derive(Drop)]
pub enum Reply {
    /// There is nothing to tell but that it was done.
    Nothing,
    /// The document is there as this revision; the digest is of its canonical text.
    Submitted {
        digest: [u8; 32],
        revision: u32,
    },
    /// The revision is what hosts fetch; the digest is of its text.
    Issued {
        digest: [u8; 32],
    },
    /// A revision: its canonical text, the digest of that, and where it stands.
    Shown {
        digest: [u8; 32],
        document: Text,
        state: State,
    },
    /// A review sheet.
    Sheet {
        sheet: Text,
    },
    /// The profiles of a team.
    Listed {
        profiles: Listing,
    },
    /// What was issued of a profile: the canonical text, the digest of that, and the revision's
    /// number.
    Fetched {
        digest: [u8; 32],
        document: Text,
        revision: u32,
    },
    /// Who the caller is.
    Me {
        user: Word,
        team: Word,
        roles: Roles,
    },
    /// The newest revisions of a profile, at most [`crate::MAX_LISTED`], and whether there are
    /// older ones.
    Revisions {
        revisions: RevisionList,
        more: bool,
    },
    /// Which revision of a profile is issued, and the digest of its text.
    IssuedNow {
        digest: [u8; 32],
        revision: u32,
    },
}

/// The answer to a request.
#[derive(Drop)]
pub enum Answer {
    /// It was done.
    Done(Reply),
    /// A rule refuses it, and nothing changed; for a refused document, why.
    Denied { denial: Denial, fault: Option<Text> },
    /// Something failed, and nothing changed.
    Fault(Fault),
}
