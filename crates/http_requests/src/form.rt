//! The forms of routes.

use crate::route::{ProfileAsk, RevisionAsk};

/// What a route asks for, before its parameters are looked at.
#[derive(Clone, Copy)]
pub(crate) enum Form {
    /// To enrol a user.
    OfUsers,
    /// To see who the caller is.
    OfMe,
    /// To see the profiles of a team.
    OfTeam,
    /// To see the revisions of a profile, or to hand one in.
    OfRevisions,
    /// This of a profile.
    OfProfile(ProfileAsk),
    /// This of a revision.
    OfRevision(RevisionAsk),
}
