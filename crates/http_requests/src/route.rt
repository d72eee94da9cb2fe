//! What targets and methods ask for.

ghost use Rattle.std.specs.Prelude.{◌≡◌};
ghost use Rattle.http_requests.specs.Methods.{method_of, profile_method, revision_method};

use crate::method::Method;
use office_words::{ProfileName, Word};
use review_policy::{ProfileAct, ProfileView, RevisionAct, RevisionView};

/// What a target and a method ask for.
#[derive(Drop)]
pub(crate) enum Route {
    /// To enrol a user.
    Users,
    /// To see who the caller is.
    Me,
    /// To see the profiles of this team.
    Team(Word),
    /// To see the revisions of this profile: all, or those before this number.
    Revisions(ProfileName, Option<u32>),
    /// To hand in a document for this profile.
    Submit(ProfileName),
    /// This of a profile.
    Profile(ProfileAsk, ProfileName),
    /// This of the revision of a profile with this number, from 1 to 9,999.
    Revision(RevisionAsk, ProfileName, u32),
}

/// What may be asked of a profile.
#[derive(Clone, Copy)]
pub(crate) enum ProfileAsk {
    /// To have this done to it.
    Act(ProfileAct),
    /// To see this of it.
    See(ProfileView),
}

/// What may be asked of a revision.
#[derive(Clone, Copy)]
pub(crate) enum RevisionAsk {
    /// To vote on it.
    Vote,
    /// To have this done to it.
    Act(RevisionAct),
    /// To see this of it.
    See(RevisionView),
}

impl Route {
    /// The one method that the route has.
    pub(crate) fn method(&self) -> Method
        ensures { result ≡ method_of self.now }
    {
        match self {
            Route::Users | Route::Submit(_) => Method::Post,
            Route::Me | Route::Team(_) | Route::Revisions(_, _) => Method::Get,
            Route::Profile(asked, _) => asked.method(),
            Route::Revision(asked, _, _) => asked.method(),
        }
    }
}

impl ProfileAsk {
    fn method(self) -> Method
        ensures { result ≡ profile_method self }
    {
        match self {
            ProfileAsk::Act(_) => Method::Post,
            ProfileAsk::See(_) => Method::Get,
        }
    }
}

impl RevisionAsk {
    fn method(self) -> Method
        ensures { result ≡ revision_method self }
    {
        match self {
            RevisionAsk::Vote | RevisionAsk::Act(_) => Method::Post,
            RevisionAsk::See(_) => Method::Get,
        }
    }
}
