//! What the rules of each request ask. A truth value named by a rule's word is true where the rule
//! refuses.

use crate::denial::Need;
use office_words::State;

/// What the rules of enrol ask.
#[derive(Clone, Copy)]
pub struct EnrolFacts {
    /// The caller is no registrar.
    pub role_missing: bool,
    /// The user to be enrolled is the caller.
    pub own_row: bool,
    /// The user to be enrolled is in another team already.
    pub team_fixed: bool,
    /// Another user's present token is the one to be given.
    pub token_taken: bool,
}

impl EnrolFacts {
    /// Facts that every rule of enrol lets pass, to stand for those that aren't looked up yet.
    pub const PASSING: EnrolFacts = EnrolFacts {
        role_missing: false,
        own_row: false,
        team_fixed: false,
        token_taken: false,
    };
}

/// What the rules of submit ask.
#[derive(Clone, Copy)]
pub struct SubmitFacts {
    /// The caller is no author.
    pub role_missing: bool,
    /// The team isn't the caller's.
    pub other_team: bool,
    /// The bytes handed in are no document.
    pub document: bool,
    /// The canonical text is that of the open revision.
    pub same_as_open: bool,
    /// How many revisions the profile has.
    pub revisions: u32,
}

impl SubmitFacts {
    /// Facts that every rule of submit lets pass, to stand for those that aren't looked up yet.
    pub const PASSING: SubmitFacts = SubmitFacts {
        role_missing: false,
        other_team: false,
        document: false,
        same_as_open: false,
        revisions: 0,
    };
}

/// What the rules of vote ask.
#[derive(Clone, Copy)]
pub struct VoteFacts {
    /// The caller is no reviewer.
    pub role_missing: bool,
    /// The state of the revision, if there is one of this number.
    pub state: Option<State>,
    /// The caller is an author of the profile.
    pub author_votes: bool,
    /// The digest named isn't that of the revision's text.
    pub other_bytes: bool,
}

impl VoteFacts {
    /// Facts that every rule of vote lets pass, to stand for those that aren't looked up yet.
    pub const PASSING: VoteFacts = VoteFacts {
        role_missing: false,
        state: Some(State::Open),
        author_votes: false,
        other_bytes: false,
    };
}

/// What the rules of issue ask.
#[derive(Clone, Copy)]
pub struct IssueFacts {
    /// The caller is no issuer.
    pub role_missing: bool,
    /// The state of the revision, if there is one of this number.
    pub state: Option<State>,
    /// The caller is an author of the profile.
    pub author_issues: bool,
    /// How many standing votes count and reject.
    pub rejections: u64,
    /// How many standing votes count and approve.
    pub approvals: u64,
    /// How many of the approvals have security: the voter held that role at the vote and holds it
    /// now.
    pub secure: u64,
    /// How many approvals are needed.
    pub need: Need,
    /// The profile is held.
    pub held: bool,
}

impl IssueFacts {
    /// Facts that every rule of issue lets pass, to stand for those that aren't looked up yet.
    pub const PASSING: IssueFacts = IssueFacts {
        role_missing: false,
        state: Some(State::Open),
        author_issues: false,
        rejections: 0,
        approvals: 1,
        secure: 0,
        need: Need::One,
        held: false,
    };
}

/// What the rules of withdraw ask.
#[derive(Clone, Copy)]
pub struct WithdrawFacts {
    /// The caller is neither author nor security.
    pub role_missing: bool,
    /// The team isn't the caller's, who isn't security.
    pub other_team: bool,
    /// The state of the revision, if there is one of this number.
    pub state: Option<State>,
}

impl WithdrawFacts {
    /// Facts that every rule of withdraw lets pass, to stand for those that aren't looked up yet.
    pub const PASSING: WithdrawFacts = WithdrawFacts {
        role_missing: false,
        other_team: false,
        state: Some(State::Open),
    };
}

/// What the rules of adopt ask.
#[derive(Clone, Copy)]
pub struct AdoptFacts {
    /// The caller isn't security.
    pub role_missing: bool,
    /// The state of the revision, if there is one of this number.
    pub state: Option<State>,
    /// The caller is an author of the profile.
    pub author_adopts: bool,
}

impl AdoptFacts {
    /// Facts that every rule of adopt lets pass, to stand for those that aren't looked up yet.
    pub const PASSING: AdoptFacts = AdoptFacts {
        role_missing: false,
        state: Some(State::Issued),
        author_adopts: false,
    };
}

/// What the rules of show, sheet and list ask.
#[derive(Clone, Copy)]
pub struct ReadFacts {
    /// The caller is none of author, reviewer, security and issuer.
    pub role_missing: bool,
    /// The team isn't the caller's, who is none of reviewer, security and issuer.
    pub other_team: bool,
    /// The profile has no revision of this number; never so for list, which names none.
    pub no_revision: bool,
}

/// What the rules of fetch and issued ask.
#[derive(Clone, Copy)]
pub struct FetchFacts {
    /// The caller is no machine.
    pub role_missing: bool,
    /// The team isn't the caller's.
    pub other_team: bool,
    /// No revision of the profile is issued.
    pub nothing_issued: bool,
    /// The profile is held.
    pub held: bool,
}

impl FetchFacts {
    /// Facts that every rule of fetch lets pass, to stand for those that aren't looked up yet.
    pub const PASSING: FetchFacts = FetchFacts {
        role_missing: false,
        other_team: false,
        nothing_issued: false,
        held: false,
    };
}

/// What the rules of holds ask, and of their ends.
#[derive(Clone, Copy)]
pub struct HoldFacts {
    /// The caller isn't security.
    pub role_missing: bool,
    /// The profile has no revision.
    pub no_profile: bool,
    /// The profile is held.
    pub held: bool,
}

impl HoldFacts {
    /// Facts that every rule of a hold lets pass, to stand for those that aren't looked up yet. Of
    /// the end of a hold the profile has to be held too.
    pub const PASSING: HoldFacts = HoldFacts {
        role_missing: false,
        no_profile: false,
        held: false,
    };
}

/// What the rules of revisions ask.
#[derive(Clone, Copy)]
pub struct RevisionsFacts {
    /// The caller is none of author, reviewer, security and issuer.
    pub role_missing: bool,
    /// The team isn't the caller's, who is none of reviewer, security and issuer.
    pub other_team: bool,
    /// The profile has no revision.
    pub no_profile: bool,
}
