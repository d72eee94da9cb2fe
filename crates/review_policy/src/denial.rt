//! Why a request is denied.

ghost use Rattle.std.specs.Prelude.{◌≡◌};
ghost use Rattle.review_policy.specs.Rules.{approvals_of, asks_security};
ghost use Rattle.review_policy.specs.WordTables.{rule_word};

/// How many approvals a revision needs to be issued.
#[derive(Clone, Copy)]
pub enum Need {
    /// One approval.
    One,
    /// Two approvals of distinct users, at least one with the role security.
    TwoWithSecurity,
}

impl Need {
    /// How many approvals it asks for.
    pub fn approvals(self) -> u64
        ensures { result ≡ approvals_of self }
    {
        match self {
            Need::One => 1,
            Need::TwoWithSecurity => 2,
        }
    }

    /// Whether one of the approvals has to be with the role security.
    pub fn asks_security(self) -> bool
        ensures { result ≡ asks_security self }
    {
        match self {
            Need::One => false,
            Need::TwoWithSecurity => true,
        }
    }
}

/// The rules of the policy, each with when it refuses a request.
#[derive(Clone, Copy)]
pub enum Rule {
    /// No user's present token is the one that is shown.
    CallerUnknown,
    /// The caller has none of the roles that may ask this.
    RoleMissing,
    /// The user to be enrolled is the caller.
    OwnRow,
    /// The user to be enrolled is in another team already.
    TeamFixed,
    /// Another user's present token is the one to be given.
    TokenTaken,
    /// The team isn't the caller's, and no role of the caller passes over that.
    OtherTeam,
    /// The bytes handed in are no document.
    Document,
    /// The canonical text is that of the open revision.
    SameAsOpen,
    /// The profile has 9,999 revisions.
    RevisionsFull,
    /// The profile has no revision of this number.
    NoRevision,
    /// The caller is an author of the profile, and votes.
    AuthorVotes,
    /// The revision isn't open.
    NotOpen,
    /// The digest named isn't that of the revision's text.
    OtherBytes,
    /// The caller is an author of the profile, and issues.
    AuthorIssues,
    /// A standing vote that counts rejects the revision.
    Rejected,
    /// Fewer approvals count than are needed.
    ApprovalsShort {
        /// How many approvals count.
        got: u64,
        /// How many are needed.
        need: Need,
    },
    /// An approval with the role security is needed, and none is there.
    SecurityMissing,
    /// The revision is neither open nor issued.
    NotStanding,
    /// The caller is an author of the profile, and adopts.
    AuthorAdopts,
    /// The revision isn't issued.
    NotIssued,
    /// No revision of the profile is issued.
    NothingIssued,
    /// The profile has no revision.
    NoProfile,
    /// The profile to be held is held.
    AlreadyHeld,
    /// The profile isn't held.
    NotHeld,
    /// The profile is held.
    Held,
}

impl Rule {
    /// Its word, as answers name it.
    pub fn word(self) -> &'static str
        ensures { result.now ≡ rule_word self }
    {
        match self {
            Rule::CallerUnknown => "caller-unknown",
            Rule::RoleMissing => "role-missing",
            Rule::OwnRow => "own-row",
            Rule::TeamFixed => "team-fixed",
            Rule::TokenTaken => "token-taken",
            Rule::OtherTeam => "other-team",
            Rule::Document => "document",
            Rule::SameAsOpen => "same-as-open",
            Rule::RevisionsFull => "revisions-full",
            Rule::NoRevision => "no-revision",
            Rule::AuthorVotes => "author-votes",
            Rule::NotOpen => "not-open",
            Rule::OtherBytes => "other-bytes",
            Rule::AuthorIssues => "author-issues",
            Rule::Rejected => "rejected",
            Rule::ApprovalsShort { .. } => "approvals-short",
            Rule::SecurityMissing => "security-missing",
            Rule::NotStanding => "not-standing",
            Rule::AuthorAdopts => "author-adopts",
            Rule::NotIssued => "not-issued",
            Rule::NothingIssued => "nothing-issued",
            Rule::NoProfile => "no-profile",
            Rule::AlreadyHeld => "already-held",
            Rule::NotHeld => "not-held",
            Rule::Held => "held",
        }
    }
}

/// The first rule that refuses a request.
#[derive(Clone, Copy)]
pub struct Denial {
    /// The place of the rule among those of its request, from 1.
    pub number: u8,
    /// The rule.
    pub rule: Rule,
}

impl Denial {
    /// The denial by the rule that stands first among those of its request.
    pub fn by_first(rule: Rule) -> Denial
        ensures { result ≡ record { number = 1; rule = rule } }
    {
        Denial { number: 1, rule }
    }
}
