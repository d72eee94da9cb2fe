//! Revisions of a profile and the votes on them.

ghost use Rattle.std.specs.Prelude.{◌≡◌};
ghost use Rattle.office_words.specs.WordTables.{state_word};

use crate::word::Word;

/// The greatest number of revisions of a profile.
pub const MAX_REVISIONS: u32 = 9_999;

/// The greatest number of revisions in one list of a profile's revisions.
pub const MAX_LISTED: usize = 100;

/// Where a revision stands.
#[derive(Clone, Copy)]
pub enum State {
    /// The last submission of its profile, on which reviewers may vote.
    Open,
    /// A later submission took its place before it was issued.
    Closed,
    /// What machines of its team fetch, unless its profile is held.
    Issued,
    /// It was issued, and a later revision was issued after it.
    Replaced,
    /// It was taken back.
    Withdrawn,
}

impl State {
    /// Its word, as answers and sheets name it.
    pub fn word(self) -> &'static str
        ensures { result.now ≡ state_word self }
    {
        match self {
            State::Open => "open",
            State::Closed => "closed",
            State::Issued => "issued",
            State::Replaced => "replaced",
            State::Withdrawn => "withdrawn",
        }
    }
}

/// The standing vote of a user on a revision.
#[derive(Drop)]
pub struct VoteRow {
    /// Who voted.
    pub voter: Word,
    /// Whether the vote approves; else it rejects.
    pub approve: bool,
    /// Whether it counts, and the voter held the role security at the vote and holds it now.
    pub security: bool,
    /// Whether the voter is a reviewer now; else the vote has lapsed.
    pub counts: bool,
}

impl VoteRow {
    ghost use Rattle.office_words.specs.Votes.{is_approval, is_rejection};

    /// Whether it counts and approves.
    pub fn is_approval(&self) -> bool
        ensures { result ≡ is_approval self.now }
    {
        self.counts && self.approve
    }

    /// Whether it counts and rejects.
    pub fn is_rejection(&self) -> bool
        ensures { result ≡ is_rejection self.now }
    {
        self.counts && !self.approve
    }
}
