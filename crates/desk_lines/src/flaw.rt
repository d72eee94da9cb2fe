//! What is wrong with a line that is no request.

ghost use Rattle.std.specs.Prelude.{◌≡◌, option_map};
ghost use Rattle.desk_lines.specs.Flaws.{flaw_word, member_word};

/// A member of a request's line, besides `ask`.
#[derive(Clone, Copy)]
pub enum Member {
    Token,
    User,
    Team,
    Roles,
    Digest,
    Profile,
    Document,
    Revision,
    Vote,
    Before,
}

/// What is wrong with a line that is JSON and no request.
#[derive(Clone, Copy)]
pub enum Flaw {
    /// It is no object.
    NoObject,
    /// Its `ask` is missing, is no text, or is the word of no kind.
    NoKind,
    /// It has a member that lines of its kind don't have.
    Unknown,
    /// This member is missing, or isn't of its form.
    Member(Member),
}

impl Member {
    /// Its name.
    pub fn word(self) -> &'static str
        ensures { result.now ≡ member_word self }
    {
        match self {
            Member::Token => "token",
            Member::User => "user",
            Member::Team => "team",
            Member::Roles => "roles",
            Member::Digest => "digest",
            Member::Profile => "profile",
            Member::Document => "document",
            Member::Revision => "revision",
            Member::Vote => "vote",
            Member::Before => "before",
        }
    }
}

impl Flaw {
    /// What is named of it: the member, or `unknown-member`; nothing of what is no object.
    pub fn word(self) -> Option<&'static str>
        ensures { option_map (λ word. word.now) result ≡ flaw_word self }
    {
        match self {
            Flaw::NoObject => None,
            Flaw::NoKind => Some("ask"),
            Flaw::Unknown => Some("unknown-member"),
            Flaw::Member(part) => Some(part.word()),
        }
    }
}
