//! What is done to revisions and profiles, and what is seen of them.

ghost use Rattle.std.specs.Prelude.{◌≡◌};
ghost use Rattle.review_policy.specs.Acts.{effect_of, holds, profile_act_of, profile_act_word};
ghost use Rattle.review_policy.specs.Acts.{profile_view_of, profile_view_word};
ghost use Rattle.review_policy.specs.Acts.{revision_act_of, revision_act_word};
ghost use Rattle.review_policy.specs.Acts.{revision_view_of, revision_view_word};

/// What is done to a revision.
#[derive(Clone, Copy)]
pub enum RevisionAct {
    /// It is issued to hosts.
    Issue,
    /// It is taken back.
    Withdraw,
    /// It becomes the baseline of its team.
    Adopt,
}

/// What an act on a revision does to it: the effect.
#[derive(Clone, Copy)]
pub enum Effect {
    /// The revision is issued, and replaces the issued one of its profile.
    Issues,
    /// The revision is taken back.
    Withdraws,
    /// The revision becomes the baseline of its team.
    Adopts,
}

/// What is seen of a revision.
#[derive(Clone, Copy)]
pub enum RevisionView {
    /// Its text.
    Show,
    /// Its review sheet.
    Sheet,
}

/// What is done to a profile.
#[derive(Clone, Copy)]
pub enum ProfileAct {
    /// It is held back from being issued and fetched.
    Hold,
    /// It is no longer held.
    Release,
}

/// What is seen of a profile.
#[derive(Clone, Copy)]
pub enum ProfileView {
    /// What was issued of it.
    Fetch,
    /// Which revision a fetch would give, without its text.
    Issued,
}

impl RevisionAct {
    /// Its word, as requests and journals name it.
    pub fn word(self) -> &'static str
        ensures { result.now ≡ revision_act_word self }
    {
        match self {
            RevisionAct::Issue => "issue",
            RevisionAct::Withdraw => "withdraw",
            RevisionAct::Adopt => "adopt",
        }
    }

    /// The act of this word; `None` where it is no act's.
    pub fn from_word(text: &str) -> Option<RevisionAct>
        ensures { result ≡ revision_act_of text.now }
    {
        match text {
            "issue" => Some(RevisionAct::Issue),
            "withdraw" => Some(RevisionAct::Withdraw),
            "adopt" => Some(RevisionAct::Adopt),
            _ => None,
        }
    }

    /// Its effect.
    pub fn effect(self) -> Effect
        ensures { result ≡ effect_of self }
    {
        match self {
            RevisionAct::Issue => Effect::Issues,
            RevisionAct::Withdraw => Effect::Withdraws,
            RevisionAct::Adopt => Effect::Adopts,
        }
    }
}

impl RevisionView {
    /// Its word, as requests name it.
    pub fn word(self) -> &'static str
        ensures { result.now ≡ revision_view_word self }
    {
        match self {
            RevisionView::Show => "show",
            RevisionView::Sheet => "sheet",
        }
    }

    /// The view of this word; `None` where it is no view's.
    pub fn from_word(text: &str) -> Option<RevisionView>
        ensures { result ≡ revision_view_of text.now }
    {
        match text {
            "show" => Some(RevisionView::Show),
            "sheet" => Some(RevisionView::Sheet),
            _ => None,
        }
    }
}

impl ProfileAct {
    /// Its word, as requests and journals name it.
    pub fn word(self) -> &'static str
        ensures { result.now ≡ profile_act_word self }
    {
        match self {
            ProfileAct::Hold => "hold",
            ProfileAct::Release => "release",
        }
    }

    /// The act of this word; `None` where it is no act's.
    pub fn from_word(text: &str) -> Option<ProfileAct>
        ensures { result ≡ profile_act_of text.now }
    {
        match text {
            "hold" => Some(ProfileAct::Hold),
            "release" => Some(ProfileAct::Release),
            _ => None,
        }
    }

    /// Whether the profile is held after it.
    pub fn holds(self) -> bool
        ensures { result ≡ holds self }
    {
        matches!(self, ProfileAct::Hold)
    }
}

impl ProfileView {
    /// Its word, as requests name it.
    pub fn word(self) -> &'static str
        ensures { result.now ≡ profile_view_word self }
    {
        match self {
            ProfileView::Fetch => "fetch",
            ProfileView::Issued => "issued",
        }
    }

    /// The view of this word; `None` where it is no view's.
    pub fn from_word(text: &str) -> Option<ProfileView>
        ensures { result ≡ profile_view_of text.now }
    {
        match text {
            "fetch" => Some(ProfileView::Fetch),
            "issued" => Some(ProfileView::Issued),
            _ => None,
        }
    }
}
