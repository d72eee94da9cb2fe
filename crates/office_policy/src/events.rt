//! Laws of changes: what a write makes of the tables of a history are the tables of the history
//! with its event. Each is a function without a parameter whose contract is the law; it does
//! nothing.

ghost use Rattle.std.specs.Prelude.{◌≡◌, ◌∷◌, [], List, ℕ, Bool, true, suc, None};
ghost use Rattle.profile_text.specs.Digest.{digest_of};
ghost use Rattle.review_policy.specs.declared.act.Effect.TheVariants.{Issues, Withdraws, Adopts};
ghost use Rattle.review_policy.specs.declared.act.ProfileAct.{ProfileAct};
ghost use Rattle.review_policy.specs.declared.act.ProfileAct.TheVariants.{Hold, Release};
ghost use Rattle.review_policy.specs.declared.act.RevisionAct.{RevisionAct};
ghost use Rattle.office_words.specs.declared.name.ProfileName.{ProfileName};
ghost use Rattle.office_words.specs.declared.role.Role.TheVariants.{Security};
ghost use Rattle.review_policy.specs.Acts.{effect_of};
ghost use Rattle.review_policy.specs.Rules.{is_open};
ghost use Rattle.office_words.specs.Lists.{holds_role};
ghost use Rattle.office_words.specs.Changes.{founded_tables, with_user, with_revision, with_vote};
ghost use Rattle.office_words.specs.Changes.{with_issued, with_withdrawn, with_baseline};
ghost use Rattle.office_words.specs.Changes.{with_hold, without_hold};
ghost use Rattle.office_words.specs.Reads.{submitted as new_revision};
ghost use Rattle.office_words.specs.Tables.{Tables};
ghost use Rattle.office_policy.specs.History.{History, founded, enrolled, submitted, voted};
ghost use Rattle.office_policy.specs.History.{on_revision, on_profile};
ghost use Rattle.office_policy.specs.Holds.{with_act};
ghost use Rattle.office_policy.specs.Users.{user_of, registrar_alone};
ghost use Rattle.office_policy.specs.Revisions.{revision_of, revision_count, state_in};
ghost use Rattle.office_policy.specs.TablesOf.{tables_of};
ghost use Rattle.office_policy.specs.Lawful.{IsLawfulHistory};

/// The tables of a new office are those of its founding: its first user, who is registrar and no
/// more, and the listed capabilities.
pub fn a_founding_makes_the_first_tables()
    ensures { (name team digest : List ℕ) (listed : ℕ)
        → founded_tables
        (record { name = name; team = team; roles = registrar_alone; digest = digest }) listed
        ≡ tables_of (founded name team digest listed ∷ []) }
{}

/// An enrolment puts a user's row in the place of any of that name.
pub fn an_enrolment_puts_a_user()
    ensures { (h : History) (caller name team : List ℕ) (roles : ℕ) (digest : List ℕ)
        → with_user (record { name = name; team = team; roles = roles; digest = digest })
        (tables_of h)
        ≡ tables_of (enrolled caller name team roles digest ∷ h) }
{}

/// A submission adds the next revision of its profile, open, and closes the one that was open.
pub fn a_submission_adds_a_revision()
    ensures { (h : History) → IsLawfulHistory h
        → (caller : List ℕ) (p : ProfileName) (text : List ℕ)
        → with_revision p (new_revision (suc (revision_count h p)) caller text (digest_of text))
        (tables_of h)
        ≡ tables_of (submitted caller p text ∷ h) }
{}

/// No revision has the number of the next submission.
pub fn the_next_number_is_free()
    ensures { (h : History) (p : ProfileName) → revision_of h p (suc (revision_count h p)) ≡ None }
{}

/// A vote is kept in the place of any earlier one of that voter on the revision, with whether the
/// voter holds security at it.
pub fn a_vote_is_put()
    ensures { (h : History) (caller : List ℕ) (p : ProfileName) (n : ℕ) (digest : List ℕ)
        (approves : Bool) → with_vote p n caller
        (record { approves = approves; security = holds_role (user_of h caller) Security })
        (tables_of h)
        ≡ tables_of (voted caller p n digest approves ∷ h) }
{}

/// An issue of an open revision makes it issued, and replaces the issued one of its profile. So does
/// every act that issues.
pub fn an_issue_replaces_the_issued_one()
    ensures { (h : History) (caller : List ℕ) (act : RevisionAct) (p : ProfileName) (n : ℕ)
        → effect_of act ≡ Issues → is_open (state_in (revision_of h p n)) ≡ true
        → with_issued p n (tables_of h) ≡ tables_of (on_revision caller act p n ∷ h) }
{}

/// A withdrawal makes its revision withdrawn, and changes no other. So does every act that
/// withdraws.
pub fn a_withdrawal_withdraws_one_revision()
    ensures { (h : History) (caller : List ℕ) (act : RevisionAct) (p : ProfileName) (n : ℕ)
        → effect_of act ≡ Withdraws
        → with_withdrawn p n (tables_of h) ≡ tables_of (on_revision caller act p n ∷ h) }
{}

/// An adoption puts the team's baseline in the place of any earlier one. So does every act that
/// adopts.
pub fn an_adoption_puts_the_baseline()
    ensures { (h : History) (caller : List ℕ) (act : RevisionAct) (p : ProfileName) (n : ℕ)
        → effect_of act ≡ Adopts
        → with_baseline p n (tables_of h) ≡ tables_of (on_revision caller act p n ∷ h) }
{}

/// An act on a profile holds it or releases it, and no other.
pub fn an_act_on_a_profile_is_of_its_hold()
    ensures put { (h : History) (caller : List ℕ) (act : ProfileAct) (p : ProfileName)
        → with_act act p (tables_of h) ≡ tables_of (on_profile caller act p ∷ h) }
    ensures hold { (p : ProfileName) (t : Tables) → with_act Hold p t ≡ with_hold p t }
    ensures release { (p : ProfileName) (t : Tables) → with_act Release p t ≡ without_hold p t }
{}
