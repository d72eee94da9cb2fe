//! Laws of reads: what a read of the tables of a history finds is what looking back over it gives.
//! Each is a function without a parameter whose contract is the law; it does nothing.

ghost use Rattle.std.specs.Prelude.{◌≡◌, ◌==◌, ◌↔◌, List, ℕ, Bool, true, not, Option};
ghost use Rattle.office_words.specs.declared.name.ProfileName.{ProfileName};
ghost use Rattle.office_words.specs.declared.row.UserRow.{UserRow};
ghost use Rattle.office_words.specs.declared.row.RevisionRow.{RevisionRow};
ghost use Rattle.office_words.specs.Reads.{IsUserShowing, IsLast, HasRevision};
ghost use Rattle.office_words.specs.Lists.{IsAuthor};
ghost use Rattle.office_policy.specs.History.{History};
ghost use Rattle.office_policy.specs.Users.{user_showing};
ghost use Rattle.office_policy.specs.Revisions.{last_revision, number_of, revision_count};
ghost use Rattle.office_policy.specs.Revisions.{is_author};
ghost use Rattle.office_policy.specs.TablesOf.{tables_of};
ghost use Rattle.office_policy.specs.Lawful.{IsLawfulHistory};

/// The user who shows a digest is the one that looking back finds, and where looking back finds
/// none there is none.
pub fn one_user_shows_a_digest()
    ensures { (h : History) → IsLawfulHistory h → (digest : List ℕ) (user : Option UserRow)
        → IsUserShowing (tables_of h) digest user → user ≡ user_showing h digest }
{}

/// The last revision of a profile is the one with the number of its submissions.
pub fn the_last_revision_is_the_last_submission()
    ensures revision { (h : History) (p : ProfileName) (last : Option RevisionRow)
        → IsLast (tables_of h) p last → last ≡ last_revision h p }
    ensures number { (h : History) (p : ProfileName) (last : Option RevisionRow)
        → IsLast (tables_of h) p last → number_of last ≡ revision_count h p }
{}

/// A name is that of a revision's author just where it has submitted to the profile.
pub fn authors_are_those_who_submitted()
    ensures { (h : History) (p : ProfileName) (name : List ℕ) (is : Bool)
        → ((is ≡ true) ↔ IsAuthor (tables_of h) p name) → is ≡ is_author h p name }
{}

/// A profile has a revision just where something was submitted to it.
pub fn a_submitted_profile_has_a_revision()
    ensures { (h : History) (p : ProfileName) (found : Bool)
        → ((found ≡ true) ↔ HasRevision (tables_of h) p) → found ≡ not (revision_count h p == 0) }
{}
