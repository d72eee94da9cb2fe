//! Laws of listings. Each is a function without a parameter whose contract is the law; it does
//! nothing.

ghost use Rattle.std.specs.Prelude.{◌≡◌, ◌<◌, ◌==◌, suc, List, ℕ, Some, None, find, AllPairs};
ghost use Rattle.office_words.specs.declared.name.ProfileName.{ProfileName};
ghost use Rattle.office_words.specs.Limits.{max_revisions};
ghost use Rattle.office_words.specs.Lists.{AreRevisionsOf, AreBelow};
ghost use Rattle.office_words.specs.declared.listed.ListedRevision.{ListedRevision};
ghost use Rattle.office_words.specs.declared.row.RevisionRow.{RevisionRow};
ghost use Rattle.office_policy.specs.History.{History};
ghost use Rattle.office_policy.specs.Lawful.{IsLawfulHistory};
ghost use Rattle.office_policy.specs.Listing.{listing_of};
ghost use Rattle.office_policy.specs.Newest.{revisions_of, revisions_before};
ghost use Rattle.office_policy.specs.Revisions.{revision_of};
ghost use Rattle.office_policy.specs.TablesOf.{tables_of};
ghost use Rattle.office_policy.specs.Grouped.{profiles_in};

/// The profiles of the revisions of a team, in the tables of a history, are those that looking back
/// over it lists.
pub fn the_profiles_of_the_revisions_are_listed()
    ensures { (h : History) (team : List ℕ) (rows : List ListedRevision)
        → AreRevisionsOf (tables_of h) team rows
        → profiles_in rows ≡ listing_of h team }
{}

/// The revisions of a profile are listed by falling numbers, and under each number just the revision
/// that has it, with its author, its state and its text.
pub fn each_revision_is_listed()
    ensures falling { (h : History) (p : ProfileName)
        → AllPairs (λ (a b : RevisionRow). b.number < a.number) (revisions_of h p) }
    ensures each { (h : History) (p : ProfileName) (n : ℕ)
        → find (λ r. n == r.number) (revisions_of h p) ≡ revision_of h p n }
{}

/// The revisions below a number, in the tables of a history, are those that looking back over it
/// lists before that number; before 10,000 they are all.
pub fn the_revisions_below_a_number_are_listed()
    ensures below { (h : History) (p : ProfileName) (n : ℕ) (rows : List RevisionRow)
        → AreBelow (tables_of h) p n rows → rows ≡ revisions_before h p (Some n) }
    ensures all { (h : History) → IsLawfulHistory h → (p : ProfileName)
        → revisions_before h p (Some (suc max_revisions)) ≡ revisions_before h p None }
{}
