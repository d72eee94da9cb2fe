//! Laws of the issued revision. Each is a function without a parameter whose contract is the law;
//! it does nothing.

ghost use Rattle.std.specs.Prelude.{◌≡◌, Option};
ghost use Rattle.office_words.specs.declared.name.ProfileName.{ProfileName};
ghost use Rattle.office_words.specs.declared.row.RevisionRow.{RevisionRow};
ghost use Rattle.office_words.specs.Reads.{IsIssued};
ghost use Rattle.office_policy.specs.History.{History};
ghost use Rattle.office_policy.specs.Revisions.{issued_revision};
ghost use Rattle.office_policy.specs.TablesOf.{tables_of};

/// The revision that the tables of a history have as issued, if any, is that of the newest issue of
/// its profile.
pub fn the_issued_revision_is_of_the_newest_issue()
    ensures { (h : History) (p : ProfileName) (found : Option RevisionRow)
        → IsIssued (tables_of h) p found → found ≡ issued_revision h p }
{}
