//! Laws of histories. Each is a function without a parameter whose contract is the law; it does
//! nothing.

ghost use Rattle.std.specs.Prelude.{◌≡◌, ◌≤◌, ◌↔◌, ◌∷◌, List, ℕ, Some};
ghost use Rattle.office_words.specs.declared.name.ProfileName.{ProfileName};
ghost use Rattle.review_policy.specs.declared.ask.Request.{Request};
ghost use Rattle.office_words.specs.Limits.{max_revisions};
ghost use Rattle.office_words.specs.declared.listed.Tally.{Tally};
ghost use Rattle.office_words.specs.declared.row.RevisionRow.{RevisionRow};
ghost use Rattle.office_words.specs.Lists.{IsTally};
ghost use Rattle.review_sheet.specs.Sheet.{need_at as sheet_need};
ghost use Rattle.office_policy.specs.History.{Event, History};
ghost use Rattle.office_policy.specs.Revisions.{revision_of, revision_count};
ghost use Rattle.office_policy.specs.Votes.{tally_at};
ghost use Rattle.office_policy.specs.Need.{need_at};
ghost use Rattle.office_policy.specs.Sheets.{sheet_of};
ghost use Rattle.office_policy.specs.TablesOf.{tables_of};
ghost use Rattle.office_policy.specs.Lawful.{IsLawfulHistory, IsAllowed, IsRequested};
ghost use Rattle.office_policy.specs.Lawful.{IsHistoryOfRequests, AllHadTokens};
ghost use Rattle.office_policy.specs.Laws.{AreApart, KeepsTeams, KeepsSubmissions, NumbersRun};
ghost use Rattle.office_policy.specs.Laws.{OpenIsLast, OneIssued, IsDecided, ListsInOrder, ListsAll};

/// No two users show one digest.
pub fn digests_are_apart()
    ensures { (h : History) → IsLawfulHistory h → AreApart h }
{}

/// A user's team never changes.
pub fn teams_are_kept()
    ensures { (h : History) (e : Event) → IsLawfulHistory (e ∷ h) → KeepsTeams h e }
{}

/// A revision's author and text never change.
pub fn texts_are_kept()
    ensures { (h : History) (e : Event) → KeepsSubmissions h e }
{}

/// The revisions of a profile are numbered from 1 without a gap.
pub fn numbers_run()
    ensures { (h : History) (p : ProfileName) → NumbersRun h p }
{}

/// At most one revision of a profile is open: its last.
pub fn one_revision_is_open()
    ensures { (h : History) (p : ProfileName) → OpenIsLast h p }
{}

/// At most one revision of a profile is issued.
pub fn one_revision_is_issued()
    ensures { (h : History) (p : ProfileName) → OneIssued h p }
{}

/// Each request is refused by a rule, or carried out: no verdict is the one that stands where its
/// rules leave nothing to do.
pub fn every_request_is_judged()
    ensures { (h : History) (request : Request) → IsDecided h request }
{}

/// What happens by an accepted request is allowed, to the user who shows its token.
pub fn accepted_requests_are_allowed()
    ensures { (h : History) (e : Event) → IsRequested h e → IsAllowed h e }
{}

/// The histories of requests with tokens are just the lawful ones in which whoever asked for
/// something had a token to show.
pub fn histories_of_requests_are_lawful_ones_of_tokens()
    ensures { (h : History) → IsHistoryOfRequests h ↔ (IsLawfulHistory h × AllHadTokens h) }
{}

/// The profiles of a team are listed in byte order of their names, each once.
pub fn profiles_are_listed_in_order()
    ensures { (h : History) (team : List ℕ) → ListsInOrder h team }
{}

/// Just those profiles of a team are listed that have a revision.
pub fn each_profile_is_listed()
    ensures { (h : History) (team : List ℕ) → ListsAll h team }
{}

/// No profile has more revisions than there are numbers, 9,999.
pub fn numbers_are_limited()
    ensures { (h : History) (p : ProfileName) → IsLawfulHistory h
        → revision_count h p ≤ max_revisions }
{}

/// The counts of a revision's votes, by the tables that a history leaves, are those of looking
/// back.
pub fn tallies_are_of_the_tables()
    ensures { (h : History) (p : ProfileName) (n : ℕ) (tally : Tally)
        → IsTally (tables_of h) p n tally → tally ≡ tally_at h p n }
{}

/// A sheet gives the need of its revision.
pub fn sheets_tell_the_need()
    ensures { (h : History) (p : ProfileName) (n : ℕ) (r : RevisionRow) → revision_of h p n
        ≡ Some r → sheet_need (sheet_of h p r) ≡ need_at h p n }
{}
