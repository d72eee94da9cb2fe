//! When an office is the one of a journal.

ghost use Rattle.std.specs.Prelude.{◌≡◌, ℕ, List, [], ◌∷◌, Some, None, false};
ghost use Rattle.sqlite.specs.Held.{Held, state};
ghost use Rattle.office_policy.specs.Handled.{Stands};
ghost use Rattle.office_policy.specs.TablesOf.{tables_of};
ghost use Rattle.office_store.specs.Shown.{Shows, office_row};
ghost use Rattle.review_office.specs.Meant.{meaning_over};
ghost use Rattle.journal_verification.specs.KeptSeals.{HaveSeal};
ghost use Rattle.journal_faults.specs.declared.difference.Difference.TheVariants as difference;
ghost use Rattle.journal_verification.specs.Verified.{HasOtherSeal, IsAhead, IsOther, IsVerified};
ghost use Rattle.example_tests.specs.Examples.{founding};
ghost use Rattle.example_tests.specs.JournalExamples.{first_line, first_text, kept_seal, verified};

use sqlite::Alter;

/// Lines have the seal that was kept of so many of them.
pub fn examples_of_kept_seals()
    ensures none_kept { HaveSeal None [] }
    ensures same { HaveSeal (Some (kept_seal 1 first_line)) first_line }
    ensures none_before { HaveSeal (Some (kept_seal 0 [])) first_line }
    ensures more_lines { HaveSeal (Some (kept_seal 2 first_line)) first_line → ⊥ }
    ensures no_seal { HaveSeal (Some (record { line = 1; seal = [] })) first_line → ⊥ }
{}

/// An office is verified with the seal, the lines and the number of events of its own journal, and
/// with no other; nor under a mark above its lines, or where it was shut.
pub fn examples_of_verified_offices<S: Alter>()
    ensures own { (office : Held S) → Shows (state S.Store office) (tables_of founding)
        → Stands (meaning_over S.Store) founding office
        → IsVerified (Some first_text) S.Store None 1 office (verified 1 1) }
    ensures kept { (office : Held S) → Shows (state S.Store office) (tables_of founding)
        → Stands (meaning_over S.Store) founding office
        → IsVerified (Some first_text) S.Store (Some (kept_seal 1 first_line)) 0 office
        (verified 1 1) }
    ensures more_events { (office : Held S)
        → IsVerified (Some first_text) S.Store None 1 office (verified 2 1) → ⊥ }
    ensures more_lines { (office : Held S)
        → IsVerified (Some first_text) S.Store None 1 office (verified 1 2) → ⊥ }
    ensures no_seal { (office : Held S) → IsVerified (Some first_text) S.Store None 1 office
        (record { events = 1; seal = []; lines = 1 }) → ⊥ }
    ensures mark_above { (office : Held S)
        → IsVerified (Some first_text) S.Store None 2 office (verified 1 1) → ⊥ }
    ensures other_kept { (office : Held S) → IsVerified (Some first_text) S.Store
        (Some (kept_seal 2 first_line)) 1 office (verified 1 1) → ⊥ }
    ensures other_office { (office : Held S)
        → (state S.Store office).now.trees 0 ≡ office_row 6 ∷ []
        → IsVerified (Some first_text) S.Store None 1 office (verified 1 1) → ⊥ }
    ensures shut { (office : Held S) → (state S.Store office).is_open ≡ false
        → IsVerified (Some first_text) S.Store None 1 office (verified 1 1) → ⊥ }
    ensures no_journal { (office : Held S)
        → IsVerified (Some []) S.Store None 0 office (verified 0 0) → ⊥ }
{}

/// Lines have another seal than the one that was kept where they are fewer than it is of.
pub fn examples_of_other_seals()
    ensures too_few { HasOtherSeal (Some first_text) (Some (kept_seal 2 first_line)) }
    ensures own { HasOtherSeal (Some first_text) (Some (kept_seal 1 first_line)) → ⊥ }
    ensures none_kept { HasOtherSeal (Some first_text) None → ⊥ }
{}

/// A mark is ahead of the office's own journal where it is above the number of its lines.
pub fn examples_of_marks_ahead<S: Alter>()
    ensures above { (office : Held S) → Shows (state S.Store office) (tables_of founding)
        → IsAhead (Some first_text) S.Store 2 office }
    ensures not_above { (office : Held S) → IsAhead (Some first_text) S.Store 1 office → ⊥ }
    ensures other_office { (office : Held S)
        → (state S.Store office).now.trees 0 ≡ office_row 6 ∷ []
        → IsAhead (Some first_text) S.Store 2 office → ⊥ }
    ensures shut { (office : Held S) → (state S.Store office).is_open ≡ false
        → IsAhead (Some first_text) S.Store 2 office → ⊥ }
{}

/// An office that shows the tables of its journal doesn't differ from it at a key.
pub fn examples_of_no_difference<S: Alter>()
    ensures listed { (office : Held S) → Shows (state S.Store office) (tables_of founding)
        → IsOther (Some first_text) S.Store S.Store office difference.Office → ⊥ }
    ensures user { (office : Held S) (name : List ℕ)
        → Shows (state S.Store office) (tables_of founding)
        → IsOther (Some first_text) S.Store S.Store office (difference.User name) → ⊥ }
    ensures line { (office : Held S) → Shows (state S.Store office) (tables_of founding)
        → IsOther (Some first_text) S.Store S.Store office difference.Line → ⊥ }
{}
