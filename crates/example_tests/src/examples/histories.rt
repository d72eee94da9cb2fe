//! Why the history of a journal isn't written.

ghost use Rattle.std.specs.Prelude.{◌∷◌, [], None, Some};
ghost use Rattle.sqlite.specs.Held.{Held};
ghost use Rattle.no_memory.specs.Witness.{witness};
ghost use Rattle.review_office.specs.Meant.{meaning_over};
ghost use Rattle.journal_faults.specs.declared.refused.Why.TheVariants.{NotFounded};
ghost use Rattle.journal_faults.specs.declared.unwritten.Unwritten.TheVariants.{NoMemory, Refused, Write};
ghost use Rattle.journal_reports.specs.History.{IsUnwritten};
ghost use Rattle.example_tests.specs.JournalExamples.{all_asked, one, refused_at, two};

use sqlite::Alter;

/// By a journal with no line no office is founded, and nothing is written. That is told of no line.
pub fn examples_of_histories_of_no_office<S: Alter>()
    ensures nothing { (conn left : Held S)
        → IsUnwritten (Some []) all_asked (Some one) (Some one) S.Store conn left
        (Refused (refused_at 0 NotFounded)) }
    ensures of_a_line { (conn left : Held S)
        → IsUnwritten (Some []) all_asked (Some one) (Some one) S.Store conn left
        (Refused (refused_at 1 NotFounded)) → ⊥ }
    ensures something { (conn left : Held S)
        → IsUnwritten (Some []) all_asked (Some []) (Some one) S.Store conn left
        (Refused (refused_at 0 NotFounded)) → ⊥ }
{}

/// Where the writer fails, or memory is refused, what was written before stays in front.
pub fn examples_of_histories_cut_short<S: Alter>()
    ensures at_the_writer { (conn left : Held S) → (meaning_over S.Store).is_clean left
        → IsUnwritten (Some []) all_asked (Some one) (Some two) S.Store conn left Write → ⊥ }
    ensures for_memory { (conn left : Held S) → (meaning_over S.Store).is_clean left
        → IsUnwritten (Some []) all_asked (Some one) (Some two) S.Store conn left
        (NoMemory witness) → ⊥ }
{}
