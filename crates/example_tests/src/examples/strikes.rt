//! What becomes of the line of an event that didn't happen.

ghost use Rattle.std.specs.Prelude.{◌≡◌, ◌∷◌, ◌++◌, [], Option, Some, None, false};
ghost use Rattle.no_memory.specs.Witness.{witness};
ghost use Rattle.review_policy.specs.declared.answer.Answer.{Answer};
ghost use Rattle.review_policy.specs.declared.answer.Answer.TheVariants as answers;
ghost use Rattle.review_policy.specs.declared.ask.Request.{Request};
ghost use Rattle.office_words.specs.declared.fault.Fault.TheVariants as faults;
ghost use Rattle.sealed_log.specs.Sealed.{IsBody, sealed_text};
ghost use Rattle.journal.specs.Journals.{HasUnstruck, IsHalfStruck, IsStray, IsTakenBack, IsUndone};
ghost use Rattle.journal.specs.Journals.{with_office};
ghost use Rattle.journal.specs.Lines.{happened, text_of};
ghost use Rattle.office_policy.specs.History.{Event};
ghost use Rattle.example_tests.specs.Examples.{counting, enrols, grown, quiet, shut};
ghost use Rattle.example_tests.specs.JournalExamples.{failing, first_lines, paged, second_lines};
ghost use Rattle.example_tests.specs.JournalExamples.{spoilt, struck_lines, with_bodies, with_shut};
ghost use Rattle.example_tests.specs.JournalExamples.{with_stray, with_unsettled};

/// An event is a stray where its line stays the last one, and the office is what it was.
pub fn examples_of_strays()
    ensures left { (r : Request) → IsStray quiet paged r (with_unsettled second_lines)
        (with_stray second_lines) (answers.Fault (faults.NoMemory witness)) }
    ensures no_stray { (r : Request) (told : Answer) → IsStray quiet paged r
        (with_unsettled second_lines) (with_unsettled second_lines) told → ⊥ }
    ensures struck { (r : Request) (told : Answer) → IsStray quiet paged r
        (with_unsettled second_lines) (with_stray struck_lines) told → ⊥ }
    ensures happened { (r : Request) (told : Answer) → IsStray quiet paged r
        (with_unsettled second_lines) (with_office (with_stray second_lines) (grown 0)) told → ⊥ }
{}

/// An event is taken back where its line is struck out, or where what is told keeps the journal from
/// that; not where nothing was tried, or a fault is forgotten.
pub fn examples_of_events_that_are_taken_back()
    ensures struck { (r : Request) → IsTakenBack quiet paged r (with_unsettled second_lines)
        (with_bodies struck_lines) None }
    ensures half_struck { (r : Request) → IsTakenBack quiet failing r
        (with_unsettled second_lines) (with_shut second_lines)
        (Some (answers.Fault faults.Disk)) }
    ensures stray { (r : Request) → IsTakenBack quiet paged r (with_unsettled second_lines)
        (with_stray second_lines) (Some (answers.Fault (faults.NoMemory witness))) }
    ensures untried { (r : Request) (told : Option Answer) → IsTakenBack quiet paged r
        (with_unsettled second_lines) (with_unsettled second_lines) told → ⊥ }
    ensures unstruck { (r : Request) → IsTakenBack quiet paged r (with_unsettled second_lines)
        (with_stray second_lines) None → ⊥ }
    ensures uncalled { (r : Request) → IsTakenBack quiet paged r (with_unsettled second_lines)
        (with_stray second_lines) (Some (answers.Fault faults.Disk)) → ⊥ }
    ensures untold { (r : Request) → IsTakenBack quiet failing r (with_unsettled second_lines)
        (with_shut second_lines) None → ⊥ }
    ensures other_call { (r : Request) → IsTakenBack quiet failing r
        (with_unsettled second_lines) (with_shut second_lines)
        (Some (answers.Fault faults.Full)) → ⊥ }
    ensures fault_of_the_office { (r : Request) (told : Option Answer) → IsTakenBack quiet paged r
        (with_office (with_unsettled second_lines) (counting 1)) (with_bodies struck_lines) told
        → ⊥ }
    ensures fault_of_the_journal { (r : Request) (told : Option Answer) → IsTakenBack quiet failing
        r (with_shut second_lines) (with_bodies struck_lines) told → ⊥ }
    ensures unclean { (r : Request) (told : Option Answer) → IsTakenBack quiet spoilt r
        (with_shut second_lines) (with_bodies struck_lines) told → ⊥ }
{}

/// A fault that kept an event from being written down is that of the journal's call.
pub fn examples_of_events_that_are_not_written()
    ensures disk { (r : Request) → IsUndone quiet failing r (with_stray first_lines)
        (with_shut first_lines) enrols faults.Disk None }
    ensures other_call { (r : Request) → IsBody (text_of (happened enrols))
        → IsUndone quiet failing r (with_stray first_lines) (with_shut first_lines) enrols
        faults.Full None → ⊥ }
    ensures no_call { (r : Request) → IsBody (text_of (happened enrols))
        → IsUndone quiet paged r (with_stray first_lines) (with_stray first_lines) enrols
        faults.Disk None → ⊥ }
{}

/// An event is half struck out where the line of its strike met a fault, and then stays a stray of an
/// office that stands as it did.
pub fn examples_of_events_that_are_half_struck()
    ensures disk { IsHalfStruck quiet failing (with_unsettled second_lines) (with_shut second_lines)
        faults.Disk }
    ensures no_stray { IsHalfStruck quiet failing (with_unsettled second_lines)
        (record (with_shut second_lines) { has_stray = false }) faults.Disk → ⊥ }
    ensures other_call { IsHalfStruck quiet failing (with_unsettled second_lines)
        (with_shut second_lines) faults.Full → ⊥ }
    ensures no_call { IsHalfStruck quiet paged (with_unsettled second_lines)
        (with_stray second_lines) faults.Disk → ⊥ }
    ensures office_shut { IsHalfStruck quiet failing (with_unsettled second_lines)
        (with_office (with_shut second_lines) (shut 0)) faults.Disk → ⊥ }
{}

/// A file has an event unstruck where its line is the last one, or a part of what strikes it out stands
/// behind that; not where its line isn't there.
pub fn examples_of_events_that_are_unstruck()
    ensures nothing { HasUnstruck enrols (sealed_text second_lines) }
    ensures part { HasUnstruck enrols (sealed_text second_lines ++ 0 ∷ []) }
    ensures whole { HasUnstruck enrols (sealed_text struck_lines) }
    ensures no_line { (e : Event) → HasUnstruck e [] → ⊥ }
    ensures other_bytes { (e : Event) → HasUnstruck e (0 ∷ []) → ⊥ }
{}
