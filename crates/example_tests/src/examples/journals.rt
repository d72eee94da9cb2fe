//! What an office keeps of its journal, and what lines say.

ghost use Rattle.std.specs.Prelude.{◌≡◌, ℕ, List, [], ◌∷◌, Option, Some, None, Ok, Err};
ghost use Rattle.review_policy.specs.declared.answer.Answer.TheVariants.{Done, Denied, Fault};
ghost use Rattle.review_policy.specs.declared.answer.Reply.{Reply};
ghost use Rattle.review_policy.specs.declared.denial.Denial.{Denial};
ghost use Rattle.office_words.specs.declared.fault.Fault.{Fault as TheFault};
ghost use Rattle.office_words.specs.declared.fault.Fault.TheVariants as faults;
ghost use Rattle.office_policy.specs.Handled.{AddsBy};
ghost use Rattle.office_policy.specs.Meaning.{entry_of, no_entry, struck_entry_of};
ghost use Rattle.office_policy.specs.Verdict.{Verdict, accepted};
ghost use Rattle.journal.specs.Journal.{history_in};
ghost use Rattle.journal.specs.Journals.{Adds, Grows, HasSettled, IsSettled, KeepsJournal};
ghost use Rattle.journal.specs.Journals.{with_office};
ghost use Rattle.journal.specs.declared.journaled.Journaled.{Journaled};
ghost use Rattle.journal.specs.Lines.{happened, strike, done, text_of};
ghost use Rattle.example_tests.specs.Examples.{Sketch, counting, enrols, enrolment, founds};
ghost use Rattle.example_tests.specs.Examples.{founding, grown, quiet};
ghost use Rattle.example_tests.specs.JournalExamples.{Pages, failing, first_line, first_lines};
ghost use Rattle.example_tests.specs.JournalExamples.{one, two, paged, second_lines, with_bodies};
ghost use Rattle.example_tests.specs.JournalExamples.{with_shut, with_stray, with_unsettled};
ghost use Rattle.no_memory.specs.Witness.{witness};

/// A journal that goes on has the lines that it had, and behind them events that are struck out,
/// each with the line before it that settles one that isn't.
pub fn examples_of_kept_journals()
    ensures same { KeepsJournal quiet paged (with_bodies (one ∷ two ∷ []))
        (with_bodies (one ∷ two ∷ [])) }
    ensures struck { KeepsJournal quiet paged (with_bodies (one ∷ []))
        (with_bodies (one ∷ text_of (happened enrols) ∷ text_of strike ∷ [])) }
    ensures settled { KeepsJournal quiet paged (with_bodies (one ∷ []))
        (with_bodies
        (one ∷ text_of (done 1) ∷ text_of (happened enrols) ∷ text_of strike ∷ [])) }
    ensures ended { KeepsJournal quiet paged (with_bodies (one ∷ [])) (with_stray []) }
    ensures missing { KeepsJournal quiet paged (with_bodies (one ∷ two ∷ []))
        (with_bodies (one ∷ [])) → ⊥ }
    ensures changed { KeepsJournal quiet paged (with_bodies (one ∷ [])) (with_bodies (two ∷ []))
        → ⊥ }
    ensures swapped { KeepsJournal quiet paged (with_bodies (one ∷ two ∷ []))
        (with_bodies (two ∷ one ∷ [])) → ⊥ }
    ensures unstruck { KeepsJournal quiet paged (with_bodies (one ∷ []))
        (with_bodies (one ∷ text_of (happened enrols) ∷ [])) → ⊥ }
    ensures strike_alone { KeepsJournal quiet paged (with_bodies (one ∷ []))
        (with_bodies (one ∷ text_of strike ∷ [])) → ⊥ }
    ensures ended_before { KeepsJournal quiet paged (with_stray (one ∷ []))
        (with_bodies (one ∷ [])) → ⊥ }
{}

/// One entry is written down: no line, that of an event, or that and its strike; and before them the
/// line that settles the last event, where none does. No more, no less, and no other.
pub fn examples_of_what_is_written_down()
    ensures nothing { Adds quiet paged no_entry (with_bodies (one ∷ [])) (with_bodies (one ∷ [])) }
    ensures event { Adds quiet paged (entry_of enrols) (with_bodies (one ∷ []))
        (with_bodies (one ∷ text_of (happened enrols) ∷ [])) }
    ensures settled { Adds quiet paged (entry_of enrols) (with_unsettled (one ∷ []))
        (with_bodies (one ∷ text_of (done 1) ∷ text_of (happened enrols) ∷ [])) }
    ensures struck { Adds quiet paged (struck_entry_of enrols) (with_bodies (one ∷ []))
        (with_bodies (one ∷ text_of (happened enrols) ∷ text_of strike ∷ [])) }
    ensures ended { Adds quiet paged no_entry (with_bodies (one ∷ [])) (with_stray []) }
    ensures more_than_nothing { Adds quiet paged no_entry (with_bodies (one ∷ []))
        (with_bodies (one ∷ text_of (happened enrols) ∷ text_of strike ∷ [])) → ⊥ }
    ensures not_settled { Adds quiet paged (entry_of enrols) (with_unsettled (one ∷ []))
        (with_bodies (one ∷ text_of (happened enrols) ∷ [])) → ⊥ }
    ensures struck_twice { Adds quiet paged (struck_entry_of enrols) (with_bodies (one ∷ []))
        (with_bodies (one ∷ text_of (happened enrols) ∷ text_of strike ∷ text_of (happened enrols)
        ∷ text_of strike ∷ [])) → ⊥ }
    ensures missing { Adds quiet paged no_entry (with_bodies (one ∷ two ∷ []))
        (with_bodies (one ∷ [])) → ⊥ }
    ensures settled_at_once { Adds quiet paged no_entry (with_unsettled (one ∷ []))
        (with_bodies (one ∷ [])) → ⊥ }
    ensures ended_before { Adds quiet paged no_entry (with_stray (one ∷ []))
        (with_bodies (one ∷ [])) → ⊥ }
{}

/// A journal grows where all that it had is there still, in its lines and in what a crash leaves.
pub fn examples_of_journals_that_grow()
    ensures same { Grows quiet paged (with_bodies (one ∷ [])) (with_bodies (one ∷ [])) }
    ensures more { Grows quiet paged (with_bodies (one ∷ [])) (with_bodies (one ∷ two ∷ [])) }
    ensures missing { Grows quiet paged (with_bodies (one ∷ two ∷ [])) (with_bodies (one ∷ [])) → ⊥ }
    ensures changed { Grows quiet paged (with_bodies (one ∷ [])) (with_bodies (two ∷ [])) → ⊥ }
    ensures left_without { Grows quiet paged (with_bodies (one ∷ [])) (with_stray []) → ⊥ }
    ensures ended_before { Grows quiet paged (with_stray (one ∷ [])) (with_bodies (one ∷ [])) → ⊥ }
{}

/// What was done is written down, what was denied isn't, and of a fault only what is struck out.
pub fn examples_of_what_an_answer_adds()
    ensures done { (reply : Reply) → AddsBy quiet (accepted reply (Some enrols)) (Done reply)
        (counting 3) (grown 3) }
    ensures read { (reply : Reply) → AddsBy quiet (accepted reply None) (Done reply)
        (counting 3) (counting 3) }
    ensures fault { (v : Verdict) (f : TheFault) → AddsBy quiet v (Fault f) (counting 3)
        (counting 3) }
    ensures not_done { (reply : Reply) → AddsBy quiet (accepted reply (Some enrols)) (Done reply)
        (counting 3) (counting 3) → ⊥ }
    ensures read_written { (reply : Reply) → AddsBy quiet (accepted reply None) (Done reply)
        (counting 3) (grown 3) → ⊥ }
    ensures denied_written { (v : Verdict) (d : Denial) (told : Option (List ℕ))
        → AddsBy quiet v (Denied d told) (counting 3) (grown 3) → ⊥ }
    ensures fault_written { (v : Verdict) (f : TheFault) → AddsBy quiet v (Fault f) (counting 3)
        (grown 3) → ⊥ }
{}

/// No fault is told that no call met, that of another call, or one where no line is due.
pub fn examples_of_faults_while_settling()
    ensures disk { (new : Journaled Sketch Pages) → IsSettled quiet paged
        (with_unsettled (one ∷ [])) new (Err faults.Disk) → ⊥ }
    ensures room { (new : Journaled Sketch Pages) → IsSettled quiet paged
        (with_unsettled (one ∷ [])) new (Err faults.Full) → ⊥ }
    ensures form { (old new : Journaled Sketch Pages) → IsSettled quiet paged old new
        (Err faults.NotAnOffice) → ⊥ }
    ensures other_call { (new : Journaled Sketch Pages) → IsSettled quiet failing
        (with_unsettled (one ∷ [])) new (Err faults.Full) → ⊥ }
    ensures not_due { (new : Journaled Sketch Pages) (fault : TheFault) → IsSettled quiet failing
        (with_bodies (one ∷ [])) new (Err fault) → ⊥ }
    ensures ended { (new : Journaled Sketch Pages) (fault : TheFault) → IsSettled quiet failing
        (with_stray (one ∷ [])) new (Err fault) → ⊥ }
{}

/// The last event is settled by the line that says that it is carried out, and by no other; or there
/// is a fault, and the journal has what it had. The office is the one before, and a crash leaves no
/// less of its journal.
pub fn examples_of_last_events_that_are_settled()
    ensures done { IsSettled quiet paged (with_unsettled first_line) (with_bodies first_lines)
        (Ok tt) }
    ensures no_memory { IsSettled quiet paged (with_unsettled first_line)
        (with_unsettled first_line) (Err (faults.NoMemory witness)) }
    ensures untried { IsSettled quiet paged (with_unsettled first_line)
        (with_unsettled first_line) (Ok tt) → ⊥ }
    ensures other_line { IsSettled quiet paged (with_unsettled first_line)
        (with_bodies second_lines) (Ok tt) → ⊥ }
    ensures other_office { IsSettled quiet paged (with_unsettled first_line)
        (with_office (with_bodies first_lines) (counting 3)) (Ok tt) → ⊥ }
    ensures after_a_fault { IsSettled quiet paged (with_unsettled first_line)
        (with_bodies first_lines) (Err (faults.NoMemory witness)) → ⊥ }
    ensures forgotten { IsSettled quiet failing (with_shut first_line) (with_bodies first_line)
        (Ok tt) → ⊥ }
    ensures lost { IsSettled quiet failing (with_unsettled first_line) (with_shut [])
        (Err faults.Disk) → ⊥ }
{}

/// Lines are settled by none more, or by the one that says of the last that it is carried out.
pub fn examples_of_settled_lines()
    ensures none_more { HasSettled (one ∷ []) (one ∷ []) }
    ensures carried_out { HasSettled (one ∷ []) (one ∷ text_of (done 1) ∷ []) }
    ensures other_line { HasSettled (one ∷ []) (one ∷ text_of (done 2) ∷ []) → ⊥ }
    ensures struck { HasSettled (one ∷ []) (one ∷ text_of strike ∷ []) → ⊥ }
    ensures missing { HasSettled (one ∷ []) [] → ⊥ }
{}

/// The events that stand, the newest first: one that is struck out doesn't, and nothing is said
/// where a line strikes out none, or names another line than the one before.
pub fn examples_of_what_lines_say()
    ensures both { history_in (happened (founds 5) ∷ happened enrols ∷ []) ≡ Some enrolment }
    ensures struck { history_in (happened (founds 5) ∷ happened enrols ∷ strike ∷ [])
        ≡ Some founding }
    ensures carried_out { history_in (happened (founds 5) ∷ done 1 ∷ happened enrols ∷ [])
        ≡ Some enrolment }
    ensures other_line { history_in (happened (founds 5) ∷ done 2 ∷ []) ≡ None }
    ensures strike_alone { history_in (strike ∷ []) ≡ None }
    ensures struck_twice { history_in
        (happened (founds 5) ∷ happened enrols ∷ strike ∷ strike ∷ []) ≡ None }
    ensures struck_when_carried_out { history_in (happened (founds 5) ∷ done 1 ∷ strike ∷ [])
        ≡ None }
{}
