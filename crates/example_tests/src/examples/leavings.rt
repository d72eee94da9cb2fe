//! What a crash leaves of a journal.

ghost use Rattle.std.specs.Prelude.{◌<◌, ◌∷◌, ◌++◌, [], List, ℕ, length};
ghost use Rattle.streams.specs.Lines.{NoFeed};
ghost use Rattle.sealed_log.specs.Sealed.{longest, sealed_text};
ghost use Rattle.office_policy.specs.History.{Event};
ghost use Rattle.journal.specs.Begun.{IsBegun, IsEnding, with_event};
ghost use Rattle.example_tests.specs.Examples.{enrols, founding, founds};
ghost use Rattle.example_tests.specs.JournalExamples.{first_line, first_lines, second_lines};
ghost use Rattle.example_tests.specs.JournalExamples.{struck_lines};

/// An event is begun behind the journal of its history, where the policy allows it: its line is
/// there or not, and the one that strikes it out, and no more than these.
pub fn examples_of_events_that_are_begun()
    ensures nothing { IsBegun founding enrols (sealed_text first_line) }
    ensures part { IsBegun founding enrols (sealed_text first_line ++ 0 ∷ []) }
    ensures whole { IsBegun founding enrols (sealed_text second_lines) }
    ensures settled { IsBegun founding enrols (sealed_text (with_event first_lines enrols)) }
    ensures struck { IsBegun founding enrols (sealed_text struck_lines) }
    ensures no_journal { (e : Event) → IsBegun founding e [] → ⊥ }
    ensures not_allowed { (file : List ℕ) → IsBegun founding (founds 5) file → ⊥ }
    ensures too_long { (tail : List ℕ) → NoFeed tail → longest < length tail
        → IsBegun founding enrols (sealed_text first_line ++ tail) → ⊥ }
{}

/// A journal is being ended where the line that says of its last event that it is carried out is
/// there or not, and no more than that.
pub fn examples_of_journals_being_ended()
    ensures nothing { IsEnding founding (sealed_text first_line) }
    ensures part { IsEnding founding (sealed_text first_line ++ 0 ∷ []) }
    ensures whole { IsEnding founding (sealed_text first_lines) }
    ensures no_journal { IsEnding founding [] → ⊥ }
    ensures too_long { (tail : List ℕ) → NoFeed tail → longest < length tail
        → IsEnding founding (sealed_text first_line ++ tail) → ⊥ }
{}
