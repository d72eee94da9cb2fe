//! How far an office is built of a journal that can't be read on.

ghost use Rattle.std.specs.Prelude.{◌∷◌, ◌++◌, [], List, None, Some, Option, ℕ};
ghost use Rattle.sealed_log.specs.Sealed.{no_seal, sealed_text};
ghost use Rattle.sealed_log.specs.declared.unreadable.Unreadable.{Unreadable};
ghost use Rattle.sealed_log.specs.declared.unreadable.Unreadable.TheVariants as unreadable;
ghost use Rattle.journal.specs.Told.{IsBegun};
ghost use Rattle.journal_office.specs.Rebuilding.{IsBuiltTo};
ghost use Rattle.example_tests.specs.Examples.{Sketch, counting, founds, grown, quiet, shut};
ghost use Rattle.example_tests.specs.JournalExamples.{behind_first, behind_second, first_text};
ghost use Rattle.example_tests.specs.JournalExamples.{second_lines, struck_lines};

/// Up to a place lines are told: as many as are taken there, with their seal, the event that is held
/// back, and those that stand before; and the bytes behind them are left.
pub fn examples_of_what_is_told_to_a_place()
    ensures held { IsBegun 0 None no_seal first_text (behind_first (Some [])) [] }
    ensures stands { IsBegun 0 None no_seal (sealed_text second_lines) (behind_second (Some []))
        ((1, founds 5) ∷ []) }
    ensures held_and_stands { IsBegun 0 None no_seal first_text (behind_first (Some []))
        ((1, founds 5) ∷ []) → ⊥ }
    ensures more_taken { IsBegun 0 None no_seal first_text
        (record (behind_first (Some [])) { taken = 2 }) [] → ⊥ }
    ensures unsealed { IsBegun 0 None no_seal first_text
        (record (behind_first (Some [])) { seal = [] }) [] → ⊥ }
    ensures more_left { IsBegun 0 None no_seal first_text (behind_first (Some (0 ∷ []))) [] → ⊥ }
    ensures unknown { IsBegun 0 None no_seal first_text (behind_first None) [] → ⊥ }
{}

/// Where a journal ends within a line the office has the event before that. Where the input failed
/// it hasn't, unless that founds it: the next line may strike it out.
pub fn examples_of_offices_built_to_a_line()
    ensures founding { IsBuiltTo (Some (first_text ++ 0 ∷ [])) quiet (counting 3) 2
        unreadable.TornLine }
    ensures torn { IsBuiltTo (Some (sealed_text second_lines ++ 0 ∷ [])) quiet (grown 3) 3
        unreadable.TornLine }
    ensures unread { IsBuiltTo (Some (sealed_text struck_lines)) quiet (counting 3) 3
        unreadable.Read }
    ensures shut { (bytes : Option (List ℕ)) (line : ℕ) (fault : Unreadable)
        → IsBuiltTo bytes quiet (shut 3) line fault → ⊥ }
    ensures no_line { (bytes : Option (List ℕ)) (x : Sketch) (fault : Unreadable)
        → IsBuiltTo bytes quiet x 0 fault → ⊥ }
    ensures not_told { (line : ℕ) (fault : Unreadable)
        → IsBuiltTo (Some first_text) quiet (grown 3) line fault → ⊥ }
    ensures whole { (x : Sketch) (line : ℕ)
        → IsBuiltTo (Some first_text) quiet x line unreadable.TornLine → ⊥ }
    ensures left_out { IsBuiltTo (Some (sealed_text second_lines ++ 0 ∷ [])) quiet (counting 3) 3
        unreadable.TornLine → ⊥ }
    ensures may_be_struck_out { IsBuiltTo (Some (sealed_text struck_lines)) quiet (grown 3) 3
        unreadable.Read → ⊥ }
{}
