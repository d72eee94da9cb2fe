//! How an office is founded as words describe, and how its journal is begun.

ghost use Rattle.std.specs.Prelude.{◌≡◌, ◌^◌, ◌∷◌, [], ⊤, false, true, Ok, Err, IsTrue};
ghost use Rattle.sqlite.specs.Held.{Held, state};
ghost use Rattle.sqlite.specs.State.{HasCleanDisk};
ghost use Rattle.sealed_log.specs.Faults.{IsLater};
ghost use Rattle.sealed_log.specs.declared.log.SealedLog.{SealedLog};
ghost use Rattle.office_store.specs.Schema.{no_schema, office_schema};
ghost use Rattle.office_store.specs.Shown.{office_row};
ghost use Rattle.command_host.specs.declared.founding_fault.FoundingWordsFault.{FoundingWordsFault};
ghost use Rattle.command_host.specs.declared.no_file.NoFile.{NoFile};
ghost use Rattle.changing_commands.specs.Foundings.{IsFoundedBy, IsFoundedIn};
ghost use Rattle.changing_commands.specs.Journals.{IsBegunBy};
ghost use Rattle.example_tests.specs.JournalExamples.{first_line, first_lines, HasBodies, HasMet};
ghost use Rattle.example_tests.specs.EdgeExamples.{founding_with, HasCounted, just};

use sqlite::Alter;
use sqlite_disk::Disk;

/// An office is founded as words describe in an empty database that was opened: not where they
/// describe none, in a database that has something, or over a disk that wasn't clean before.
pub fn examples_of_offices_that_are_founded<S: Alter>()
    ensures founded { (was office : Held S) → (state S.Store was).now.schema ≡ no_schema
        → HasCleanDisk (state S.Store was) → IsFoundedBy S.Store (founding_with 5) office
        → IsFoundedIn S.Store (just was) (Ok (founding_with 5)) office }
    ensures undescribed { (office : Held S) (why : FoundingWordsFault)
        → IsFoundedIn S.Store (λ was. ⊤) (Err why) office → ⊥ }
    ensures unopened { (office : Held S)
        → IsFoundedIn S.Store (λ was. ⊥) (Ok (founding_with 5)) office → ⊥ }
    ensures something_there { (was office : Held S)
        → (state S.Store was).now.schema ≡ office_schema
        → IsFoundedIn S.Store (just was) (Ok (founding_with 5)) office → ⊥ }
    ensures unclean { (was office : Held S) → (HasCleanDisk (state S.Store was) → ⊥)
        → HasCleanDisk (state S.Store office)
        → IsFoundedIn S.Store (just was) (Ok (founding_with 5)) office → ⊥ }
    ensures other_founding { (was office : Held S) → HasCleanDisk (state S.Store office)
        → (state S.Store office).is_open ≡ true
        → (state S.Store office).now.trees 0 ≡ office_row 6 ∷ []
        → IsFoundedIn S.Store (just was) (Ok (founding_with 5)) office → ⊥ }
{}

/// A journal is begun by a founding in a file that was made, and has just the line of that: no other
/// one, and none behind it. No fault is forgotten.
pub fn examples_of_journals_that_are_begun<D: Disk>()
    ensures begun { (made : D) (log : SealedLog D D.Disk) → IsTrue (D.Disk.is_clean made)
        → IsLater D.Disk made log.disk → HasBodies D.Disk log first_line
        → IsBegunBy D.Disk (just (Ok made)) (founding_with 5) log }
    ensures not_made { (log : SealedLog D D.Disk) (e : NoFile)
        → IsBegunBy D.Disk (just (Err e)) (founding_with 5) log → ⊥ }
    ensures other_founding { (made : D) (log : SealedLog D D.Disk)
        → HasBodies D.Disk log first_line
        → IsBegunBy D.Disk (just (Ok made)) (founding_with 6) log → ⊥ }
    ensures more { (made : D) (log : SealedLog D D.Disk) → HasBodies D.Disk log first_lines
        → IsBegunBy D.Disk (just (Ok made)) (founding_with 5) log → ⊥ }
    ensures unformed { (made : D) (log : SealedLog D D.Disk)
        → IsBegunBy D.Disk (just (Ok made)) (founding_with (2 ^ 41)) log → ⊥ }
    ensures shut { (made : D) (log : SealedLog D D.Disk) → log.is_open ≡ false
        → IsBegunBy D.Disk (just (Ok made)) (founding_with 5) log → ⊥ }
    ensures unclean { (made : D) (log : SealedLog D D.Disk) → (IsTrue (D.Disk.is_clean made) → ⊥)
        → HasBodies D.Disk log first_line
        → IsBegunBy D.Disk (just (Ok made)) (founding_with 5) log → ⊥ }
    ensures forgotten { (made : D) (log : SealedLog D D.Disk) → HasCounted D.Disk made 4 2
        → HasMet D.Disk log 3
        → IsBegunBy D.Disk (just (Ok made)) (founding_with 5) log → ⊥ }
{}
