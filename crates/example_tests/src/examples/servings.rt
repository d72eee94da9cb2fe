//! How serving an office ends, a trial desk, and a journal that isn't begun.

ghost use Rattle.std.specs.Prelude.{◌≡◌, ⊤, ℕ, List, None, Some, Option, Result, false, true};
ghost use Rattle.std.specs.declared.io.Error.{Error};
ghost use Rattle.sqlite.specs.Held.{Held};
ghost use Rattle.sealed_log.specs.Faults.{IsLater};
ghost use Rattle.sealed_log.specs.declared.log.SealedLog.{SealedLog};
ghost use Rattle.memory_database.specs.MemoryStore.{MemoryStore, over_memory};
ghost use Rattle.office_words.specs.declared.fault.Fault.{Fault};
ghost use Rattle.review_office.specs.Meant.{meaning_over};
ghost use Rattle.journal.specs.Journals.{IsSettled};
ghost use Rattle.journal.specs.Logs.{in_log};
ghost use Rattle.journal.specs.declared.journaled.Journaled.{Journaled};
ghost use Rattle.command_host.specs.NoFiles.{file_fault};
ghost use Rattle.command_host.specs.Openings.{IsClosed, IsEnded, IsServed};
ghost use Rattle.command_host.specs.declared.fault.CommandFault.TheVariants as fault;
ghost use Rattle.command_host.specs.declared.no_file.NoFile.{NoFile};
ghost use Rattle.command_host.specs.declared.no_file.NoFile.TheVariants as files;
ghost use Rattle.changing_commands.specs.Foundings.{IsFoundedAs};
ghost use Rattle.changing_commands.specs.Journals.{IsClosedKept, IsKeptOffice, IsServedWith};
ghost use Rattle.changing_commands.specs.Journals.{IsUnbegun};
ghost use Rattle.changing_commands.specs.Trials.{HasTried, trial_founding};
ghost use Rattle.example_tests.specs.EdgeExamples.{just};
ghost use Rattle.example_tests.specs.ServedExamples.{becomes, never_done, never_stops, stops_for};
ghost use Rattle.no_memory.specs.Witness.{witness};

use command_host::Databases;
use sqlite::{Alter, Connection};
use sqlite_disk::Disk;

/// An office that was served is closed, also where that stopped; where all was done and it can't be
/// closed, that is told. Nothing else is, and no office stays open.
pub fn examples_of_offices_that_are_served<
    S: Alter + Drop,
    D: Databases<Database = Connection<S>>,
>()
    ensures served { (old new : Held S) → IsClosed D.closed new None
        → IsServed D.Databases (becomes new) never_stops None old (Ok tt) }
    ensures stopped { (old new : Held S) → IsEnded D.Databases new None
        → IsServed D.Databases never_done (stops_for fault.Write new) None old (Err fault.Write) }
    ensures not_closed { (old new : Held S) → IsEnded D.Databases new None
        → IsServed D.Databases (becomes new) never_stops None old (Err fault.Close) }
    ensures undone { (old : Held S)
        → IsServed D.Databases never_done never_stops None old (Ok tt) → ⊥ }
    ensures left_open { (old new : Held S) → (IsClosed D.closed new None → ⊥)
        → IsServed D.Databases (becomes new) never_stops None old (Ok tt) → ⊥ }
    ensures stopped_and_left_open { (old new : Held S) → (IsEnded D.Databases new None → ⊥)
        → IsServed D.Databases never_done (stops_for fault.Write new) None old (Err fault.Write)
        → ⊥ }
    ensures other_mark { (old new : Held S) → (IsClosed D.closed new (Some 3) → ⊥)
        → IsServed D.Databases (becomes new) never_stops (Some 3) old (Ok tt) → ⊥ }
    ensures other_fault { (old new : Held S)
        → IsServed D.Databases (becomes new) never_stops None old (Err fault.Busy) → ⊥ }
{}

/// The same of an office with its journal.
pub fn examples_of_offices_that_are_served_with_journals<
    S: Alter + Drop,
    L: Disk,
    D: Databases<Database = Connection<S>>,
>()
    ensures served { (path : List ℕ) (old new : Journaled (Held S) (SealedLog L L.Disk))
        → IsKeptOffice S.Store L.Disk (λ found. ⊤) (D.opened path) 1 old
        → IsClosedKept S.Store L.Disk (IsClosed D.closed) new
        → IsServedWith S.Store L.Disk (λ found. ⊤) D.Databases path 1 (becomes new) never_stops
        (Ok tt) }
    ensures stopped { (path : List ℕ) (old new : Journaled (Held S) (SealedLog L L.Disk))
        → IsKeptOffice S.Store L.Disk (λ found. ⊤) (D.opened path) 1 old
        → IsClosedKept S.Store L.Disk (IsEnded D.Databases) new
        → IsServedWith S.Store L.Disk (λ found. ⊤) D.Databases path 1 never_done
        (stops_for fault.Write new) (Err fault.Write) }
    ensures not_closed { (path : List ℕ) (old new : Journaled (Held S) (SealedLog L L.Disk))
        → IsKeptOffice S.Store L.Disk (λ found. ⊤) (D.opened path) 1 old
        → IsClosedKept S.Store L.Disk (IsEnded D.Databases) new
        → IsServedWith S.Store L.Disk (λ found. ⊤) D.Databases path 1 (becomes new) never_stops
        (Err fault.Close) }
    ensures undone { (path : List ℕ) → IsServedWith S.Store L.Disk (λ found. ⊤) D.Databases path 1
        never_done never_stops (Ok tt) → ⊥ }
    ensures no_journal { (path : List ℕ) (new : Journaled (Held S) (SealedLog L L.Disk))
        → IsServedWith S.Store L.Disk (λ found. ⊥) D.Databases path 1 (becomes new) never_stops
        (Ok tt) → ⊥ }
    ensures left_open { (path : List ℕ) (new : Journaled (Held S) (SealedLog L L.Disk))
        → (IsClosedKept S.Store L.Disk (IsClosed D.closed) new → ⊥)
        → IsServedWith S.Store L.Disk (λ found. ⊤) D.Databases path 1 (becomes new) never_stops
        (Ok tt) → ⊥ }
    ensures other_fault { (path : List ℕ) (new : Journaled (Held S) (SealedLog L L.Disk))
        → IsServedWith S.Store L.Disk (λ found. ⊤) D.Databases path 1 (becomes new) never_stops
        (Err fault.Busy) → ⊥ }
{}

/// An office with its journal is closed with the mark of the lines of that, where it is open, once its
/// last event is settled as far as that can be.
pub fn examples_of_offices_that_are_closed_with_journals<S: Alter, L: Disk>()
    ensures marked { (x : Journaled (Held S) (SealedLog L L.Disk))
        → IsSettled (meaning_over S.Store) (in_log L.Disk) x x (Ok tt)
        → x.journal.is_open ≡ true → x.journal.lines ≡ 3
        → IsClosedKept S.Store L.Disk (λ office mark. mark ≡ Some 3) x }
    ensures shut { (x : Journaled (Held S) (SealedLog L L.Disk))
        → IsSettled (meaning_over S.Store) (in_log L.Disk) x x (Ok tt)
        → x.journal.is_open ≡ false
        → IsClosedKept S.Store L.Disk (λ office mark. mark ≡ None) x }
    ensures unsettled { (x : Journaled (Held S) (SealedLog L L.Disk))
        → ((last : Journaled (Held S) (SealedLog L L.Disk)) (came : Result ⊤ Fault)
        → IsSettled (meaning_over S.Store) (in_log L.Disk) x last came → ⊥)
        → IsClosedKept S.Store L.Disk (λ office mark. ⊤) x → ⊥ }
    ensures not_closed { (x : Journaled (Held S) (SealedLog L L.Disk))
        → IsClosedKept S.Store L.Disk (λ office mark. ⊥) x → ⊥ }
{}

/// No journal is begun where no file is made, which is told as what it is; or where one was made and
/// that one was removed again.
pub fn examples_of_journals_that_are_not_begun<L: Disk>()
    ensures not_made { (e : NoFile)
        → IsUnbegun L.Disk (just (Err e)) (λ file told. ⊥) (file_fault e) }
    ensures removed { (made left : L) → IsLater L.Disk made left
        → IsUnbegun L.Disk (just (Ok made)) (λ file told. file ≡ left) fault.Journal }
    ensures not_told { IsUnbegun L.Disk (just (Err files.Busy)) (λ file told. ⊤) fault.Journal → ⊥ }
    ensures made { (made : L) → IsUnbegun L.Disk (just (Ok made)) (λ file told. ⊤) fault.Busy → ⊥ }
    ensures not_removed { (made : L)
        → IsUnbegun L.Disk (just (Ok made)) (λ file told. ⊥) fault.Journal → ⊥ }
    ensures other_file { (made other : L) → (IsLater L.Disk made other → ⊥)
        → IsUnbegun L.Disk (just (Ok made)) (λ file told. file ≡ other) fault.Journal → ⊥ }
{}

/// A trial desk is one of an office that was founded in memory; where there is no memory for that,
/// nothing began.
pub fn examples_of_trial_desks()
    ensures done { (old new : Held MemoryStore) → IsFoundedAs over_memory trial_founding old
        → HasTried ⊥ (becomes new) never_stops (Ok tt) }
    ensures stopped { (old new : Held MemoryStore) → IsFoundedAs over_memory trial_founding old
        → HasTried ⊥ never_done (stops_for fault.Write new) (Err fault.Write) }
    ensures no_memory { HasTried ⊤ never_done never_stops (Err (fault.NoMemory witness)) }
    ensures begun { HasTried ⊥ never_done never_stops (Err (fault.NoMemory witness)) → ⊥ }
    ensures other_fault { HasTried ⊤ never_done never_stops (Err fault.Write) → ⊥ }
    ensures undone { HasTried ⊤ never_done never_stops (Ok tt) → ⊥ }
    ensures not_founded { (new : Held MemoryStore)
        → ((old : Held MemoryStore) → IsFoundedAs over_memory trial_founding old → ⊥)
        → HasTried ⊤ (becomes new) never_stops (Ok tt) → ⊥ }
{}
