//! What a store refuses, and why it isn't founded, opened or migrated.

ghost use Rattle.std.specs.Prelude.{◌≡◌, ◌≤◌, true, false};
ghost use Rattle.sqlite.specs.Held.{Held, state};
ghost use Rattle.sqlite.specs.State.{HasCleanDisk};
ghost use Rattle.office_words.specs.declared.fault.Fault.{Fault};
ghost use Rattle.office_words.specs.declared.fault.Fault.TheVariants as faults;
ghost use Rattle.office_words.specs.Tables.{Tables};
ghost use Rattle.office_rows.specs.Statements.{HasMet};
ghost use Rattle.office_store.specs.Schema.{no_schema, office_schema};
ghost use Rattle.office_store.specs.Shown.{Shows};
ghost use Rattle.office_founding.specs.declared.fault.FoundingFault.TheVariants as founding;
ghost use Rattle.office_founding.specs.declared.fault.MigrationFault.TheVariants as migration;
ghost use Rattle.office_founding.specs.declared.fault.OpeningFault.TheVariants as opening;
ghost use Rattle.office_founding.specs.Examples.{alone, notes_table};
ghost use Rattle.office_founding.specs.Form.{FindsForm, IsFailure, old_form};
ghost use Rattle.office_founding.specs.Founding.{FailsToFound, founding_office};
ghost use Rattle.office_founding.specs.Migration.{FailsToMigrate, IsOldOffice, MeetsInMigration};
ghost use Rattle.office_policy.specs.Examples.{held_when_issued, releases};
ghost use Rattle.office_policy.specs.History.{Event, History};
ghost use Rattle.office_policy.specs.TablesOf.{tables_of};
ghost use Rattle.review_office.specs.Meant.{meaning_over};
ghost use Rattle.review_office.specs.Opened.{IsHandedBack};
ghost use Rattle.example_tests.specs.Examples.{IsAfter, IsAtRest, first_row, refusal};
ghost use Rattle.no_memory.specs.Witness.{witness};

use sqlite::Alter;

/// The release of a profile takes a row out, so it is refused for want of memory alone; and nothing
/// is for the form of the tables.
pub fn examples_of_refused_writes<S: Alter>()
    ensures memory { (conn : Held S) → IsAtRest S.Store conn
        → Shows (state S.Store conn) (tables_of held_when_issued)
        → (meaning_over S.Store).refuses conn held_when_issued releases (faults.NoMemory witness) }
    ensures room { (conn : Held S)
        → (meaning_over S.Store).refuses conn held_when_issued releases faults.Full → ⊥ }
    ensures disk { (conn : Held S)
        → (meaning_over S.Store).refuses conn held_when_issued releases faults.Disk → ⊥ }
    ensures form { (conn : Held S) (h : History) (e : Event)
        → (meaning_over S.Store).refuses conn h e faults.NotAnOffice → ⊥ }
{}

/// Opening fails for room only where the count rose, for the disk only then or over a connection
/// that was shut, and never for the form of the tables.
pub fn examples_of_failures_to_open<S: Alter>()
    ensures room { (old new : Held S) → IsAfter S.Store old true 3 → IsAfter S.Store new true 4
        → IsFailure (state S.Store old) (state S.Store new) (opening.Store faults.Full) }
    ensures disk_shut { (old new : Held S) → IsAfter S.Store old false 3
        → IsAfter S.Store new false 3
        → IsFailure (state S.Store old) (state S.Store new) (opening.Store faults.Disk) }
    ensures memory { (old new : Held S)
        → IsFailure (state S.Store old) (state S.Store new) (opening.Store (faults.NoMemory witness)) }
    ensures no_room { (old new : Held S) → IsAfter S.Store old true 3 → IsAfter S.Store new true 3
        → IsFailure (state S.Store old) (state S.Store new) (opening.Store faults.Full) → ⊥ }
    ensures no_disk { (old new : Held S) → IsAfter S.Store old true 3 → IsAfter S.Store new true 3
        → IsFailure (state S.Store old) (state S.Store new) (opening.Store faults.Disk) → ⊥ }
    ensures form { (old new : Held S)
        → IsFailure (state S.Store old) (state S.Store new) (opening.Store faults.NotAnOffice)
        → ⊥ }
    ensures old_schema { (old new : Held S)
        → IsFailure (state S.Store old) (state S.Store new) opening.OldSchema → ⊥ }
    ensures no_index { (old new : Held S)
        → IsFailure (state S.Store old) (state S.Store new) opening.NoIndex → ⊥ }
{}

/// A connection that is handed back without an office has what it had, unless a fault has shut it.
pub fn examples_of_connections_that_are_handed_back<S: Alter>()
    ensures same { (conn : Held S) → IsHandedBack S.Store conn (refusal conn) }
    ensures shut { (conn after : Held S) → IsAfter S.Store after false 3
        → IsHandedBack S.Store conn (refusal after) }
    ensures changed { (conn after : Held S) → IsAtRest S.Store conn
        → (state S.Store conn).now.schema ≡ no_schema → IsAfter S.Store after true 3
        → HasCleanDisk (state S.Store after) → (state S.Store after).now.schema ≡ office_schema
        → IsHandedBack S.Store conn (refusal after) → ⊥ }
    ensures committed { (conn after : Held S) → IsAtRest S.Store conn
        → (state S.Store conn).committed.schema ≡ no_schema → IsAfter S.Store after true 3
        → HasCleanDisk (state S.Store after)
        → (state S.Store after).committed.schema ≡ office_schema
        → IsHandedBack S.Store conn (refusal after) → ⊥ }
{}

/// An office isn't founded where one is or something else is, and nothing but a fault that its
/// statements meet keeps it from an empty store.
pub fn examples_of_failures_to_found<S: Alter>()
    ensures already { (old new : Held S) → (state S.Store old).now.schema ≡ office_schema
        → FailsToFound S.Store first_row 5 old new founding.AlreadyFounded }
    ensures something_else { (old new : Held S)
        → (state S.Store old).now.schema ≡ alone notes_table
        → FailsToFound S.Store first_row 5 old new (founding.Store faults.NotAnOffice) }
    ensures memory { (old : Held S) → IsAtRest S.Store old
        → (state S.Store old).now.schema ≡ no_schema
        → FailsToFound S.Store first_row 5 old old (founding.Store (faults.NoMemory witness)) }
    ensures not_already { (old new : Held S) → (state S.Store old).now.schema ≡ no_schema
        → FailsToFound S.Store first_row 5 old new founding.AlreadyFounded → ⊥ }
    ensures nothing_else { (old new : Held S) → (state S.Store old).now.schema ≡ no_schema
        → FailsToFound S.Store first_row 5 old new (founding.Store faults.NotAnOffice) → ⊥ }
    ensures other_fault { (old new : Held S)
        → (state S.Store old).now.schema ≡ alone notes_table
        → FailsToFound S.Store first_row 5 old new (founding.Store faults.Full) → ⊥ }
    ensures met { (old new : Held S) (f : Fault) → (state S.Store old).now.schema ≡ no_schema
        → FailsToFound S.Store first_row 5 old new (founding.Store f)
        → HasMet S.Store (founding_office first_row 5) old new f }
    ensures another_end { (old new : Held S) (f : Fault)
        → (state S.Store old).now.schema ≡ no_schema
        → (state S.Store new).in_transaction ≡ true
        → FailsToFound S.Store first_row 5 old new (founding.Store f) → ⊥ }
{}

/// A store without the five tables isn't migrated since it is no office; the statements of a
/// migration may meet a want of memory in an office of schema 1, and never that it is none.
pub fn examples_of_failures_to_migrate<S: Alter>()
    ensures no_tables { (old new : Held S) → (state S.Store old).now.schema ≡ no_schema
        → FailsToMigrate S.Store old new (migration.Store faults.NotAnOffice) }
    ensures memory { (old mid : Held S) → IsAtRest S.Store mid
        → (state S.Store old).faults ≤ (state S.Store mid).faults
        → FindsForm (state S.Store old) (state S.Store mid) (old_form 5)
        → MeetsInMigration S.Store old mid (faults.NoMemory witness) }
    ensures other_fault { (old new : Held S) → (state S.Store old).now.schema ≡ no_schema
        → FailsToMigrate S.Store old new (migration.Store faults.Full) → ⊥ }
    ensures form { (old new : Held S) (t : Tables) → IsOldOffice (state S.Store old).now t
        → MeetsInMigration S.Store old new faults.NotAnOffice → ⊥ }
    ensures without_tables { (old new : Held S) (f : Fault)
        → (state S.Store old).now.schema ≡ no_schema → MeetsInMigration S.Store old new f → ⊥ }
{}
