//! How a migration fails.

ghost use Rattle.std.specs.Prelude.{ℕ, List, false, true};
ghost use Rattle.sqlite.specs.Held.{Held};
ghost use Rattle.command_host.specs.Openings.{IsNotThere, IsUnlimited, IsWithJournal};
ghost use Rattle.command_host.specs.declared.fault.CommandFault.{CommandFault};
ghost use Rattle.changing_commands.specs.Migrations.{FailsToMigrateAt, IsUnmigratedFrom, mark_without};

use command_host::Databases;
use sqlite::{Alter, Connection};

/// A migration fails where no database is there, where one has a journal and isn't to go on without,
/// and where it isn't migrated; and for nothing else.
pub fn examples_of_migrations_that_fail<S: Alter + Drop, D: Databases<Database = Connection<S>>>()
    ensures not_there { (path : List ℕ) (why : CommandFault) → IsNotThere D.Databases path why
        → FailsToMigrateAt S.Store D.Databases path true why }
    ensures with_journal { (path : List ℕ) (why : CommandFault)
        → IsWithJournal D.Databases path why
        → FailsToMigrateAt S.Store D.Databases path false why }
    ensures not_migrated { (path : List ℕ) (why : CommandFault) (old : Held S)
        → IsUnlimited (D.opened path) old
        → IsUnmigratedFrom S.Store D.Databases (mark_without true) old why
        → FailsToMigrateAt S.Store D.Databases path true why }
    ensures unmarked { (path : List ℕ) (why : CommandFault) (old : Held S) → D.marked path (Ok 0)
        → IsUnlimited (D.opened path) old
        → IsUnmigratedFrom S.Store D.Databases (mark_without false) old why
        → FailsToMigrateAt S.Store D.Databases path false why }
    ensures unopened { (path : List ℕ) (why : CommandFault)
        → (IsNotThere D.Databases path why → ⊥) → ((old : Held S)
        → IsUnlimited (D.opened path) old → ⊥)
        → FailsToMigrateAt S.Store D.Databases path true why → ⊥ }
    ensures marked { (path : List ℕ) (why : CommandFault) → (IsWithJournal D.Databases path why → ⊥)
        → (D.marked path (Ok 0) → ⊥) → FailsToMigrateAt S.Store D.Databases path false why → ⊥ }
    ensures migrated { (path : List ℕ) (why : CommandFault)
        → (IsNotThere D.Databases path why → ⊥)
        → ((old : Held S) → IsUnmigratedFrom S.Store D.Databases (mark_without true) old why → ⊥)
        → FailsToMigrateAt S.Store D.Databases path true why → ⊥ }
{}
