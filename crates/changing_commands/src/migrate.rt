//! `migrate`: an office of schema 1 in a file is made one of schema 2.

ghost use Rattle.std.specs.Prelude.{IfErr, OnOk};
ghost use Rattle.sqlite.specs.Held.{state};
ghost use Rattle.office_store.specs.Shown.{IsIdle};
ghost use Rattle.command_host.specs.Openings.{IsClosed};
ghost use Rattle.changing_commands.specs.Migrations.{FailsToMigrateAt, HasMigrated};
ghost use Rattle.changing_commands.specs.Migrations.{IsMigratedFrom, IsUnmigratedFrom};

use command_host::{CommandFault, Databases, PARTED, close_database, database_at, unmarked_at};
use office_founding::migrate;
use sqlite::{Alter, Connection};

// Makes the office of schema 1 in a database that was opened one of schema 2, and closes it, with a
// mark where one is given. Where that was refused, it is closed as it was marked.
fn migrate_with<S: Alter + Drop, D: Databases<Database = Connection<S>>>(
    databases: &D,
    conn: Connection<S>,
    mark: Option<u32>,
) -> Result<(), CommandFault>
    requires { IsIdle (state S.Store conn) }
    ensures migrated { OnOk result (IsMigratedFrom S.Store mark (IsClosed D.closed) conn) }
    ensures failed { IfErr result (IsUnmigratedFrom S.Store D.Databases mark conn) }
{
    let mut conn = conn;
    match migrate(&mut conn) {
        Ok(()) => close_database(databases, conn, mark),
        Err(fault) => {
            // Why it wasn't migrated is reported, and not whether this closed.
            let _ = databases.close(conn, None);
            Err(CommandFault::Migration(fault))
        }
    }
}

/// Makes the office of schema 1 at a path one of schema 2, and closes it, also where that was
/// refused. One that has a journal is migrated only where it is said that it goes on without.
///
/// # Errors
///
/// `JournalUnnamed` where it has one; where it was refused, why, and not whether it closed then.
pub fn migrate_at<S: Alter + Drop, D: Databases<Database = Connection<S>>>(
    databases: &D,
    path: &str,
    without_journal: bool,
) -> Result<(), CommandFault>
    ensures migrated { OnOk result (HasMigrated S.Store D.Databases path.now without_journal) }
    ensures failed { IfErr result (FailsToMigrateAt S.Store D.Databases path.now
        without_journal) }
{
    if !without_journal {
        let conn = unmarked_at(databases, path)?;
        return migrate_with(databases, conn, None);
    }
    let conn = database_at(databases, path)?;
    migrate_with(databases, conn, Some(PARTED))
}
