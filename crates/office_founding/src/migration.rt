//! The migration of an office of schema 1, which holds no profile and has no index.

ghost use Rattle.std.specs.Prelude.{◌≡◌, ◌≢◌, false, Err, IfErr, IsTrue, OnOk, []};
ghost use Rattle.sqlite.specs.Held.{state};
ghost use Rattle.sqlite.specs.State.{HasCleanDisk};
ghost use Rattle.office_words.specs.Tables.{Tables};
ghost use Rattle.office_store.specs.Connections.{MeetsOnErr};
ghost use Rattle.office_store.specs.Shown.{IsIdle, Shows, ShowsIfOpen};
ghost use Rattle.office_founding.specs.Form.{has_old_tables};
ghost use Rattle.office_founding.specs.Migration.{migration, ShowsOld, ShowsOldIfOpen, IsMigration};
ghost use Rattle.office_founding.specs.Migration.{WasOld, FailsToMigrate};
ghost use Rattle.office_founding.specs.Transactions.{CommitsAll, FailsBetween, FailsWithin};
ghost use Rattle.office_founding.specs.Transactions.{RollsBack, SurvivesAll};

use crate::fault::MigrationFault;
use crate::form::{has_old_tables, office_number};
use office_rows::{Statement, fault_of_error, run_all};
use office_store::schema::{CREATE_BY_AUTHOR, CREATE_BY_STATE, CREATE_HOLDS};
use office_words::Fault;
use sqlite::{Alter, Connection, Error};

pub(crate) const RENUMBER: &str = "UPDATE office SET schema = 2";

// Makes the table of held profiles, the indexes and the number of schema 2 in one transaction.
fn run_migration<S: Alter>(conn: &mut Connection<S>) -> Result<(), Error>
    requires { conn.old.in_transaction ≡ false }
    ensures all { CommitsAll S.Store conn.old conn.new (migration []) result }
    ensures none { RollsBack S.Store conn.old conn.new result }
    ensures cause { FailsWithin S.Store conn.old conn.new (migration []) result }
    ensures met { FailsBetween S.Store conn.old conn.new (migration []) result }
    ensures was_open { HasCleanDisk (state S.Store conn.new)
        → IsTrue (state S.Store conn.new).is_open → IsTrue (state S.Store conn.old).is_open }
    ensures mode { conn.new.in_transaction ≡ false }
    ensures crash { SurvivesAll S.Store conn.old conn.new (migration []) }
{
    run_all(
        conn,
        &[
            Statement {
                sql: CREATE_HOLDS,
                params: &[],
            },
            Statement {
                sql: CREATE_BY_STATE,
                params: &[],
            },
            Statement {
                sql: CREATE_BY_AUTHOR,
                params: &[],
            },
            Statement {
                sql: RENUMBER,
                params: &[],
            },
        ],
    )
}

// Makes an office of schema 1 one of schema 2.
fn move_office<S: Alter>(conn: &mut Connection<S>) -> Result<(), Fault>
    requires { IsIdle (state S.Store conn.old) }
    ensures migration { IsMigration (state S.Store conn.old) (state S.Store conn.new) result }
    ensures formed { (t : Tables) → ShowsOldIfOpen (state S.Store conn.old) t
        → HasCleanDisk (state S.Store conn.new) → result ≢ Err Fault.NotAnOffice }
    ensures cause { MeetsOnErr S.Store conn.old conn.new (migration []) result }
{
    match run_migration(conn) {
        Ok(()) => Ok(()),
        Err(error) => Err(fault_of_error(error)),
    }
}

/// Makes an office of schema 1 one of schema 2, in one transaction: the table of held profiles,
/// which has no row, the indexes of the revisions, and the number of the schema. Every row of the
/// five tables is kept.
///
/// A crash leaves the office under schema 1 or under schema 2, and after `Ok` under schema 2.
///
/// # Errors
///
/// `NotAnOffice` unless the five tables of schema 1 are there with their columns, and the office's
/// row is of its form, with schema 1 or 2; `AlreadyMigrated` where that is 2; else the fault of the
/// store.
pub fn migrate<S: Alter>(conn: &mut Connection<S>) -> Result<(), MigrationFault>
    requires { IsIdle (state S.Store conn.old) }
    ensures migration { IsMigration (state S.Store conn.old) (state S.Store conn.new) result }
    ensures old { (t : Tables) → ShowsOld (state S.Store conn.old) t
        → HasCleanDisk (state S.Store conn.new)
        → (result ≢ Err MigrationFault.AlreadyMigrated)
        × (result ≢ Err (MigrationFault.Store Fault.NotAnOffice)) }
    ensures already { (t : Tables) → Shows (state S.Store conn.old) t
        → HasCleanDisk (state S.Store conn.new)
        → OnOk result ⊥ × (result ≢ Err (MigrationFault.Store Fault.NotAnOffice))
        × ShowsIfOpen (state S.Store conn.new) t }
    ensures foreign { has_old_tables (state S.Store conn.old).now.schema ≡ false
        → (result ≡ Err (MigrationFault.Store Fault.NotAnOffice)) × (conn.new ≡ conn.old) }
    ensures was { HasCleanDisk (state S.Store conn.new) → OnOk result (WasOld S.Store conn.old) }
    ensures cause { HasCleanDisk (state S.Store conn.new)
        → IfErr result (FailsToMigrate S.Store conn.old conn.new) }
{
    if !has_old_tables(conn.schema()) {
        return Err(MigrationFault::Store(Fault::NotAnOffice));
    }
    let form = match office_number(conn) {
        Ok(form) => form,
        Err(fault) => return Err(MigrationFault::Store(fault)),
    };
    if !form.is_old {
        return Err(MigrationFault::AlreadyMigrated);
    }
    match move_office(conn) {
        Ok(()) => Ok(()),
        Err(fault) => Err(MigrationFault::Store(fault)),
    }
}
