//! The founding of an office.

ghost use Rattle.std.specs.Prelude.{◌≡◌, ◌≢◌, ◌↔◌, ◌<◌, ◌^◌, false, true, pos, is_some, IsTrue};
ghost use Rattle.std.specs.Prelude.{Err, IfErr, OnOk};
ghost use Rattle.sqlite.specs.Held.{state};
ghost use Rattle.sqlite.specs.State.{HasCleanDisk};
ghost use Rattle.sqlite.specs.Values.{bound};
ghost use Rattle.sqlite_schema.specs.Names.{table_named};
ghost use Rattle.office_store.specs.Connections.{MeetsOnErr};
ghost use Rattle.office_store.specs.Schema.{no_schema};
ghost use Rattle.office_store.specs.Shown.{IsIdle};
ghost use Rattle.office_founding.specs.Founding.{has_table, IsForeign, first_user, new_office};
ghost use Rattle.office_founding.specs.Founding.{founding, founding_office, FailsToFound};
ghost use Rattle.office_founding.specs.Transactions.{CommitsAll, FailsBetween, FailsWithin};
ghost use Rattle.office_founding.specs.Transactions.{KeepsOnOk, RollsBack, SameOnErr, ShowsOnOk};
ghost use Rattle.office_founding.specs.Transactions.{SurvivesAll, SurvivesWith};

use crate::fault::FoundingFault;
use cap_sets::Caps;
use office_rows::{Statement, fault_of_error, run_all};
use office_store::bytes_of;
use office_store::schema::{
    CREATE_BASELINES, CREATE_BY_AUTHOR, CREATE_BY_STATE, CREATE_HOLDS, CREATE_OFFICE,
    CREATE_REVISIONS, CREATE_USERS, CREATE_VOTES,
};
use office_words::{Fault, Word};
use sqlite::types::ValueRef;
use sqlite::{Alter, Connection, Error, params};
use sqlite_schema::schema::Schema;

pub(crate) const INSERT_OFFICE: &str = "INSERT INTO office (key, schema, listed) VALUES (1, 2, ?1)";

pub(crate) const INSERT_USER: &str =
    "INSERT INTO users (name, team, roles, token) VALUES (?1, ?2, ?3, ?4)";

// Whether the schema has a table of that name.
fn is_table(schema: &Schema, name: &str) -> bool
    ensures { result ≡ is_some (table_named schema.now name.now) }
{
    schema.table_named(name.as_bytes()).is_some()
}

// Whether one of the tables of an office is there.
fn has_table(schema: &Schema) -> bool
    ensures { result ≡ has_table schema.now }
{
    is_table(schema, "office")
        || is_table(schema, "users")
        || is_table(schema, "revisions")
        || is_table(schema, "votes")
        || is_table(schema, "baselines")
        || is_table(schema, "holds")
}

// Whether there is no table, index or view.
fn is_empty(schema: &Schema) -> bool
    ensures { result ≡ true ↔ schema.now ≡ no_schema }
{
    schema.tables.as_slice().is_empty()
        && schema.indexes.as_slice().is_empty()
        && schema.views.as_slice().is_empty()
}

// The bits of the listed capabilities, as SQL has them.
fn bits_of(listed: Caps) -> i64
    ensures value { result ≡ pos listed }
    ensures small { listed < 2 ^ 41 }
{
    listed.bits() as i64
}

// Makes the tables, their indexes, the row of the office and that of its first user in one
// transaction.
fn run_founding<'a, S: Alter>(
    conn: &mut Connection<S>,
    none: &'a [ValueRef<'a>],
    office: &'a [ValueRef<'a>],
    user: &'a [ValueRef<'a>],
) -> Result<(), Error>
    requires { conn.old.in_transaction ≡ false }
    ensures all { CommitsAll S.Store conn.old conn.new
        (founding (bound none.now) (bound office.now) (bound user.now)) result }
    ensures none { RollsBack S.Store conn.old conn.new result }
    ensures cause { FailsWithin S.Store conn.old conn.new
        (founding (bound none.now) (bound office.now) (bound user.now)) result }
    ensures met { FailsBetween S.Store conn.old conn.new
        (founding (bound none.now) (bound office.now) (bound user.now)) result }
    ensures mode { conn.new.in_transaction ≡ false }
    ensures clean { HasCleanDisk (state S.Store conn.new) → HasCleanDisk (state S.Store conn.old) }
    ensures crash { SurvivesAll S.Store conn.old conn.new
        (founding (bound none.now) (bound office.now) (bound user.now)) }
{
    run_all(
        conn,
        &[
            Statement {
                sql: CREATE_OFFICE,
                params: none,
            },
            Statement {
                sql: CREATE_USERS,
                params: none,
            },
            Statement {
                sql: CREATE_REVISIONS,
                params: none,
            },
            Statement {
                sql: CREATE_VOTES,
                params: none,
            },
            Statement {
                sql: CREATE_BASELINES,
                params: none,
            },
            Statement {
                sql: CREATE_HOLDS,
                params: none,
            },
            Statement {
                sql: CREATE_BY_STATE,
                params: none,
            },
            Statement {
                sql: CREATE_BY_AUTHOR,
                params: none,
            },
            Statement {
                sql: INSERT_OFFICE,
                params: office,
            },
            Statement {
                sql: INSERT_USER,
                params: user,
            },
        ],
    )
}

// Founds an office in an empty store.
fn make_office<S: Alter>(
    conn: &mut Connection<S>,
    name: &Word,
    team: &Word,
    digest: &[u8; 32],
    listed: Caps,
) -> Result<(), Fault>
    requires idle { IsIdle (state S.Store conn.old) }
    requires empty { (state S.Store conn.old).now.schema ≡ no_schema }
    ensures founded { ShowsOnOk S.Store conn.new
        (new_office name.now team.now digest.now listed) result }
    ensures kept { KeepsOnOk S.Store conn.new
        (new_office name.now team.now digest.now listed) result }
    ensures formed { HasCleanDisk (state S.Store conn.new) → result ≢ Err Fault.NotAnOffice }
    ensures cause { MeetsOnErr S.Store conn.old conn.new
        (founding_office (first_user name.now team.now digest.now) listed) result }
    ensures same { SameOnErr S.Store conn.old conn.new result }
    ensures idle { IsIdle (state S.Store conn.new) }
    ensures clean { HasCleanDisk (state S.Store conn.new) → HasCleanDisk (state S.Store conn.old) }
    ensures crash { SurvivesWith S.Store conn.old conn.new
        (new_office name.now team.now digest.now listed) }
{
    let name = name.as_str();
    let team = team.as_str();
    let digest = bytes_of(digest);
    let bits = bits_of(listed);
    match run_founding(
        conn,
        params![],
        params![bits],
        params![name, team, 1u32, digest],
    ) {
        Ok(()) => Ok(()),
        Err(error) => Err(fault_of_error(error)),
    }
}

/// Founds an office in an empty store: its six tables with their indexes, the listed capabilities,
/// and its first user, who is a registrar.
///
/// A crash leaves the store as it was or the founded office, and after `Ok` the founded office.
///
/// # Errors
///
/// `AlreadyFounded` where one of the tables is there; `NotAnOffice` where none of them is and
/// something else is; else the fault of the store.
pub fn found<S: Alter>(
    conn: &mut Connection<S>,
    name: &Word,
    team: &Word,
    digest: &[u8; 32],
    listed: Caps,
) -> Result<(), FoundingFault>
    requires { IsIdle (state S.Store conn.old) }
    ensures founded { ShowsOnOk S.Store conn.new
        (new_office name.now team.now digest.now listed) result }
    ensures kept { KeepsOnOk S.Store conn.new
        (new_office name.now team.now digest.now listed) result }
    ensures already { result ≡ Err FoundingFault.AlreadyFounded
        ↔ IsTrue (has_table (state S.Store conn.old).now.schema) }
    ensures foreign { HasCleanDisk (state S.Store conn.new)
        → result ≡ Err (FoundingFault.Store Fault.NotAnOffice)
        ↔ IsForeign (state S.Store conn.old).now.schema }
    ensures cause { HasCleanDisk (state S.Store conn.new)
        → IfErr result (FailsToFound S.Store
        (first_user name.now team.now digest.now) listed conn.old conn.new) }
    ensures empty { OnOk result ((state S.Store conn.old).now.schema ≡ no_schema) }
    ensures same { SameOnErr S.Store conn.old conn.new result }
    ensures idle { IsIdle (state S.Store conn.new) }
    ensures clean { HasCleanDisk (state S.Store conn.new) → HasCleanDisk (state S.Store conn.old) }
    ensures crash { SurvivesWith S.Store conn.old conn.new
        (new_office name.now team.now digest.now listed) }
{
    if has_table(conn.schema()) {
        return Err(FoundingFault::AlreadyFounded);
    }
    if !is_empty(conn.schema()) {
        return Err(FoundingFault::Store(Fault::NotAnOffice));
    }
    match make_office(conn, name, team, digest, listed) {
        Ok(()) => Ok(()),
        Err(fault) => Err(FoundingFault::Store(fault)),
    }
}
