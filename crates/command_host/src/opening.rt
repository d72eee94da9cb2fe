//! Opening what stands at a path, and closing an office.

ghost use Rattle.std.specs.Prelude.{◌≡◌, IfErr, IfOk, IsTrue, OnOk};
ghost use Rattle.sqlite.specs.Held.{state};
ghost use Rattle.office_store.specs.Shown.{IsIdle};
ghost use Rattle.review_office.specs.Opened.{IsOver};
ghost use Rattle.command_host.specs.Marks.{has_journal};
ghost use Rattle.command_host.specs.Openings.{fault_of_opening, IsClosed, IsEnded, IsFirstOf};
ghost use Rattle.command_host.specs.Openings.{IsMarked, IsNotMarked, IsNotOver, IsNotThere};
ghost use Rattle.command_host.specs.Openings.{IsOfOpening, IsOpenedOffice, IsUnlimited, IsUnopened};
ghost use Rattle.command_host.specs.Openings.{IsWithJournal, IsWithoutJournal};

use crate::databases::Databases;
use crate::fault::CommandFault;
use crate::marks::has_journal;
use office_rows::fault_of_error;
use office_words::Fault;
use review_office::Office;
use sqlite::{Alter, Connection, Error, ErrorCode};

/// Why what stands at a path isn't opened: `NotAnOffice` where it is no database, `Busy` where another
/// command has it open.
pub fn fault_of_opening(error: Error) -> CommandFault
    ensures { result ≡ fault_of_opening error }
{
    match error {
        Error::SqliteFailure(ErrorCode::NotADatabase) => CommandFault::Store(Fault::NotAnOffice),
        Error::SqliteFailure(ErrorCode::DatabaseBusy) => CommandFault::Busy,
        error => CommandFault::Store(fault_of_error(error)),
    }
}

/// Opens the database at a path, and makes an empty one where nothing is there.
///
/// # Errors
///
/// As of [`fault_of_opening`]; `Disk` also where it has a transaction open.
pub fn open<S: Alter + Drop, D: Databases<Database = Connection<S>>>(
    databases: &D,
    path: &str,
) -> Result<Connection<S>, CommandFault>
    ensures idle { IfOk result (λ conn. IsIdle (state S.Store conn)) }
    ensures opened { IfOk result (IsUnlimited (D.opened path.now)) }
    ensures fault { IfErr result (IsUnopened D.Databases path.now) }
{
    match databases.open(path) {
        Ok(mut conn) => {
            if !conn.is_autocommit() {
                // That it is refused is reported, and not whether this closed.
                let _ = databases.close(conn, None);
                return Err(CommandFault::Store(Fault::Disk));
            }
            conn.set_step_limit(None);
            Ok(conn)
        }
        Err(error) => Err(fault_of_opening(error)),
    }
}

/// The database at a path where something is.
///
/// # Errors
///
/// As of [`open`]; `NotAnOffice` also where nothing is there, and no file is made then; `Disk` also
/// where that can't be seen.
pub fn database_at<S: Alter + Drop, D: Databases<Database = Connection<S>>>(
    databases: &D,
    path: &str,
) -> Result<Connection<S>, CommandFault>
    ensures idle { IfOk result (λ conn. IsIdle (state S.Store conn)) }
    ensures opened { IfOk result (IsUnlimited (D.opened path.now)) }
    ensures fault { IfErr result (IsNotThere D.Databases path.now) }
{
    // Opening would make an empty database.
    match databases.is_there(path) {
        Ok(true) => open(databases, path),
        Ok(false) => Err(CommandFault::Store(Fault::NotAnOffice)),
        Err(_) => Err(CommandFault::Store(Fault::Disk)),
    }
}

/// The office over a database that was opened.
///
/// # Errors
///
/// As [`Office::over`] refuses it; then the database is closed.
pub fn office_over<S: Alter + Drop, D: Databases<Database = Connection<S>>>(
    databases: &D,
    conn: Connection<S>,
) -> Result<Office<S>, CommandFault>
    requires { IsIdle (state S.Store conn) }
    ensures over { IfOk result (IsOver S.Store conn) }
    ensures fault { IfErr result (IsNotOver D.Databases S.Store conn) }
{
    match Office::over(conn) {
        Ok(office) => Ok(office),
        Err((fault, conn)) => {
            // Why it is no office is reported, and not whether this closed.
            let _ = databases.close(conn, None);
            Err(CommandFault::Opening(fault))
        }
    }
}

/// The office at a path.
///
/// # Errors
///
/// As of [`database_at`] and [`office_over`].
pub fn office_at<S: Alter + Drop, D: Databases<Database = Connection<S>>>(
    databases: &D,
    path: &str,
) -> Result<Office<S>, CommandFault>
    ensures opened { IfOk result (IsOpenedOffice S.Store (D.opened path.now)) }
    ensures fault { IfErr result (IsOfOpening D.Databases path.now S.Store) }
{
    let conn = database_at(databases, path)?;
    office_over(databases, conn)
}

/// The database at a path, and its mark. That is looked at once the database is open, so that nobody
/// else marks it meanwhile.
///
/// # Errors
///
/// As of [`database_at`]; and `Store` where the mark can't be read, and then the database is closed.
pub fn marked_at<S: Alter + Drop, D: Databases<Database = Connection<S>>>(
    databases: &D,
    path: &str,
) -> Result<(Connection<S>, u32), CommandFault>
    ensures idle { IfOk result (λ found. IsIdle (state S.Store found.0)) }
    ensures opened { IfOk result (λ found. IsMarked D.Databases path.now found.0 found.1) }
    ensures fault { IfErr result (IsNotMarked D.Databases path.now) }
{
    let conn = database_at(databases, path)?;
    match databases.mark_at(path) {
        Ok(mark) => Ok((conn, mark)),
        Err(_) => {
            // That it can't be read is reported, and not whether this closed.
            let _ = databases.close(conn, None);
            Err(CommandFault::Store(Fault::Disk))
        }
    }
}

/// The database at a path, where it has no mark: its office has no journal.
///
/// # Errors
///
/// As of [`marked_at`]; and `JournalUnnamed` where it has one, and then the database is closed.
pub fn unmarked_at<S: Alter + Drop, D: Databases<Database = Connection<S>>>(
    databases: &D,
    path: &str,
) -> Result<Connection<S>, CommandFault>
    ensures idle { IfOk result (λ conn. IsIdle (state S.Store conn)) }
    ensures opened { IfOk result (λ conn. IsMarked D.Databases path.now conn 0) }
    ensures fault { IfErr result (IsWithJournal D.Databases path.now) }
{
    let (conn, mark) = marked_at(databases, path)?;
    if mark == 0 {
        return Ok(conn);
    }
    // That a journal is wanted is reported, and not whether this closed.
    let _ = databases.close(conn, None);
    Err(CommandFault::JournalUnnamed)
}

/// The database at a path and its mark, where that is of a journal.
///
/// # Errors
///
/// As of [`marked_at`]; and `JournalParted` where it has no mark, or that of an office that went on
/// without its journal. Then the database is closed.
pub fn kept_at<S: Alter + Drop, D: Databases<Database = Connection<S>>>(
    databases: &D,
    path: &str,
) -> Result<(Connection<S>, u32), CommandFault>
    ensures idle { IfOk result (λ found. IsIdle (state S.Store found.0)) }
    ensures opened { IfOk result (λ found. IsMarked D.Databases path.now found.0 found.1
        × IsTrue (has_journal found.1)) }
    ensures fault { IfErr result (IsWithoutJournal D.Databases path.now) }
{
    let (conn, mark) = marked_at(databases, path)?;
    if has_journal(mark) {
        return Ok((conn, mark));
    }
    // That it has none is reported, and not whether this closed.
    let _ = databases.close(conn, None);
    Err(CommandFault::JournalParted)
}

/// Closes a database, so that all of it stands in one file, and has this mark; without one it keeps the
/// one that it has.
///
/// # Errors
///
/// `Close`. What was committed then stands in the file and its log.
pub fn close_database<S: Alter, D: Databases<Database = Connection<S>>>(
    databases: &D,
    conn: Connection<S>,
    mark: Option<u32>,
) -> Result<(), CommandFault>
    ensures closed { OnOk result (IsClosed D.closed conn mark) }
    ensures ended { IsEnded D.Databases conn mark }
    ensures fault { IfErr result (λ fault. fault ≡ CommandFault.Close) }
{
    match databases.close(conn, mark) {
        Ok(_) => Ok(()),
        Err(_) => Err(CommandFault::Close),
    }
}

/// Closes an office as [`close_database`] does.
///
/// # Errors
///
/// `Close`. What was answered then stands in the file and its log.
pub fn close<S: Alter, D: Databases<Database = Connection<S>>>(
    databases: &D,
    office: Office<S>,
    mark: Option<u32>,
) -> Result<(), CommandFault>
    ensures closed { OnOk result (IsClosed D.closed office mark) }
    ensures ended { IsEnded D.Databases office mark }
    ensures fault { IfErr result (λ fault. fault ≡ CommandFault.Close) }
{
    close_database(databases, office.into_connection(), mark)
}

/// What is reported of an office that was served and then closed: the first fault.
pub fn first_fault(
    served: Result<(), CommandFault>,
    closed: Result<(), CommandFault>,
) -> Result<(), CommandFault>
    ensures { IsFirstOf served closed result }
{
    served.and(closed)
}
