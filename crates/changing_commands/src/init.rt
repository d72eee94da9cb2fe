//! `init`: an office is founded in a file.

ghost use Rattle.std.specs.Prelude.{◌≡◌, IfErr, IfOk, Ok, OnOk};
ghost use Rattle.sqlite.specs.Held.{state};
ghost use Rattle.sqlite.specs.State.{HasCleanDisk};
ghost use Rattle.office_store.specs.Schema.{no_schema};
ghost use Rattle.office_store.specs.Shown.{IsIdle};
ghost use Rattle.command_host.specs.Openings.{IsClosed};
ghost use Rattle.command_host.specs.Outside.{known};
ghost use Rattle.changing_commands.specs.Founded.{FailsToInit, HasFounded};
ghost use Rattle.changing_commands.specs.Foundings.{founding_of_words, IsFoundedBy, IsFoundedIn};
ghost use Rattle.changing_commands.specs.Foundings.{IsNotFounded, IsUndescribed, IsUnfounded};
ghost use Rattle.changing_commands.specs.Foundings.{IsUnfoundedAs, WasFounded};
ghost use Rattle.changing_commands.specs.Journals.{HasLine, IsUnfoundedBehind, WasFoundedBehind};
ghost use Rattle.changing_commands.specs.Journals.{begun_with, line_of};

use crate::begun::{begin_journal, founding_line};
use crate::founding::{Founding, founding_of};
use crate::kept::{Kept, close_kept};
use command_host::{CommandFault, Databases, Host, Journals, Outside, close, open};
use command_line::InitWords;
use journal::Journaled;
use office_founding::FoundingFault;
use review_office::Office;
use sealed_log::SealedLog;
use sqlite::{Alter, Connection};
use sqlite_disk::Disk;
use std::alloc::Global;

/// Founds the office of a founding in a store.
pub(crate) fn found_in<S: Alter>(
    conn: Connection<S>,
    founding: &Founding,
) -> Result<Office<S>, (FoundingFault, Connection<S>)>
    requires { IsIdle (state S.Store conn) }
    ensures founded { IfOk result (IsFoundedBy S.Store founding.now) }
    ensures empty { OnOk result ((state S.Store conn).now.schema ≡ no_schema) }
    ensures clean { IfOk result (λ office. HasCleanDisk (state S.Store office)
        → HasCleanDisk (state S.Store conn)) }
    ensures refused { IfErr result (λ refusal.
        IsNotFounded S.Store founding.now conn refusal.1 refusal.0) }
{
    Office::found(
        conn,
        &founding.name,
        &founding.team,
        &founding.digest,
        founding.listed,
    )
}

// The founding that the words describe.
fn founding_in(alloc: Global, words: &InitWords<'_>) -> Result<Founding, CommandFault>
    ensures described { IfOk result (λ founding. founding_of_words words.now ≡ Ok founding) }
    ensures refused { IfErr result (IsUndescribed (founding_of_words words.now)) }
{
    match founding_of(
        alloc,
        words.name,
        words.team,
        words.digest,
        words.capabilities.as_slice(),
    ) {
        Ok(founding) => Ok(founding),
        Err(fault) => Err(CommandFault::FoundingWords(fault)),
    }
}

// The office of a founding, founded in the database at a path.
fn founded_at<S: Alter + Drop, D: Databases<Database = Connection<S>>>(
    databases: &D,
    path: &str,
    founding: &Founding,
) -> Result<Office<S>, CommandFault>
    ensures founded { IfOk result
        (IsFoundedIn S.Store (D.opened path.now) (Ok founding.now)) }
    ensures refused { IfErr result (IsUnfoundedAs S.Store D.Databases path.now (Ok founding.now)) }
{
    let conn = open(databases, path)?;
    match found_in(conn, founding) {
        Ok(office) => Ok(office),
        Err((fault, conn)) => {
            // Why no office is founded is reported, and not whether this closed.
            let _ = databases.close(conn, None);
            Err(CommandFault::Founding(fault))
        }
    }
}

// The same, once the line of the founding stands in the file of a journal, which is handed back where
// nothing is founded.
fn founded_behind<S: Alter + Drop, D: Databases<Database = Connection<S>>, J: Disk + Drop>(
    databases: &D,
    path: &str,
    founding: &Founding,
    log: SealedLog<J>,
) -> Result<Kept<S, J>, (CommandFault, SealedLog<J>)>
    requires { HasLine J.Disk founding.now log }
    ensures founded { IfOk result (λ kept. (kept ≡ begun_with kept.office log)
        × IsFoundedIn S.Store (D.opened path.now) (Ok founding.now) kept.office) }
    ensures refused { IfErr result (λ refusal. (refusal.1 ≡ log)
        × IsUnfoundedAs S.Store D.Databases path.now (Ok founding.now) refusal.0) }
{
    match founded_at(databases, path, founding) {
        Ok(office) => Ok(Journaled::new(office, log, false)),
        Err(fault) => Err((fault, log)),
    }
}

// Founds the office of a founding in the database at a path, and closes it.
fn found_and_close<S: Alter + Drop, D: Databases<Database = Connection<S>>>(
    databases: &D,
    path: &str,
    founding: &Founding,
) -> Result<(), CommandFault>
    ensures founded { OnOk result (WasFounded S.Store (D.opened path.now) (IsClosed D.closed)
        (Ok founding.now)) }
    ensures failed { IfErr result (IsUnfounded S.Store D.Databases path.now (Ok founding.now)) }
{
    let office = founded_at(databases, path, founding)?;
    close(databases, office, None)
}

// Founds the office of a founding in the database at a path, and closes it with the mark of its
// journal. That is begun before by the line of the founding, and removed again where nothing is
// founded.
fn found_behind<S: Alter + Drop, D: Databases<Database = Connection<S>>, J: Journals>(
    databases: &D,
    journals: &J,
    alloc: Global,
    path: &str,
    journal: &str,
    founding: &Founding,
    line: &str,
) -> Result<(), CommandFault>
    requires { line.now ≡ line_of founding.now }
    ensures founded { OnOk result (WasFoundedBehind S.Store J.File.Disk
        (J.creates journals.now journal.now) (D.opened path.now) (IsClosed D.closed)
        founding.now) }
    ensures failed { IfErr result (IsUnfoundedBehind S.Store J.File.Disk
        (J.creates journals.now journal.now) (J.removes journals.now journal.now)
        D.Databases path.now founding.now) }
{
    let log = begin_journal(journals, alloc, journal, founding, line)?;
    match founded_behind(databases, path, founding, log) {
        Ok(kept) => close_kept(databases, alloc, kept),
        Err((fault, log)) => {
            // Why no office is founded is reported, and not whether the file was removed.
            let _ = journals.remove(journal, log.into_disk());
            Err(fault)
        }
    }
}

/// Founds the office that the words describe in the database that they name, and closes it. Where
/// the words give a journal, that is begun before.
///
/// The words are looked at before the paths, so that words which describe no founding make no file.
pub fn found_at<H: Host>(
    host: &Outside<'_, H>,
    alloc: Global,
    words: &InitWords<'_>,
) -> Result<(), CommandFault>
    ensures founded { OnOk result (HasFounded (known host.now) words.now) }
    ensures failed { IfErr result (FailsToInit (known host.now) words.now) }
{
    let founding = founding_in(alloc, words)?;
    let path = words.database;
    match words.journal {
        Some(file) => {
            let line = founding_line(alloc, &founding)?;
            let (databases, journals) = (host.databases, host.journals);
            found_behind(
                databases,
                journals,
                alloc,
                path,
                file,
                &founding,
                line.as_str(),
            )
        }
        None => found_and_close(host.databases, path, &founding),
    }
}
