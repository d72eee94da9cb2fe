//! An office that is kept with a journal.

ghost use Rattle.std.specs.Prelude.{◌≡◌, ◌⊎◌, ℕ, IfErr, IfOk, IsTrue, Ok, OnOk};
ghost use Rattle.sqlite.specs.Held.{state};
ghost use Rattle.office_store.specs.Shown.{IsIdle};
ghost use Rattle.command_host.specs.Marks.{has_journal};
ghost use Rattle.command_host.specs.Openings.{IsClosed, IsEnded, IsWithoutJournal};
ghost use Rattle.changing_commands.specs.Journals.{IsClosedKept, IsKeptOffice, IsKeptOver};
ghost use Rattle.changing_commands.specs.Journals.{IsOfJournal, IsOpenedWith, IsUnkept};
ghost use Rattle.changing_commands.specs.Journals.{IsUnkeptOver, mark_beside};

use command_host::{
    CommandFault, Databases, Journals, close, fault_of, kept_at, mark_of_lines, office_over,
};
use journal::{Journal, Journaled};
use journal_office::reopen;
use review_office::Office;
use sealed_log::SealedLog;
use sqlite::{Alter, Connection};
use sqlite_disk::Disk;
use std::alloc::Global;

/// An office in a database, with its journal in a file.
pub(crate) type Kept<S, D> = Journaled<Office<S>, SealedLog<D>>;

// The office of a database with this mark, opened again with its journal at a path; or why not, and
// the office. The journal is let go then.
fn opened_with<S: Alter + Drop, J: Journals>(
    journals: &J,
    alloc: Global,
    office: Office<S>,
    path: &str,
    mark: u32,
) -> Result<Kept<S, J::File>, (CommandFault, Office<S>)>
    ensures opened { IfOk result (λ x. IsOpenedWith S.Store J.File.Disk
        (J.opens journals.now path.now) mark office x) }
    ensures none { IfErr result (λ refusal. IsOfJournal S.Store J.File.Disk
        (J.opens journals.now path.now) mark office refusal.1 refusal.0) }
{
    let file = match journals.open(path) {
        Ok(file) => file,
        Err(why) => return Err((fault_of(why), office)),
    };
    match reopen(alloc, office, SealedLog::new(file), mark) {
        Ok(kept) => Ok(kept),
        Err((why, office, _)) => Err((CommandFault::Reopening(why), office)),
    }
}

/// The office over a database with this mark, opened again with its journal at a path.
///
/// # Errors
///
/// As of [`office_over`]; and `Journal`, `Busy` or `NoMemory` where the file of the journal can't
/// be opened, `Reopening` where the two can't be opened again. Then the office is closed; and where that fails
/// too, the first fault is told.
pub(crate) fn kept_over<S: Alter + Drop, D: Databases<Database = Connection<S>>, J: Journals>(
    databases: &D,
    journals: &J,
    alloc: Global,
    conn: Connection<S>,
    journal: &str,
    mark: u32,
) -> Result<Kept<S, J::File>, CommandFault>
    requires { IsIdle (state S.Store conn) }
    ensures opened { IfOk result (IsKeptOver S.Store J.File.Disk
        (J.opens journals.now journal.now) conn mark) }
    ensures fault { IfErr result (IsUnkeptOver S.Store J.File.Disk
        (J.opens journals.now journal.now) D.Databases conn mark) }
{
    let office = office_over(databases, conn)?;
    match opened_with(journals, alloc, office, journal, mark) {
        Ok(kept) => Ok(kept),
        Err((fault, office)) => {
            // Why it has no journal is reported, and not whether this closed.
            let _ = close(databases, office, None);
            Err(fault)
        }
    }
}

/// The office at a path, opened again with its journal at another, where the mark of its database is
/// of one.
///
/// # Errors
///
/// As of [`kept_at`] and [`kept_over`].
pub(crate) fn kept_office_at<S: Alter + Drop, D: Databases<Database = Connection<S>>, J: Journals>(
    databases: &D,
    journals: &J,
    alloc: Global,
    path: &str,
    journal: &str,
) -> Result<Kept<S, J::File>, CommandFault>
    ensures opened { IfOk result (λ kept. (mark : ℕ) × D.marked path.now (Ok mark)
        × IsTrue (has_journal mark) × IsKeptOffice S.Store J.File.Disk
        (J.opens journals.now journal.now) (D.opened path.now) mark kept) }
    ensures fault { IfErr result (λ why. IsWithoutJournal D.Databases path.now why
        ⊎ ((mark : ℕ) × D.marked path.now (Ok mark) × IsTrue (has_journal mark)
        × IsUnkept S.Store J.File.Disk
        (J.opens journals.now journal.now) D.Databases path.now mark why)) }
{
    let (conn, mark) = kept_at(databases, path)?;
    kept_over(databases, journals, alloc, conn, journal, mark)
}

// The mark beside a journal: how many lines that has, where it is open.
fn mark_beside<J: Disk>(log: &SealedLog<J>) -> Option<u32>
    ensures { result ≡ mark_beside log.now }
{
    if log.takes_lines() {
        Some(mark_of_lines(log.lines()))
    } else {
        None
    }
}

/// Closes an office with a journal, in which it is then said that its last event was carried out. The
/// database gets the mark of that journal. The file of the journal is let go: all of it is written.
///
/// # Errors
///
/// As of [`close`].
pub(crate) fn close_kept<S: Alter, J: Disk + Drop, D: Databases<Database = Connection<S>>>(
    databases: &D,
    alloc: Global,
    kept: Kept<S, J>,
) -> Result<(), CommandFault>
    ensures closed { OnOk result (IsClosedKept S.Store J.Disk (IsClosed D.closed) kept) }
    ensures ended { IsClosedKept S.Store J.Disk (IsEnded D.Databases) kept }
    ensures fault { IfErr result (λ fault. fault ≡ CommandFault.Close) }
{
    let mut kept = kept;
    // What the journal doesn't say so is told by the tables.
    let _ = kept.settle(alloc);
    let (office, log) = kept.into_parts();
    let mark = mark_beside(&log);
    close(databases, office, mark)
}
