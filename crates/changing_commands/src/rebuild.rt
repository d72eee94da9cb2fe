//! `rebuild`: a new office in a file, of what a journal tells.

ghost use Rattle.std.specs.Prelude.{◌≡◌, IfErr, IfOk};
ghost use Rattle.command_host.specs.Openings.{IsClosed};
ghost use Rattle.changing_commands.specs.Rebuildings.{FailsToRebuild, HasRebuilt, IsUnrebuilt};
ghost use Rattle.changing_commands.specs.Rebuildings.{WasRebuilt, mark_before, told_of};

use command_host::{
    CommandFault, Databases, PassFiles, close, mark_of_lines, open, print_bytes, seal_line,
    text_at, told_of_text,
};
use journal_faults::{Refused, Why};
use journal_office::{Rebuilt, rebuild_as_read};
use sealed_log::Seal;
use sqlite::{Alter, Connection};
use std::alloc::Global;
use std::io::Write;
use streams::Counted;

/// What an office has that was built anew.
#[derive(Clone, Copy)]
pub struct Built {
    /// How many events, up to the greatest u64.
    pub events: u64,
    /// The seal of its journal.
    pub seal: Seal,
}

// What is told of why a journal isn't built on.
fn fault_of(refused: Refused) -> CommandFault
    ensures { result ≡ told_of refused }
{
    match refused.why {
        Why::Unfounded(fault) => CommandFault::Founding(fault),
        _ => CommandFault::Unbuilt(refused),
    }
}

// The mark of a database in which all before a line happened again.
fn mark_before(line: u64) -> Option<u32>
    ensures { result ≡ mark_before line }
{
    if line > 1 {
        Some(mark_of_lines(line - 1))
    } else {
        None
    }
}

// Builds an office anew in the empty database at a path, of all that the journal at another path
// tells, and closes it.
fn rebuild_at<F: PassFiles, S: Alter + Drop, D: Databases<Database = Connection<S>>>(
    files: &F,
    databases: &D,
    alloc: Global,
    database: &str,
    journal: &str,
) -> Result<Built, CommandFault>
    ensures rebuilt { IfOk result (WasRebuilt S.Store (F.opens files.now journal.now)
        F.File.remaining (D.opened database.now) (IsClosed D.closed)) }
    ensures failed { IfErr result (IsUnrebuilt S.Store D.Databases database.now
        (F.opens files.now journal.now) F.gives F.File.remaining) }
{
    let mut text = text_at(files, alloc, journal)?;
    let conn = open(databases, database)?;
    match rebuild_as_read(alloc, conn, &mut text) {
        Ok(rebuilt) => {
            let Rebuilt {
                office,
                events,
                seal,
                lines,
                at: _,
            } = rebuilt;
            close(databases, office, Some(mark_of_lines(lines)))?;
            Ok(Built { events, seal })
        }
        Err((refused, conn)) => {
            // Why it isn't built on is reported, and not whether this closed.
            let _ = databases.close(conn, mark_before(refused.line));
            Err(told_of_text(&text, fault_of(refused)))
        }
    }
}

/// `rebuild`: builds an office anew in the empty database at a path, of all that the journal at
/// another path tells, closes it, and prints the number of its events and the last seal. The journal
/// is read, and not changed.
///
/// # Errors
///
/// `Open` where the journal can't be opened, and no database is made then; `Store` or `Busy` where none
/// can be opened; `Founding` why no office is founded in it, and it is left as it is; `Unbuilt` the first line
/// by which it can't go on. What happened before it is left then, as `rebuild_as_read` has it, and it
/// isn't told whether that closed. `Close` where all was done, and that doesn't close; `NoMemory` or
/// `Write` where it did, and the line wasn't printed.
pub fn run_rebuild<F: PassFiles, S: Alter + Drop, D: Databases<Database = Connection<S>>, O: Write>(
    files: &F,
    databases: &D,
    alloc: Global,
    database: &str,
    journal: &str,
    output: &mut Counted<O>,
) -> Result<u8, CommandFault>
    ensures done { IfOk result (λ status. HasRebuilt S.Store D.Databases database.now
        (F.opens files.now journal.now) F.gives F.File.remaining O.contents output.old output.new
        × (status ≡ 0)) }
    ensures failed { IfErr result (FailsToRebuild S.Store D.Databases database.now
        (F.opens files.now journal.now) F.gives F.File.remaining O.contents output.old output.new) }
{
    let built = rebuild_at(files, databases, alloc, database, journal)?;
    let line = match seal_line(alloc, "rebuilt", built.events, &built.seal) {
        Ok(line) => line,
        Err(refused) => return Err(CommandFault::NoMemory(refused.into())),
    };
    print_bytes(output, &line)?;
    Ok(0)
}
