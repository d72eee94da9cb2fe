//! A database gets a mark: that of the journal of its office, or that the office has none any more.

ghost use Rattle.command_host.specs.Outside.{known};
ghost use Rattle.changing_commands.specs.Served.{IsMarkedWith, IsPartedAt};

use crate::kept::{close_kept, kept_over};
use command_host::{CommandFault, Host, Outside, PARTED, close, least_lines, marked_at, office_at};
use std::alloc::Global;

/// Opens the office at a path with its journal at another, as a desk does, and closes both: the
/// database then has the mark of the journal, whatever mark it had.
///
/// # Errors
///
/// Those of a desk that is opened and closed.
pub fn mark_stored<H: Host>(
    host: &Outside<'_, H>,
    alloc: Global,
    path: &str,
    journal: &str,
) -> Result<(), CommandFault>
    ensures { IsMarkedWith (known host.now) path.now journal.now result }
{
    let (conn, mark) = marked_at(host.databases, path)?;
    let (databases, journals) = (host.databases, host.journals);
    let kept = kept_over(databases, journals, alloc, conn, journal, least_lines(mark))?;
    close_kept(databases, alloc, kept)
}

/// Opens the office at a path, and closes it with the mark of one that goes on without its journal.
///
/// # Errors
///
/// As of [`office_at`] and [`close`].
pub(crate) fn part<H: Host>(host: &Outside<'_, H>, path: &str) -> Result<(), CommandFault>
    ensures { IsPartedAt (known host.now) path.now result }
{
    let office = office_at(host.databases, path)?;
    close(host.databases, office, Some(PARTED))
}
