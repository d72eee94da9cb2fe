//! An office in a file is served.

ghost use Rattle.std.specs.Prelude.{◌≡◌};
ghost use Rattle.command_host.specs.Outside.{known};
ghost use Rattle.changing_commands.specs.Served.{Comes, IsServedKept, IsServedNamed, MayNote};
ghost use Rattle.changing_commands.specs.Served.{IsServedOffice, IsServedUnnamed, IsServedWithout};
ghost use Rattle.changing_commands.specs.Untouched.{AreUntouched};

use crate::kept::{close_kept, kept_office_at};
use crate::marking::part;
use command_host::{
    CommandFault, Host, Outside, close, first_fault, office_at, office_over, unmarked_at,
};
use command_line::JournalWords;
use office_policy::Handler;
use review_office::Office;
use std::alloc::Global;

/// What serves an office, over an input, an output, and what it notes.
pub(crate) trait Serves<I, O, E> {
    /// Over which input and output it can.
    ghost can_serve: { I → O → Type 0 };

    /// What comes of that, by what it was and is, what was to come and is left of the input, and the
    /// output and the notes before and after.
    ghost comes: { (old new : Self) → (came left : I) → (output wrote : O) → (errors noted : E)
        → Comes };

    /// What may be noted then.
    ghost notes: { (errors noted : E) → Type 0 };

    /// Serves an office.
    fn serve<H: Handler>(
        &mut self,
        office: &mut H,
        alloc: Global,
        input: &mut I,
        output: &mut O,
        errors: &mut E,
    ) -> Result<(), CommandFault>
        requires { can_serve input.old output.old }
        ensures served { comes self.old self.new input.old input.new output.old output.new
            errors.old errors.new H H.meaning result office.old office.new }
        ensures noted { notes errors.old errors.new };
}

// Serves an office that was opened at a path, and closes it as it was marked.
fn serve_office<H: Host, I, O, E, S: Serves<I, O, E>>(
    host: &Outside<'_, H>,
    alloc: Global,
    office: Office<H::Tables>,
    server: &mut S,
    input: &mut I,
    output: &mut O,
    errors: &mut E,
) -> Result<(), CommandFault>
    requires { S.can_serve input.old output.old }
    ensures served { IsServedOffice (known host.now)
        (S.comes server.old server.new input.old input.new output.old output.new
        errors.old errors.new) office result }
    ensures noted { S.notes errors.old errors.new }
{
    let mut office = office;
    let served = server.serve(&mut office, alloc, input, output, errors);
    let closed = close(host.databases, office, None);
    first_fault(served, closed)
}

// Serves the office at a path where that has no journal.
fn serve_unnamed<H: Host, I, O, E, S: Serves<I, O, E>>(
    host: &Outside<'_, H>,
    alloc: Global,
    path: &str,
    server: &mut S,
    input: &mut I,
    output: &mut O,
    errors: &mut E,
) -> Result<(), CommandFault>
    requires { S.can_serve input.old output.old }
    ensures served { IsServedUnnamed (known host.now)
        (S.comes server.old server.new input.old input.new output.old output.new
        errors.old errors.new) path.now
        (AreUntouched input.old input.new output.old output.new errors.old errors.new
        × (server.new ≡ server.old)) result }
    ensures noted { MayNote S.notes errors.old errors.new }
{
    let conn = unmarked_at(host.databases, path)?;
    let office = office_over(host.databases, conn)?;
    serve_office(host, alloc, office, server, input, output, errors)
}

// The same where the office goes on without its journal. That is marked before anything is answered,
// so that no journal which lacks what happens then is taken for the office's own.
fn serve_without<H: Host, I, O, E, S: Serves<I, O, E>>(
    host: &Outside<'_, H>,
    alloc: Global,
    path: &str,
    server: &mut S,
    input: &mut I,
    output: &mut O,
    errors: &mut E,
) -> Result<(), CommandFault>
    requires { S.can_serve input.old output.old }
    ensures served { IsServedWithout (known host.now)
        (S.comes server.old server.new input.old input.new output.old output.new
        errors.old errors.new) path.now
        (AreUntouched input.old input.new output.old output.new errors.old errors.new
        × (server.new ≡ server.old)) result }
    ensures noted { MayNote S.notes errors.old errors.new }
{
    part(host, path)?;
    let office = office_at(host.databases, path)?;
    serve_office(host, alloc, office, server, input, output, errors)
}

// The same with the journal at this path.
fn serve_kept<H: Host, I, O, E, S: Serves<I, O, E>>(
    host: &Outside<'_, H>,
    alloc: Global,
    path: &str,
    journal: &str,
    server: &mut S,
    input: &mut I,
    output: &mut O,
    errors: &mut E,
) -> Result<(), CommandFault>
    requires { S.can_serve input.old output.old }
    ensures served { IsServedKept (known host.now)
        (S.comes server.old server.new input.old input.new output.old output.new
        errors.old errors.new) path.now
        (AreUntouched input.old input.new output.old output.new errors.old errors.new
        × (server.new ≡ server.old)) journal.now result }
    ensures noted { MayNote S.notes errors.old errors.new }
{
    let mut kept = kept_office_at(host.databases, host.journals, alloc, path, journal)?;
    let served = server.serve(&mut kept, alloc, input, output, errors);
    let closed = close_kept(host.databases, alloc, kept);
    first_fault(served, closed)
}

/// Serves the office at a path, with its journal at another where the words name one, and closes it,
/// also where that failed. Where closing fails too, the first fault is told. An office that has a
/// journal goes on without only where that is said. Where none is served, nothing is read or written.
pub(crate) fn serve_named<H: Host, I, O, E, S: Serves<I, O, E>>(
    host: &Outside<'_, H>,
    alloc: Global,
    path: &str,
    journal: JournalWords<'_>,
    server: &mut S,
    input: &mut I,
    output: &mut O,
    errors: &mut E,
) -> Result<(), CommandFault>
    requires { S.can_serve input.old output.old }
    ensures served { IsServedNamed (known host.now)
        (S.comes server.old server.new input.old input.new output.old output.new
        errors.old errors.new) path.now
        (AreUntouched input.old input.new output.old output.new errors.old errors.new
        × (server.new ≡ server.old)) journal.entry result }
    ensures noted { MayNote S.notes errors.old errors.new }
{
    match journal {
        JournalWords::Named(file) => serve_kept(
            host, alloc, path, file, server, input, output, errors,
        ),
        JournalWords::Without => serve_without(host, alloc, path, server, input, output, errors),
        JournalWords::Unnamed => serve_unnamed(host, alloc, path, server, input, output, errors),
    }
}
