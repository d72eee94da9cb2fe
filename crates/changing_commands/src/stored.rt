//! `desk`: the desk of an office in a file.

ghost use Rattle.command_host.specs.Outside.{known};
ghost use Rattle.changing_commands.specs.Lines.{HasEnded};
ghost use Rattle.changing_commands.specs.Served.{IsDesk, MayNote};
ghost use Rattle.desk_lines.specs.Notes.{AreNotes};
ghost use Rattle.streams.specs.CallsLeft.{HasCallsLeft, HasFaultsLeft};

use crate::lines::{DeskEnded, answer_lines};
use crate::served::{Serves, serve_named};
use command_host::{CommandFault, Host, Outside};
use command_line::JournalWords;
use no_memory::NoMemory;
use office_policy::Handler;
use std::alloc::Global;
use std::io::{Read, Write};
use streams::Counted;

// A desk, and the witness, where its answer to a line says that there was no memory.
#[derive(Drop)]
struct Desk {
    witness: Option<NoMemory>,
}

impl<R: Read, W: Write, E: Write> Serves<Counted<R>, Counted<W>, Counted<E>> for Desk {
    ghost can_serve = { λ input output. HasCallsLeft input × HasFaultsLeft output };

    ghost comes = { λ old new came left output wrote errors noted X m.
        HasEnded W.contents E.contents m (R.remaining came.inner) (R.remaining left.inner)
        output wrote errors noted new.witness };

    ghost notes = { λ errors noted. AreNotes E.contents errors noted };

    fn serve<H: Handler>(
        &mut self,
        office: &mut H,
        alloc: Global,
        input: &mut Counted<R>,
        output: &mut Counted<W>,
        errors: &mut Counted<E>,
    ) -> Result<(), CommandFault> {
        let answered = answer_lines(office, alloc, input, output, errors);
        self.witness = answered.witness;
        answered.ended
    }
}

/// Answers the lines of a reader at the desk of the office at a path, with its journal at another
/// where that is named, notes those that are no requests, and closes the office, also after a fault of the desk. Where closing fails
/// too, the desk's fault is told. An office that has a journal goes on without only where that is
/// said.
pub fn serve_stored<H: Host, R: Read, W: Write, E: Write>(
    host: &Outside<'_, H>,
    alloc: Global,
    path: &str,
    journal: JournalWords<'_>,
    input: &mut Counted<R>,
    output: &mut Counted<W>,
    errors: &mut Counted<E>,
) -> DeskEnded
    requires reads { HasCallsLeft input.old }
    requires writes { HasFaultsLeft output.old }
    ensures served { IsDesk (known host.now) W.contents output.old output.new
        E.contents errors.old errors.new
        (R.remaining input.old.inner) (R.remaining input.new.inner) result.witness path.now
        journal.entry result.ended }
    ensures noted { MayNote (AreNotes E.contents) errors.old errors.new }
{
    let mut desk = Desk { witness: None };
    let ended = serve_named(host, alloc, path, journal, &mut desk, input, output, errors);
    DeskEnded {
        ended,
        witness: desk.witness,
    }
}
