//! The desk of an office over the streams of the program.

ghost use Rattle.std.specs.Prelude.{◌≡◌, Err, IfErr, None, OnOk};
ghost use Rattle.desk_lines.specs.Stands.{HasNoted};
ghost use Rattle.changing_commands.specs.Lines.{HasAnswered, HasStopped};
ghost use Rattle.streams.specs.CallsLeft.{HasCallsLeft, HasFaultsLeft};

use command_host::CommandFault;
use desk_lines::desk;
use no_memory::NoMemory;
use office_policy::Handler;
use std::alloc::Global;
use std::io::{Read, Write};
use streams::Counted;

/// How the desk of a command ended.
#[derive(Drop)]
pub struct DeskEnded {
    /// All was done, or why not.
    pub ended: Result<(), CommandFault>,
    /// The witness, where the answer to a line says that there was no memory.
    pub witness: Option<NoMemory>,
}

impl DeskEnded {
    // No line was read, for this.
    pub(crate) fn unbegun(why: CommandFault) -> DeskEnded
        ensures { result ≡ record { ended = Err why; witness = None } }
    {
        DeskEnded {
            ended: Err(why),
            witness: None,
        }
    }
}

/// Answers each line of a reader, and notes those that are no requests.
pub(crate) fn answer_lines<H: Handler, R: Read, W: Write, E: Write>(
    office: &mut H,
    alloc: Global,
    input: &mut Counted<R>,
    output: &mut Counted<W>,
    errors: &mut Counted<E>,
) -> DeskEnded
    requires reads { HasCallsLeft input.old }
    requires writes { HasFaultsLeft output.old }
    ensures handled { HasNoted H.meaning E.contents errors.old errors.new office.old office.new }
    ensures answered { OnOk result.ended (HasAnswered W.contents E.contents H.meaning
        (R.remaining input.old.inner) output.old output.new errors.old errors.new result.witness
        office.old office.new) }
    ensures stopped { IfErr result.ended (λ why. HasStopped W.contents E.contents
        H.meaning (R.remaining input.old.inner) (R.remaining input.new.inner)
        output.old output.new errors.old errors.new result.witness why office.old office.new) }
{
    let ended = desk(office, alloc, input, output, errors);
    let witness = ended.witness;
    match ended.answered {
        Ok(()) => DeskEnded {
            ended: Ok(()),
            witness,
        },
        Err(fault) => DeskEnded {
            ended: Err(CommandFault::Desk(fault)),
            witness,
        },
    }
}
