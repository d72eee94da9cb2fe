//! The text of a journal at a path.

ghost use Rattle.std.specs.Prelude.{◌≡◌, true, IfErr, IfOk};
ghost use Rattle.std.specs.Io.Buffered.{reader_inner, reader_remaining};
ghost use Rattle.command_host.specs.ReadFaults.{IsToldOf, is_of_read, tells_of_read};
ghost use Rattle.command_host.specs.JournalTexts.{IsNoText, IsTextAt};

use crate::fault::CommandFault;
use crate::files::PassFiles;
use crate::noted::Noted;
use journal_faults::{NoEvidence, Refused, Unverified, Unwritten, Why};
use no_memory::NoMemory;
use sealed_log::Unreadable;
use std::alloc::Global;
use std::io::{BufReader, ErrorKind};

/// The text of a journal in a file, which notes whether a call of read failed.
pub type JournalText<'f, F> = BufReader<Noted<'f, F>>;

/// The text of the file at a path, to be read from its beginning.
///
/// # Errors
///
/// `Open` where no file can be opened there, and `NoMemory`.
pub fn text_at<'f, F: PassFiles>(
    files: &'f F,
    alloc: Global,
    path: &str,
) -> Result<JournalText<'f, F>, CommandFault>
    ensures text { IfOk result (λ text. IsTextAt (F.opens files.now path.now) F.File.remaining
        (reader_remaining (λ noted. F.File.remaining noted.file) text)) }
    ensures none { IfErr result (IsNoText (F.opens files.now path.now)) }
{
    let file = match files.open_at(path) {
        Ok(file) => file,
        Err(_) => return Err(CommandFault::Open),
    };
    match BufReader::new(alloc, Noted::new(files, file)) {
        Ok(text) => Ok(text),
        Err(error) => match error.kind() {
            ErrorKind::OutOfMemory => Err(CommandFault::NoMemory(NoMemory::told())),
            _ => unreachable!(),
        },
    }
}

// Whether a journal isn't built on since it couldn't be read.
fn is_of_read(refused: &Refused) -> bool
    ensures { result ≡ is_of_read refused.now }
{
    matches!(refused.why, Why::Unread(Unreadable::Read))
}

/// Whether a fault tells that a journal couldn't be read.
pub(crate) fn tells_of_read(fault: &CommandFault) -> bool
    ensures { result ≡ tells_of_read fault.now }
{
    match fault {
        CommandFault::Unverified(Unverified::Refused(refused)) => is_of_read(refused),
        CommandFault::Unbuilt(refused) => is_of_read(refused),
        CommandFault::Unwritten(Unwritten::Refused(refused)) => is_of_read(refused),
        CommandFault::NoEvidence(NoEvidence::Refused(refused)) => is_of_read(refused),
        _ => false,
    }
}

/// What is told where a text was read and this fault was met: the fault. But where it tells that the
/// journal couldn't be read, and it wasn't noted that a call of read failed, it is told as endless.
pub fn told_of_text<F: PassFiles>(text: &JournalText<'_, F>, met: CommandFault) -> CommandFault
    ensures noted { (reader_inner text.now).failed ≡ true → result ≡ met }
    ensures cause { IsToldOf F.gives met result }
{
    if !tells_of_read(&met) {
        return met;
    }
    match text.get_ref().none_failed() {
        Some(none) => CommandFault::Endless(none),
        None => met,
    }
}
