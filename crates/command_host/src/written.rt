//! What is printed on standard output, and said on standard error.

ghost use Rattle.std.specs.Prelude.{◌≡◌, IfErr, IfOk, None, OnOk, Some, option_copied, string_bytes};
ghost use Rattle.desk_http.specs.Lines.{IsCut, IsWhole};
ghost use Rattle.command_host.specs.Said.{memory_line, refusal_line, refusal_text, seal_line};
ghost use Rattle.command_host.specs.Said.{AreSaid, IsRefusal, IsSaid};
ghost use Rattle.no_memory.specs.Witness.{witness};

use crate::fault::CommandFault;
use crate::plain::{plain_lines, plain_text};
use no_memory::NoMemory;
use std::alloc::{AllocError, Global};
use std::io::Write;
use streams::{Counted, write_whole};

/// Writes all bytes of what a command prints.
pub fn print_bytes<W: Write>(output: &mut Counted<W>, bytes: &[u8]) -> Result<(), CommandFault>
    ensures whole { OnOk result (IsWhole W.contents output.old output.new bytes.now) }
    ensures fault { IfErr result (λ fault. (fault ≡ CommandFault.Write)
        × IsCut W.contents output.old output.new bytes.now) }
{
    match write_whole(output, bytes) {
        Ok(()) => Ok(()),
        Err(_) => Err(CommandFault::Write),
    }
}

/// Writes all of a text that a command prints.
pub fn print<W: Write>(output: &mut Counted<W>, text: &str) -> Result<(), CommandFault>
    ensures whole { OnOk result (IsWhole W.contents output.old output.new text.now) }
    ensures fault { IfErr result (λ fault. (fault ≡ CommandFault.Write)
        × IsCut W.contents output.old output.new text.now) }
{
    print_bytes(output, text.as_bytes())
}

/// The line that says what was done with an office, how many events it has, and the seal of its
/// journal.
pub fn seal_line(alloc: Global, done: &str, events: u64, seal: &[u8]) -> Result<Vec<u8>, AllocError>
    ensures { IfOk result (λ line. line.items ≡ seal_line done.now events seal.now) }
{
    let events = format!(in alloc; "{done} {events} events, seal ")?;
    let mut line = Vec::from_slice(alloc, events.as_str().as_bytes())?;
    line.extend_from_slice(seal)?;
    line.push(b'\n')?;
    Ok(line)
}

/// Says a text. Where that fails there is no more to say.
pub fn say<E: Write>(errors: &mut Counted<E>, text: &str)
    ensures { IsSaid E.contents errors.old errors.new text.now }
{
    let _ = write_whole(errors, text.as_bytes());
}

// Says a text; or in its place that there is no memory, where none was left to make it. Then that is
// handed on.
fn say_or<E: Write>(errors: &mut Counted<E>, text: Result<String, AllocError>) -> Option<NoMemory>
    ensures said { IfOk text (λ text. (result ≡ None)
        × IsSaid E.contents errors.old errors.new (string_bytes text)) }
    ensures unsaid { IfErr text (λ _. (result ≡ Some witness)
        × IsSaid E.contents errors.old errors.new memory_line) }
{
    match text {
        Ok(text) => {
            say(errors, text.as_str());
            None
        }
        Err(refused) => {
            say(errors, "office: memory\n");
            Some(refused.into())
        }
    }
}

/// Says a text of lines, of which no character but their ends controls a terminal; or in its place that
/// there is no memory, with the witness.
pub fn say_lines<E: Write>(alloc: Global, errors: &mut Counted<E>, text: &str) -> Option<NoMemory>
    ensures { AreSaid E.contents errors.old errors.new text.now result }
{
    say_or(errors, plain_lines(alloc, text))
}

// Why a command was refused or failed, and behind that what it is about.
fn refusal_text(
    alloc: Global,
    fault: &CommandFault,
    subject: Option<&str>,
) -> Result<String, AllocError>
    ensures { IfOk result (λ text.
        string_bytes text ≡ refusal_text fault.now (option_copied subject.entry)) }
{
    match subject {
        Some(subject) => format!(in alloc; "office: {fault} {subject}"),
        None => format!(in alloc; "office: {fault}"),
    }
}

// The line that says so.
fn refusal_line(
    alloc: Global,
    fault: &CommandFault,
    subject: Option<&str>,
) -> Result<String, AllocError>
    ensures { IfOk result (λ line.
        string_bytes line ≡ refusal_line fault.now (option_copied subject.entry)) }
{
    let text = refusal_text(alloc, fault, subject)?;
    let mut line = plain_text(alloc, text.as_str())?;
    line.push('\n')?;
    Ok(line)
}

/// Says why a command was refused or failed; and what that is about, as a file that couldn't be read,
/// where that is given. No character but the line feed at the end controls a terminal. Or it says in place of that
/// that there is no memory, with the witness.
pub fn refuse<E: Write>(
    alloc: Global,
    errors: &mut Counted<E>,
    fault: &CommandFault,
    subject: Option<&str>,
) -> Option<NoMemory>
    ensures { IsRefusal E.contents errors.old errors.new fault.now (option_copied subject.entry)
        result }
{
    say_or(errors, refusal_line(alloc, fault, subject))
}
