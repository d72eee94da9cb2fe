//! The line of a text.

ghost use Rattle.std.specs.Prelude.{◌≡◌, IfOk, bytes_eq};
ghost use Rattle.journal.specs.Faults.{IsCandidate, IsRead};
ghost use Rattle.journal.specs.Forms.{IsFormed, IsNumbered};
ghost use Rattle.journal.specs.Lines.{text_of};
ghost use Rattle.journal.specs.Read.{candidate_in};
ghost use Rattle.journal.specs.Shown.{shown};

use crate::line::Line;
use crate::part::candidate_of;
use crate::print::text;
use json_requests::LineFault;
use json_tree::{ReadFault, Scratch, Tree};
use sealed_log::Unreadable;
use std::alloc::{AllocError, Global};

// What a text may be.
#[tactic(auto, using(crate::proofs::LineFacts::candidate_is, crate::proofs::LineFacts::candidate_none))]
fn candidate(alloc: Global, bytes: &[u8]) -> Result<Line, Unreadable>
    ensures { IsCandidate result (candidate_in bytes.now) }
{
    let mut scratch = Scratch::new(alloc);
    match Tree::from_slice(alloc, bytes, &mut scratch) {
        Ok(value) => match candidate_of(alloc, &value) {
            Ok(line) => Ok(line),
            Err(LineFault::NotJson | LineFault::NotARequest) => Err(Unreadable::NotALine),
            Err(LineFault::NoMemory(witness)) => Err(Unreadable::NoMemory(witness)),
        },
        Err(ReadFault::NotJson) => Err(Unreadable::NotALine),
        Err(ReadFault::NoMemory(witness)) => Err(Unreadable::NoMemory(witness)),
    }
}

// Whether the bytes are the text of a line, which has its forms where its number has its own.
fn is_its_text(alloc: Global, line: &Line, bytes: &[u8]) -> Result<bool, AllocError>
    ensures same { IfOk result (λ same. same ≡ bytes_eq (text_of (shown line.now)) bytes.now) }
    ensures forms { IsNumbered (shown line.now) → IsFormed (shown line.now) }
{
    let written = text(alloc, line)?;
    Ok(written.as_bytes() == bytes)
}

/// The line that a text is, which is passed without its line feed. It is read where it is the
/// line's text to the byte: each line has one text.
///
/// # Errors
///
/// It is that of no line (`NotALine`), or memory fails.
#[tactic(auto, using(crate::proofs::LineFacts::unread, crate::proofs::LineFacts::read_same, crate::proofs::LineFacts::read_other))]
pub fn read_line(alloc: Global, bytes: &[u8]) -> Result<Line, Unreadable>
    ensures { IsRead bytes.now result }
{
    let line = candidate(alloc, bytes)?;
    if is_its_text(alloc, &line, bytes)? {
        Ok(line)
    } else {
        Err(Unreadable::NotALine)
    }
}
