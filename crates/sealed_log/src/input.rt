//! Reading a log as a stream.

ghost use Rattle.std.specs.Prelude.{◌≡◌, ◌<◌, length};
ghost use Rattle.std.specs.IoError.{error_kind};
ghost use Rattle.sealed_log.specs.Input.{IsInterruption, ReadsBody, ReadsPiece, ReadsText, Unseals};
ghost use Rattle.sealed_log.specs.Input.{input_fault, piece_of_kind};
ghost use Rattle.sealed_log.specs.Sealed.{longest};

use crate::lines::{LONGEST, find_feed};
use crate::seals::{Seal, body_of, seal_in};
use crate::unreadable::Unreadable;
use no_memory::NoMemory;
use std::alloc::Global;
use std::io::{BufRead, ErrorKind};
use std::{cmp, io};

// Why the input couldn't be read.
fn fault_of(error: &io::Error) -> Unreadable
    ensures { result ≡ input_fault (error_kind error.now) }
{
    match error.kind() {
        ErrorKind::OutOfMemory => Unreadable::NoMemory(NoMemory::told()),
        _ => Unreadable::Read,
    }
}

// What came of reading a piece of a line.
enum Piece {
    // The line goes on.
    Part,
    // Its line feed was read, and is left out.
    Whole,
    // No byte is left.
    Nothing,
}

// What an error makes of a piece: a read that was interrupted is made again.
fn interruption(error: &io::Error) -> Result<Piece, Unreadable>
    ensures made { result ≡ piece_of_kind (error_kind error.now) }
    ensures outside { IsInterruption result }
{
    match error.kind() {
        ErrorKind::Interrupted => Ok(Piece::Part),
        _ => Err(fault_of(error)),
    }
}

// Reads on in a line, by what the input has at hand, and no further than a line can be long.
fn read_on<R: BufRead>(input: &mut R, text: &mut Vec<u8>) -> Result<Piece, Unreadable>
    requires { length text.old.items < longest }
    ensures { ReadsPiece (R.remaining input.old) (R.remaining input.new)
        text.old.items text.new.items result }
{
    let bytes = match input.fill_buf() {
        Ok(bytes) => bytes,
        Err(error) => return interruption(&error),
    };
    if bytes.is_empty() {
        return Ok(Piece::Nothing);
    }
    let most = cmp::min(bytes.len(), LONGEST - text.len());
    match find_feed(&bytes[..most]) {
        Some(n) => {
            text.extend_from_slice(&bytes[..n])?;
            input.consume(n + 1);
            Ok(Piece::Whole)
        }
        None => {
            text.extend_from_slice(&bytes[..most])?;
            input.consume(most);
            Ok(Piece::Part)
        }
    }
}

// Reads the text of the next line, without its line feed; false where no byte is left.
fn read_text<R: BufRead>(input: &mut R, text: &mut Vec<u8>) -> Result<bool, Unreadable>
    ensures { ReadsText (R.remaining input.old) (R.remaining input.new) text.new.items result }
{
    text.clear();
    'pieces: for _ in 0..u64::MAX {
        if text.len() == LONGEST {
            return Err(Unreadable::NotALine);
        }
        match read_on(input, text)? {
            Piece::Part => {}
            Piece::Whole => return Ok(true),
            Piece::Nothing if text.is_empty() => return Ok(false),
            Piece::Nothing => return Err(Unreadable::TornLine),
        }
    }
    Err(Unreadable::Read)
}

// Makes the text of a line that is sealed its body, and takes its seal.
fn unseal(alloc: Global, seal: &mut Seal, text: &mut Vec<u8>) -> Result<(), Unreadable>
    ensures { Unseals seal.old seal.new text.old.items text.new.items result }
{
    match seal_in(alloc, seal, text)? {
        Some(next) => {
            *text = body_of(alloc, text)?;
            *seal = next;
            Ok(())
        }
        None => Err(Unreadable::Unsealed),
    }
}

/// Reads the body of the next line, behind what has this seal, and that line's seal; false where no
/// byte is left.
///
/// # Errors
///
/// [`Unreadable`] says why none is read: `NotALine` of a line that is too long, never `NoEventBefore`.
pub fn read_body<R: BufRead>(
    alloc: Global,
    input: &mut R,
    seal: &mut Seal,
    body: &mut Vec<u8>,
) -> Result<bool, Unreadable>
    ensures { ReadsBody (R.remaining input.old) (R.remaining input.new) seal.old seal.new
        body.new.items result }
{
    if !read_text(input, body)? {
        return Ok(false);
    }
    unseal(alloc, seal, body)?;
    Ok(true)
}
