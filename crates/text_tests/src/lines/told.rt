//! Telling the lines of a stream.

ghost use Rattle.std.specs.Prelude.{◌≡◌, ◌^◌, ◌<◌, ◌≤◌, ◌++◌, ℕ, List, length, IfOk, IfSome, OnOk};
ghost use Rattle.streams.specs.Held.{Holds};
ghost use Rattle.streams.specs.Lines.{first_line, lines_of};
ghost use Rattle.text_tests.specs.Told.{told_line, told_lines};

use std::alloc::{AllocError, Global};
use std::io::Read;
use streams::{Counted, Found, Lines};

/// The lines of a stream.
#[derive(Drop)]
pub struct Told {
    /// Each line with a line feed. One that is too long is reported as `too-long`.
    pub text: Vec<u8>,
    /// How many there are.
    pub number: u64,
    /// What was found after them.
    pub stop: Found,
}

// Tells the first line that is held.
fn tell_line(lines: &Lines, text: &mut Vec<u8>) -> Result<(), AllocError>
    ensures { OnOk result ((bytes : List ℕ) → Holds lines.now bytes
        → text.new.items ≡ text.old.items ++ told_line (first_line bytes)) }
{
    match lines.line() {
        Ok(line) => {
            text.extend_from_slice(line)?;
            text.extend_from_slice(b"\n")
        }
        Err(_) => text.extend_from_slice(b"too-long\n"),
    }
}

/// Tells the lines of a stream as they come.
pub fn tell_lines<R: Read>(
    alloc: Global,
    reader: &mut Counted<R>,
    most_calls: u64,
) -> Result<Told, AllocError>
    requires few { most_calls ≤ 2 ^ 32 }
    requires calls { reader.old.calls ≤ most_calls }
    ensures all { IfOk result (λ told. told.stop ≡ Found.End
        → IfSome (R.remaining reader.old.inner) (λ input.
        (told.text.items ≡ told_lines (lines_of input))
        × (told.number ≡ length (lines_of input)))) }
{
    let mut lines = Lines::new(alloc)?;
    let mut text = Vec::new(alloc);
    let mut number = 0u64;
    loop {
        match lines.find(reader, most_calls) {
            Found::Line => {
                tell_line(&lines, &mut text)?;
                number += 1;
                lines.pass();
            }
            Found::LastLine => {
                tell_line(&lines, &mut text)?;
                number += 1;
                let stop = Found::End;
                return Ok(Told { text, number, stop });
            }
            stop => return Ok(Told { text, number, stop }),
        }
    }
}
