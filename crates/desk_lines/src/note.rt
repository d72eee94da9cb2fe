//! What is noted, on standard error, of a line that is JSON and no request.

ghost use Rattle.std.specs.Prelude.{◌≡◌, ◌+◌, ◌≤◌, ◌++◌, option_and_then, option_map};
ghost use Rattle.arrayvec.specs.ArrayString.{array_string_len};
ghost use Rattle.desk_lines.specs.Flaws.{flaw_word};
ghost use Rattle.desk_lines.specs.Notes.{behind, named, note_line, word_of, HasNote, IsNote};

use crate::flaw::Flaw;
use crate::flawed::flaw_of_line;
use crate::outcome::LineOutcome;
use arrayvec::ArrayString;
use itoa::Buffer;
use json_requests::BadLine;
use json_tree::Scratch;
use no_memory::NoMemory;
use std::alloc::Global;
use std::io::Write;
use streams::{Counted, write_whole};

// Room for the longest note.
const MOST_BYTES: usize = 96;

// What is named of what was found.
fn word_of(found: Result<Option<Flaw>, NoMemory>) -> Option<&'static str>
    ensures { option_map (λ word. word.now) result ≡ word_of found }
{
    match found {
        Ok(Some(flaw)) => flaw.word(),
        _ => None,
    }
}

// Adds that to a note.
fn push_word(note: &mut ArrayString<MOST_BYTES>, found: Result<Option<Flaw>, NoMemory>)
    requires { array_string_len note.old + 15 ≤ MOST_BYTES }
    ensures { note.new.bytes ≡ note.old.bytes ++ named found }
{
    if let Some(word) = word_of(found) {
        note.push_str(" ");
        note.push_str(word);
    }
}

// The note of the line of this number. It takes no memory of its own.
fn note_text(number: u64, found: Result<Option<Flaw>, NoMemory>) -> ArrayString<MOST_BYTES>
    ensures { result.bytes ≡ note_line number found }
{
    let mut digits = Buffer::new();
    let mut note = ArrayString::new();
    note.push_str("office: line ");
    note.push_str(digits.format(number));
    note.push_str(": not-a-request");
    push_word(&mut note, found);
    note.push_str("\n");
    note
}

// Writes a note. Where that fails there is no more to say.
fn put<E: Write>(errors: &mut Counted<E>, note: &str)
    ensures { IsNote E.contents errors.old errors.new note.now }
{
    let _ = write_whole(errors, note.as_bytes());
}

/// Notes what is wrong with the line of this number, where it is JSON and no request.
pub(crate) fn note<E: Write>(
    alloc: Global,
    outcome: &LineOutcome,
    line: &[u8],
    scratch: &mut Scratch,
    errors: &mut Counted<E>,
    number: u64,
)
    ensures { HasNote E.contents number line.now outcome.now errors.old errors.new }
{
    if let LineOutcome::Bad(BadLine::NotARequest) = outcome {
        let found = flaw_of_line(alloc, line, scratch);
        put(errors, note_text(number, found).as_str());
    }
}
