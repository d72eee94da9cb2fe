ghost use Rattle.std.specs.Prelude.{◌≡◌};

use crate::lines::told::{Told, tell_lines};
use std::alloc::{AllocError, Global};
use std::io;
use std::io::{ErrorKind, Read};
use std::process::Abort;
use streams::{Counted, Found, Lines, MAX_LINE};

// How a reader gives its text.
#[derive(Clone, Copy)]
enum Way {
    // This many bytes a call.
    Pieces(usize),
    // First this many bytes, then the others.
    CutAt(usize),
    // A byte a call, each after a call that is interrupted.
    Interrupted,
    // No byte, each call is interrupted.
    AlwaysInterrupted,
    // A byte a call, and this call fails.
    FailsAt(usize),
}

// A reader of a text.
#[derive(Drop)]
struct Text<'a> {
    rest: &'a [u8],
    calls: usize,
    way: Way,
}

impl Text<'_> {
    // How many bytes this call gives at most.
    fn piece(&self) -> io::Result<usize> {
        match self.way {
            Way::Pieces(count) => Ok(count),
            Way::CutAt(place) if self.calls == 0 && place > 0 => Ok(place),
            Way::CutAt(_) => Ok(self.rest.len()),
            Way::Interrupted if self.calls % 2 == 1 => Ok(1),
            Way::Interrupted => Err(io::Error::from(ErrorKind::Interrupted)),
            Way::AlwaysInterrupted => Err(io::Error::from(ErrorKind::Interrupted)),
            Way::FailsAt(call) if self.calls == call => {
                Err(io::Error::from(ErrorKind::BrokenPipe))
            }
            Way::FailsAt(_) => Ok(1),
        }
    }
}

impl Read for Text<'_> {
    fn read(&mut self, buf: &mut [u8]) -> io::Result<usize> {
        let piece = self.piece();
        self.calls = self.calls.saturating_add(1);
        let count = piece?.min(self.rest.len()).min(buf.len());
        buf[..count].copy_from_slice(&self.rest[..count]);
        self.rest = &self.rest[count..];
        Ok(count)
    }
}

// A reader of a text.
fn reader(text: &[u8], way: Way) -> Counted<Text<'_>>
    ensures { result.calls ≡ 0 }
{
    Counted::new(Text {
        rest: text,
        calls: 0,
        way,
    })
}

const TEXT: &[u8] = b"one\n\ntwo and three\r\n\nfour";

const TOLD: &[u8] = b"one\n\ntwo and three\r\n\nfour\n";

// That this text is reported of a stream up to its end, with this many lines.
fn assert_told(rt: &impl Abort, told: &Told, text: &[u8], number: u64) {
    assert_eq!(rt;
        (told.text.as_slice(), told.number, told.stop),
        (text, number, Found::End)
    );
}

#[test]
fn lines_are_those_of_the_stream_however_it_is_cut(rt: HostRuntime) -> Result<(), AllocError> {
    for place in 0..TEXT.len() {
        let told = tell_lines(rt.alloc(), &mut reader(TEXT, Way::CutAt(place)), 9)?;
        assert_told(&rt, &told, TOLD, 5);
    }
    for count in 1..TEXT.len() {
        let told = tell_lines(rt.alloc(), &mut reader(TEXT, Way::Pieces(count)), 99)?;
        assert_told(&rt, &told, TOLD, 5);
    }
    Ok(())
}

#[test]
fn an_interrupted_read_is_made_again_and_counts(rt: HostRuntime) -> Result<(), AllocError> {
    let mut input = reader(TEXT, Way::Interrupted);
    let told = tell_lines(rt.alloc(), &mut input, 99)?;
    assert_told(&rt, &told, TOLD, 5);
    assert_eq!(rt; (input.calls(), input.faults()), (52, 0));
    Ok(())
}

#[test]
fn a_reader_that_is_always_interrupted_is_called_too_often(
    rt: HostRuntime,
) -> Result<(), AllocError> {
    let mut input = reader(TEXT, Way::AlwaysInterrupted);
    let told = tell_lines(rt.alloc(), &mut input, 99)?;
    let counts = (input.calls(), input.faults());
    assert_eq!(rt;
        (told.text.is_empty(), told.stop, counts),
        (true, Found::TooManyReads, (99, 0))
    );
    Ok(())
}

#[test]
fn lines_before_a_failed_read_are_told(rt: HostRuntime) -> Result<(), AllocError> {
    for call in 0..TEXT.len() {
        let mut input = reader(TEXT, Way::FailsAt(call));
        let told = tell_lines(rt.alloc(), &mut input, 99)?;
        let is_front = TOLD.starts_with(&told.text);
        let feeds = TEXT[..call].iter().filter(|b| **b == b'\n').count();
        assert_eq!(rt;
            (is_front, told.number, told.stop, input.faults()),
            (true, feeds as u64, Found::Failed, 1)
        );
    }
    Ok(())
}

#[test]
fn lines_that_came_in_the_allowed_calls_are_told(rt: HostRuntime) -> Result<(), AllocError> {
    let mut input = reader(TEXT, Way::Pieces(1));
    let told = tell_lines(rt.alloc(), &mut input, 4)?;
    assert_eq!(rt;
        (told.text.as_slice(), told.number, told.stop, input.calls()),
        (b"one\n".as_slice(), 1, Found::TooManyReads, 4)
    );
    Ok(())
}

#[test]
fn an_empty_stream_and_one_that_ends_a_line_have_no_further_line(
    rt: HostRuntime,
) -> Result<(), AllocError> {
    for (text, lines, number) in [
        (b"".as_slice(), b"".as_slice(), 0),
        (b"\n".as_slice(), b"\n".as_slice(), 1),
        (b"a".as_slice(), b"a\n".as_slice(), 1),
        (b"a\n".as_slice(), b"a\n".as_slice(), 1),
        (b"\na".as_slice(), b"\na\n".as_slice(), 2),
    ] {
        let told = tell_lines(rt.alloc(), &mut reader(text, Way::Pieces(9)), 9)?;
        assert_told(&rt, &told, lines, number);
    }
    Ok(())
}

// A line of this length, then a short one, perhaps with its line feed.
fn long_and_short(alloc: Global, length: usize, end: &[u8]) -> Result<Vec<u8>, AllocError> {
    let mut text = Vec::from_elem(alloc, b'x', length)?;
    text.extend_from_slice(b"\nnext")?;
    text.extend_from_slice(end)?;
    Ok(text)
}

// That a first line of this length is too long, and the next is reported.
fn assert_too_long(rt: &impl Abort, alloc: Global, length: usize) -> Result<(), AllocError> {
    let text = long_and_short(alloc, length, b"")?;
    for count in [4096, 300_000, 300_001, 700_000] {
        let told = tell_lines(alloc, &mut reader(&text, Way::Pieces(count)), 999)?;
        assert_told(rt, &told, b"too-long\nnext\n", 2);
    }
    Ok(())
}

#[test]
fn a_line_has_at_most_300000_bytes_and_the_next_is_told(rt: HostRuntime) -> Result<(), AllocError> {
    let longest = long_and_short(rt.alloc(), MAX_LINE, b"\n")?;
    for count in [4096, 299_999, 300_000, 300_001, 400_000] {
        let told = tell_lines(rt.alloc(), &mut reader(&longest, Way::Pieces(count)), 99)?;
        assert_told(&rt, &told, &longest, 2);
    }
    for more in [1, 2, 300_000, 300_001, 300_002] {
        assert_too_long(&rt, rt.alloc(), MAX_LINE + more)?;
    }
    Ok(())
}

#[test]
fn a_last_line_may_be_too_long(rt: HostRuntime) -> Result<(), AllocError> {
    for (length, is_long) in [
        (300_000, false),
        (300_001, true),
        (300_002, true),
        (600_002, true),
    ] {
        let text = Vec::from_elem(rt.alloc(), b'x', length)?;
        let told = tell_lines(rt.alloc(), &mut reader(&text, Way::Pieces(100_000)), 99)?;
        let is_told_so = told.text.as_slice() == b"too-long\n".as_slice();
        assert_eq!(rt; (told.number, is_told_so), (1, is_long));
    }
    Ok(())
}

#[test]
fn lines_that_came_together_are_found_without_a_read(rt: HostRuntime) -> Result<(), AllocError> {
    let mut input = reader(b"one\ntwo\nthree", Way::Pieces(99));
    let mut lines = Lines::new(rt.alloc())?;
    let found = lines.find(&mut input, 9);
    let is_one = lines.line().ok() == Some(b"one".as_slice());
    let first = (found, is_one, input.calls());
    if found == Found::Line {
        lines.pass();
    }
    let found = lines.find(&mut input, 9);
    let is_two = lines.line().ok() == Some(b"two".as_slice());
    assert_eq!(rt;
        (first, (found, is_two, input.calls())),
        ((Found::Line, true, 1), (Found::Line, true, 1))
    );
    Ok(())
}
