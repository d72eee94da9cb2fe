use std::alloc::{AllocError, Global};
use std::io;
use std::io::{ErrorKind, Read, Write};
use streams::{
    Counted, ReadStep, SomeRead, WriteFailed, is_interrupted, read_some, read_step, write_whole,
};

// A reader that is interrupted, gives one byte, fails, and then is at its end.
#[derive(Drop)]
struct Halting {
    calls: u8,
}

impl Read for Halting {
    fn read(&mut self, buf: &mut [u8]) -> io::Result<usize> {
        let call = self.calls;
        self.calls = self.calls.saturating_add(1);
        if call == 0 {
            return Err(io::Error::from(ErrorKind::Interrupted));
        }
        if call == 2 {
            return Err(io::Error::from(ErrorKind::BrokenPipe));
        }
        if call == 1 && !buf.is_empty() {
            buf[0] = b'a';
            return Ok(1);
        }
        Ok(0)
    }
}

// What a writer with no room answers.
#[derive(Clone, Copy)]
enum Full {
    TakesNone,
    Interrupted,
    Fails,
}

// A writer that takes two bytes a call, as long as it has room.
#[derive(Drop)]
struct Narrow {
    held: Vec<u8>,
    room: usize,
    full: Full,
}

impl Narrow {
    fn new(alloc: Global, room: usize, full: Full) -> Narrow {
        Narrow {
            held: Vec::new(alloc),
            room,
            full,
        }
    }
}

impl Write for Narrow {
    fn write(&mut self, buf: &[u8]) -> io::Result<usize> {
        let count = buf.len().min(self.room).min(2);
        if count == 0 {
            return match self.full {
                Full::TakesNone => Ok(0),
                Full::Interrupted => Err(io::Error::from(ErrorKind::Interrupted)),
                Full::Fails => Err(io::Error::from(ErrorKind::BrokenPipe)),
            };
        }
        self.held.extend_from_slice(&buf[..count])?;
        self.room -= count;
        Ok(count)
    }

    fn flush(&mut self) -> io::Result<()> {
        Ok(())
    }
}

// What came of a call of read, the first byte of its buffer, and the calls and faults that there
// were by then.
fn seen_step(reader: &mut Counted<Halting>) -> (ReadStep, u8, u64, u64) {
    let mut buffer = [0u8; 8];
    let step = read_step(reader, &mut buffer);
    (step, buffer[0], reader.calls(), reader.faults())
}

#[test]
fn an_interrupted_read_is_a_call_and_no_fault(rt: HostRuntime) {
    let mut reader = Counted::new(Halting { calls: 0 });
    for seen in [
        (ReadStep::Interrupted, 0, 1, 0),
        (ReadStep::Bytes(1), b'a', 2, 0),
        (ReadStep::Failed, 0, 3, 1),
        (ReadStep::End, 0, 4, 1),
    ] {
        assert_eq!(rt; seen_step(&mut reader), seen);
    }
    assert_eq!(rt; reader.into_inner().calls, 4);
}

#[test]
fn a_text_is_written_whole_in_pieces(rt: HostRuntime) {
    let mut writer = Counted::new(Narrow::new(rt.alloc(), 9, Full::Fails));
    let text = write_whole(&mut writer, b"profile");
    let nothing = write_whole(&mut writer, b"");
    let flushed = writer.flush().is_ok();
    let seen = (text, nothing, flushed, writer.calls(), writer.faults());
    let held = writer.into_inner().held;
    assert_eq!(rt;
        (seen, held.as_slice()),
        ((Ok(()), Ok(()), true, 4, 0), b"profile".as_slice())
    );
}

#[test]
fn a_write_that_is_cut_is_a_fault_and_its_front_part_stands(rt: HostRuntime) {
    for full in [Full::TakesNone, Full::Interrupted, Full::Fails] {
        let mut writer = Counted::new(Narrow::new(rt.alloc(), 3, full));
        let answer = write_whole(&mut writer, b"profile");
        let seen = (answer, writer.calls(), writer.faults());
        let held = writer.into_inner().held;
        assert_eq!(rt;
            (seen, held.as_slice()),
            ((Err(WriteFailed), 3, 1), b"pro".as_slice())
        );
    }
}

// A writer whose first flush fails.
#[derive(Drop)]
struct Flushed {
    flushes: u8,
}

impl Write for Flushed {
    fn write(&mut self, buf: &[u8]) -> io::Result<usize> {
        Ok(buf.len())
    }

    fn flush(&mut self) -> io::Result<()> {
        self.flushes = self.flushes.saturating_add(1);
        if self.flushes == 1 {
            return Err(io::Error::from(ErrorKind::BrokenPipe));
        }
        Ok(())
    }
}

#[test]
fn a_flush_reaches_the_writer_and_its_answer_is_given(rt: HostRuntime) {
    let mut writer = Counted::new(Flushed { flushes: 0 });
    let first_fails = writer.flush().is_err();
    let second_succeeds = writer.flush().is_ok();
    let faults = writer.faults();
    assert_eq!(rt;
        (
            first_fails,
            second_succeeds,
            faults,
            writer.into_inner().flushes
        ),
        (true, true, 0, 2)
    );
}

// A writer that takes all that it is given.
#[derive(Drop)]
struct Taking {
    taken: usize,
}

impl Write for Taking {
    fn write(&mut self, buf: &[u8]) -> io::Result<usize> {
        self.taken = self.taken.saturating_add(buf.len());
        Ok(buf.len())
    }

    fn flush(&mut self) -> io::Result<()> {
        Ok(())
    }
}

#[test]
fn a_long_text_is_written_by_one_call(rt: HostRuntime) -> Result<(), AllocError> {
    let text = Vec::from_elem(rt.alloc(), b'a', 400_000)?;
    let mut writer = Counted::new(Taking { taken: 0 });
    let written = write_whole(&mut writer, &text);
    let seen = (written, writer.calls(), writer.faults());
    assert_eq!(rt;
        (seen, writer.into_inner().taken),
        ((Ok(()), 1, 0), 400_000)
    );
    Ok(())
}

#[test]
fn only_an_interruption_is_one(rt: HostRuntime) {
    for (kind, is_one) in [
        (ErrorKind::Interrupted, true),
        (ErrorKind::WouldBlock, false),
    ] {
        assert_eq!(rt; is_interrupted(&io::Error::from(kind)), is_one);
    }
}

#[test]
fn some_bytes_are_read_past_an_interruption(rt: HostRuntime) {
    let mut reader = Counted::new(Halting { calls: 0 });
    let mut buffer = [0u8; 8];
    let first = read_some(&mut reader, &mut buffer, 9);
    let (byte, calls) = (buffer[0], reader.calls());
    let second = read_some(&mut reader, &mut buffer, 9);
    let third = read_some(&mut reader, &mut buffer, 9);
    let ended = (third, reader.calls(), reader.faults());
    assert_eq!(rt;
        (
            (first, first.count(), byte, calls),
            (second, second.count()),
            ended
        ),
        (
            (SomeRead::Bytes(1), 1, b'a', 2),
            (SomeRead::Failed, 0),
            (SomeRead::End, 4, 1)
        )
    );
}

// A reader that is interrupted at each call.
#[derive(Drop)]
struct Interrupted;

impl Read for Interrupted {
    fn read(&mut self, _buf: &mut [u8]) -> io::Result<usize> {
        Err(io::Error::from(ErrorKind::Interrupted))
    }
}

#[test]
fn a_reader_that_is_always_interrupted_is_called_as_often_as_is_allowed(rt: HostRuntime) {
    let mut reader = Counted::new(Interrupted);
    let mut buffer = [0u8; 8];
    let first = read_some(&mut reader, &mut buffer, 5);
    let (calls, faults) = (reader.calls(), reader.faults());
    let second = read_some(&mut reader, &mut buffer, 5);
    assert_eq!(rt;
        (first, calls, faults, second, reader.calls()),
        (SomeRead::TooManyReads, 5, 0, SomeRead::TooManyReads, 5)
    );
}

// A reader that gives its text three bytes a call.
#[derive(Drop)]
struct Slow<'a> {
    text: &'a [u8],
}

impl Read for Slow<'_> {
    fn read(&mut self, buf: &mut [u8]) -> io::Result<usize> {
        let count = self.text.len().min(buf.len()).min(3);
        buf[..count].copy_from_slice(&self.text[..count]);
        self.text = &self.text[count..];
        Ok(count)
    }
}

#[test]
fn a_long_buffer_is_read_into(rt: HostRuntime) -> Result<(), AllocError> {
    let mut buffer = Vec::from_elem(rt.alloc(), 0u8, 400_000)?;
    let mut reader = Counted::new(Slow { text: b"profile" });
    let step = read_step(&mut reader, &mut buffer);
    let seen = (step, reader.calls(), reader.faults());
    assert_eq!(rt; seen, (ReadStep::Bytes(3), 1, 0));
    Ok(())
}
