//! Exchanges until a deadline, by a clock that counts a second more at each look.

use crate::exchanges::trial::{Exchange, Trial, cut_at};
use desk_http::{Deadline, HttpFault, Timed, Timeouts};
use std::cell::Cell;
use std::io;
use std::io::{ErrorKind, Read, Write};
use std::process::Abort;
use std::test::Fail;
use std::time::Duration;
use test_doubles::clock::Ticking;
use test_doubles::fake_streams::{Giving, Sink, Source, Taking};
use test_doubles::messages::{DONE, ENROLMENT};

// The last time-outs of a read and of a write, unless none can be set.
#[derive(Drop)]
struct Lefts {
    read: Cell<Duration>,
    write: Cell<Duration>,
    are_taken: bool,
}

// A stream with those.
#[derive(Drop)]
struct Slow<'a, T> {
    stream: T,
    lefts: &'a Lefts,
}

impl<T: Read> Read for Slow<'_, T> {
    fn read(&mut self, buf: &mut [u8]) -> io::Result<usize> {
        self.stream.read(buf)
    }
}

impl<T: Write> Write for Slow<'_, T> {
    fn write(&mut self, buf: &[u8]) -> io::Result<usize> {
        self.stream.write(buf)
    }

    fn flush(&mut self) -> io::Result<()> {
        Ok(())
    }
}

// Sets a time-out, if it can be.
fn set(left: &Cell<Duration>, are_taken: bool, wanted: Duration) -> io::Result<()> {
    if !are_taken {
        return Err(io::Error::from(ErrorKind::Unsupported));
    }
    left.set(wanted);
    Ok(())
}

impl<T> Timeouts for Slow<'_, T> {
    fn set_read_timeout(&self, left: Duration) -> io::Result<()> {
        set(&self.lefts.read, self.lefts.are_taken, left)
    }

    fn set_write_timeout(&self, left: Duration) -> io::Result<()> {
        set(&self.lefts.write, self.lefts.are_taken, left)
    }
}

// What came of an exchange with those, and what is written.
#[derive(Drop)]
struct Waited {
    exchange: Exchange,
    lefts: (Duration, Duration),
    written: Vec<u8>,
}

// Serves a message that is read and answered a byte a call, where each call takes a second of these.
fn wait(trial: &mut Trial, message: &[u8], seconds: u64, are_taken: bool) -> Result<Waited, Fail> {
    let clock = Ticking::new(Some(1));
    let deadline = Deadline::after(&clock, Duration::from_secs(seconds))?;
    let lefts = Lefts {
        read: Cell::new(Duration::ZERO),
        write: Cell::new(Duration::ZERO),
        are_taken,
    };
    let stream = Source::new(message, Giving::FailsAtEnd);
    let input = Timed::new(
        Slow {
            stream,
            lefts: &lefts,
        },
        &deadline,
    );
    let mut sink = Sink::new(Vec::new(trial.alloc), Taking::OneByOne);
    let slow = Slow {
        stream: &mut sink,
        lefts: &lefts,
    };
    let exchange = trial.serve(input, &mut Timed::new(slow, &deadline));
    Ok(Waited {
        exchange,
        lefts: (lefts.read.get(), lefts.write.get()),
        written: sink.held,
    })
}

// How a message of this length is served, and how many of these bytes are written, where there is time for that many calls.
fn served_in(calls: usize, reads: usize, writes: usize) -> (Result<u16, HttpFault>, usize) {
    match calls.checked_sub(reads) {
        None => (Err(HttpFault::Read), 0),
        Some(count) if count < writes => (Err(cut_at(200)), count),
        Some(_) => (Ok(200), writes),
    }
}

// That as much is written of the response to an enrolment as there is time for in these seconds.
fn assert_written(rt: &impl Abort, trial: &mut Trial, seconds: usize) -> Result<(), Fail> {
    let calls = seconds.saturating_sub(1);
    let (served, count) = served_in(calls, ENROLMENT.len(), DONE.len());
    let front = DONE.as_bytes().get(..count).unwrap_or(b"");
    let waited = wait(trial, ENROLMENT.as_bytes(), seconds as u64, true)?;
    assert_eq!(rt; waited.exchange.served, served, "at {seconds}");
    assert_eq!(rt; waited.written.as_slice(), front, "at {seconds}");
    Ok(())
}

// Each second is a look at the clock: one where the exchange begins, and one before each call of the reader and of the writer.
#[test]
fn a_slow_reader_or_writer_fails_at_the_deadline_and_not_before(
    rt: HostRuntime,
) -> Result<(), Fail> {
    let mut trial = Trial::new(rt.alloc())?;
    let calls = ENROLMENT.len().saturating_add(DONE.len());
    for seconds in 0..calls.saturating_add(3) {
        assert_written(&rt, &mut trial, seconds)?;
    }
    Ok(())
}

// That a head of seven bytes is so waited for, how often the reader fails, and that many bytes are written.
fn assert_waited(
    rt: &impl Abort,
    trial: &mut Trial,
    seconds: u64,
    are_taken: bool,
    served: Result<u16, HttpFault>,
    faults: u64,
    lefts: (u64, u64),
    count: usize,
) -> Result<(), Fail> {
    let waited = wait(trial, b"GET\r\n\r\n", seconds, are_taken)?;
    let told = (waited.lefts.0.as_secs(), waited.lefts.1.as_secs());
    assert_eq!(rt; waited.exchange.served, served);
    assert_eq!(rt; waited.exchange.faults, (faults, 0));
    assert_eq!(rt; (told, waited.written.len()), (lefts, count));
    Ok(())
}

#[test]
fn each_call_may_wait_as_long_as_is_left(rt: HostRuntime) -> Result<(), Fail> {
    let late = Err(HttpFault::Read);
    let mut trial = Trial::new(rt.alloc())?;
    assert_waited(&rt, &mut trial, 1, true, late, 1, (0, 0), 0)?;
    // Seven reads, and 133 writes.
    assert_waited(&rt, &mut trial, 1000, true, Ok(400), 0, (993, 860), 133)?;
    // A stream without time-outs is not read.
    assert_waited(&rt, &mut trial, 9, false, late, 1, (0, 0), 0)
}

// How long it is until a deadline.
fn left_until(deadline: &Deadline<Ticking>) -> Result<Duration, ErrorKind> {
    match deadline.left() {
        Ok(left) => Ok(left),
        Err(error) => Err(error.kind()),
    }
}

#[test]
fn a_deadline_leaves_less_at_each_look_and_never_nothing(rt: HostRuntime) -> Result<(), Fail> {
    let clock = Ticking::new(Some(1));
    let deadline = Deadline::after(&clock, Duration::from_millis(2_500))?;
    for left in [1_500, 500] {
        assert_eq!(rt; left_until(&deadline), Ok(Duration::from_millis(left)));
    }
    for _ in 0..3 {
        assert_eq!(rt; left_until(&deadline), Err(ErrorKind::TimedOut));
    }
    let late = Deadline::after(&clock, Duration::from_secs(1))?;
    assert_eq!(rt; left_until(&late), Err(ErrorKind::TimedOut));
    Ok(())
}

// Why there is no such deadline.
fn fault_of(clock: &Ticking, length: Duration) -> Option<ErrorKind> {
    match Deadline::after(clock, length) {
        Ok(_) => None,
        Err(error) => Some(error.kind()),
    }
}

#[test]
fn a_deadline_is_a_moment_of_the_clock(rt: HostRuntime) -> Result<(), Fail> {
    let clock = Ticking::new(Some(1));
    let last = Deadline::after(&clock, Duration::MAX)?;
    let left = Duration::MAX.saturating_sub(Duration::from_secs(1));
    assert_eq!(rt; left_until(&last), Ok(left));
    assert_eq!(rt;
        fault_of(&clock, Duration::MAX),
        Some(ErrorKind::InvalidInput)
    );
    let broken = Ticking::new(None);
    assert_eq!(rt;
        fault_of(&broken, Duration::from_secs(1)),
        Some(ErrorKind::Unsupported)
    );
    Ok(())
}
