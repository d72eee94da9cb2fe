//! Readers and writers that give and take in pieces, stop, or fail.

use std::io;
use std::io::{ErrorKind, Read, Write};

/// How many line feeds there are.
pub fn feeds(bytes: &[u8]) -> usize {
    bytes.iter().filter(|b| **b == b'\n').count()
}

/// How a reader gives its bytes.
#[derive(Clone, Copy, Debug)]
pub enum Giving {
    /// All that there is room for.
    Whole,
    /// First this many, then the others.
    CutAt(usize),
    /// One a call, each after a call that is interrupted.
    Interrupted,
    /// One a call, and this call fails, the first being 0.
    FailsAt(usize),
    /// One a call, and the call after the last byte fails.
    FailsAtEnd,
    /// None: each call is interrupted.
    Never,
}

/// A reader of bytes.
#[derive(Drop)]
pub struct Source<'a> {
    rest: &'a [u8],
    calls: usize,
    giving: Giving,
}

impl<'a> Source<'a> {
    /// A reader of these bytes.
    pub fn new(bytes: &'a [u8], giving: Giving) -> Source<'a> {
        Source {
            rest: bytes,
            calls: 0,
            giving,
        }
    }

    // How many bytes this call gives at most.
    fn most(&self) -> io::Result<usize> {
        match self.giving {
            Giving::CutAt(place) if self.calls == 0 && place > 0 => Ok(place),
            Giving::CutAt(_) | Giving::Whole => Ok(self.rest.len()),
            Giving::Never => Err(io::Error::from(ErrorKind::Interrupted)),
            Giving::Interrupted if self.calls % 2 == 0 => {
                Err(io::Error::from(ErrorKind::Interrupted))
            }
            Giving::FailsAt(call) if self.calls == call => {
                Err(io::Error::from(ErrorKind::BrokenPipe))
            }
            Giving::FailsAtEnd if self.rest.is_empty() => {
                Err(io::Error::from(ErrorKind::BrokenPipe))
            }
            _ => Ok(1),
        }
    }
}

impl Read for Source<'_> {
    fn read(&mut self, buf: &mut [u8]) -> io::Result<usize> {
        let most = self.most();
        self.calls = self.calls.saturating_add(1);
        let count = most?.min(buf.len());
        self.rest.read(&mut buf[..count])
    }
}

/// How a writer takes its bytes.
#[derive(Clone, Copy, Debug)]
pub enum Taking {
    /// All that it is given.
    All,
    /// All that it is given, in this many calls; then it fails.
    Calls(usize),
    /// This many bytes in all; then it fails.
    Bytes(usize),
    /// One byte a call.
    OneByOne,
    /// None.
    Nothing,
}

/// A writer of bytes.
#[derive(Drop)]
pub struct Sink {
    /// What it has taken.
    pub held: Vec<u8>,
    taking: Taking,
}

impl Sink {
    /// A writer that holds these bytes.
    pub fn new(held: Vec<u8>, taking: Taking) -> Sink {
        Sink { held, taking }
    }

    // How many of these bytes this call takes.
    fn most(&mut self, given: usize) -> io::Result<usize> {
        match self.taking {
            Taking::Calls(0) | Taking::Bytes(0) => Err(io::Error::from(ErrorKind::BrokenPipe)),
            Taking::Calls(calls) => {
                self.taking = Taking::Calls(calls - 1);
                Ok(given)
            }
            Taking::Bytes(room) => {
                let count = given.min(room);
                self.taking = Taking::Bytes(room - count);
                Ok(count)
            }
            Taking::All => Ok(given),
            Taking::OneByOne => Ok(given.min(1)),
            Taking::Nothing => Ok(0),
        }
    }
}

impl Write for Sink {
    fn write(&mut self, buf: &[u8]) -> io::Result<usize> {
        let count = self.most(buf.len())?.min(buf.len());
        self.held.extend_from_slice(&buf[..count])?;
        Ok(count)
    }

    fn flush(&mut self) -> io::Result<()> {
        Ok(())
    }
}
