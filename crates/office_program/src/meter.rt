//! The line, and when it was last written.

use crate::line::ReadSoFar;
use crate::pace::is_due;
use std::cell::Cell;
use std::io::Eprint;
use std::time::{Clock, Instant};

/// A line on standard error that says how far the work is. It is written only where standard error
/// is a terminal, two seconds after this was made and later, and at most twice a second. That it
/// can't be written is no fault.
#[derive(Drop)]
pub(crate) struct Meter<R: Clock + Eprint> {
    rt: R,
    began: Option<Instant>,
    last: Cell<Option<Instant>>,
    stands: Cell<bool>,
}

impl<R: Clock + Eprint> Meter<R> {
    /// A meter of work that begins now; one that writes nothing where standard error is no terminal,
    /// or there is no clock.
    pub(crate) fn new(rt: R, on_terminal: bool) -> Meter<R> {
        let began = if on_terminal {
            Instant::now(&rt).ok()
        } else {
            None
        };
        Meter {
            rt,
            began,
            last: Cell::new(None),
            stands: Cell::new(false),
        }
    }

    /// Whether it may ever write.
    pub(crate) fn is_on(&self) -> bool {
        self.began.is_some()
    }

    /// Writes how far the work is, where that is due.
    pub(crate) fn note(&self, so_far: ReadSoFar) {
        let Some(began) = self.began else {
            return;
        };
        let Ok(now) = Instant::now(&self.rt) else {
            return;
        };
        let since_last = match self.last.get() {
            Some(last) => Some(now.duration_since(last)),
            None => None,
        };
        if is_due(now.duration_since(began), since_last) {
            let _ = eprint!(&self.rt; "\r{so_far}");
            self.last.set(Some(now));
            self.stands.set(true);
        }
    }

    /// Takes the line away, where one stands.
    pub(crate) fn clear(&self) {
        if self.stands.get() {
            let _ = eprint!(&self.rt; "\r{:48}\r", "");
            self.stands.set(false);
        }
    }
}
