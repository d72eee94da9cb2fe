//! A clock that is no system's.

use std::cell::Cell;
use std::io;
use std::io::ErrorKind;
use std::time::{Clock, Duration};

/// A clock that counts so many seconds more at each look, the first being 0; without them it can't
/// be read.
#[derive(Drop)]
pub struct Ticking {
    seconds: Cell<u64>,
    step: Option<u64>,
}

impl Ticking {
    /// A clock that counts so many seconds more at each look.
    pub fn new(step: Option<u64>) -> Ticking {
        let seconds = Cell::new(0);
        Ticking { seconds, step }
    }
}

impl Clock for Ticking {
    fn monotonic(&self) -> io::Result<Duration> {
        let Some(step) = self.step else {
            return Err(io::Error::from(ErrorKind::Unsupported));
        };
        let seconds = self.seconds.get();
        self.seconds.set(seconds.saturating_add(step));
        Ok(Duration::from_secs(seconds))
    }

    fn since_1970(&self) -> io::Result<Duration> {
        Err(io::Error::from(ErrorKind::Unsupported))
    }
}
