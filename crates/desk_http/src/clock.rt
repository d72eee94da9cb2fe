//! What a clock shows, so that it can't be made up.

ghost use Rattle.std.specs.Prelude.{Result, ⊤};
ghost use Rattle.std.specs.declared.io.Error.{Error};
ghost use Rattle.std.specs.declared.time.Duration.{Duration};

use std::io;
use std::time::{Clock, Duration};

/// A clock, as seen by who passes on what it shows. Of `shows` nothing is known but that a look
/// meets it, so that who promises it has looked.
pub trait PassClock: Clock {
    /// What the clock shows, or why it doesn't.
    ghost shows: { Self → Result Duration Error → Type 0 };

    /// One look, by [`Clock::monotonic`].
    fn look(&self) -> io::Result<Duration>
        ensures { shows self.now result };
}

impl<C: Clock> PassClock for C {
    ghost shows = { λ _ _. ⊤ };

    fn look(&self) -> io::Result<Duration> {
        self.monotonic()
    }
}
