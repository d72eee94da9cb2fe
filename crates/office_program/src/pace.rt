//! When the line is written.

ghost use Rattle.std.specs.Prelude.{◌↔◌, IsTrue};
ghost use Rattle.office_program.specs.Pace.{IsDue};

use std::time::Duration;

// What takes no longer shows nothing, in nanoseconds.
const LONG: u128 = 2_000_000_000;

// How long a line stands before it is written anew, in nanoseconds.
const PAUSE: u128 = 500_000_000;

/// Whether the line is to be written, so long after the work began and after it was last written, if
/// it was: from two seconds on, and twice a second at most.
pub(crate) fn is_due(worked: Duration, since_last: Option<Duration>) -> bool
    ensures { IsTrue result ↔ IsDue worked since_last }
{
    let paused = match since_last {
        Some(since) => since.as_nanos() >= PAUSE,
        None => true,
    };
    worked.as_nanos() >= LONG && paused
}
