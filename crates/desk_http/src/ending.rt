//! The end of a connection whose client may still be sending.

ghost use Rattle.std.specs.Prelude.{⊤, Result};
ghost use Rattle.std.specs.declared.io.Error.{Error};
ghost use Rattle.desk_http.specs.Clocks.{IsLeft};
ghost use Rattle.desk_http.specs.Endings.{HasEnded, HasTaken, IsTaken};

use crate::clock::PassClock;
use crate::deadline::Deadline;
use crate::fault::HttpFault;
use crate::served::Served;
use crate::timed::{Timed, Timeouts};
use std::io;
use std::io::Read;
use std::net::{Shutdown, TcpStream};
use std::time::Duration;
use streams::PassRead;

// For how long what the client still sends is taken, in seconds.
const LONGEST: u64 = 1;

// How often.
const MOST_READS: u32 = 10_000;

/// What can say that no more is written to it.
pub trait EndWriting {
    /// What came of saying so.
    ghost ends: { Self → Result ⊤ Error → Type 0 } = { λ _ _. ⊤ };

    /// Says that no more is written.
    fn end_writing(&self) -> io::Result<()>
        ensures { ends self.now result };
}

impl EndWriting for TcpStream {
    fn end_writing(&self) -> io::Result<()> {
        self.shutdown(Shutdown::Write)
    }
}

// Takes what comes until the deadline of a stream.
fn take_all<C: PassClock, T: PassRead + Timeouts>(rest: &mut Timed<'_, C, T>)
    ensures { IsTaken T.read_waits T.gives
        (IsLeft (C.shows rest.old.deadline.clock.now) rest.old.deadline.end)
        MOST_READS rest.old.stream rest.new.stream }
{
    let mut chunk = [0u8; 8192];
    for _ in 0..MOST_READS {
        match rest.read(&mut chunk) {
            Ok(0) | Err(_) => return,
            Ok(_) => {}
        }
    }
}

// Says that the response has ended, and takes what the client still sends.
fn take_rest<C: PassClock, T: PassRead + Timeouts + EndWriting + Drop>(clock: &C, stream: T) -> T
    ensures { HasTaken T.read_waits T.gives (C.shows clock.now) T.ends stream result }
{
    let Ok(deadline) = Deadline::after(clock, Duration::from_secs(LONGEST)) else {
        return stream;
    };
    let Ok(()) = stream.end_writing() else {
        return stream;
    };
    let mut rest = Timed::new(stream, &deadline);
    take_all(&mut rest);
    rest.into_inner()
}

/// Ends an exchange of whose request bytes may still come, and gives its stream. Were the connection
/// closed over unread bytes, it would be reset, and the client might lose the response (RFC 9112,
/// section 9.6).
pub(crate) fn end_exchange<C: PassClock, T: PassRead + Timeouts + EndWriting + Drop>(
    clock: &C,
    stream: T,
    served: Result<Served, HttpFault>,
) -> T
    ensures { HasEnded T.read_waits T.gives (C.shows clock.now) T.ends served stream result }
{
    match served {
        Ok(served) if served.is_unread => take_rest(clock, stream),
        _ => stream,
    }
}
