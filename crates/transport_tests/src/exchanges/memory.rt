//! What is answered where memory is refused.

use crate::exchanges::trial::Trial;
use desk_http::HttpFault;
use std::process::Abort;
use std::test::Fail;
use test_doubles::fake_streams::{Sink, Taking};
use test_doubles::messages::{MEMORY, REVIEW};

// What comes of a message.
#[derive(Clone, Copy)]
enum Came {
    // It was handled, and is answered as with ample memory.
    Answered,
    // Memory was refused: it was handled and has no response, or it wasn't handled.
    Refused { is_handled: bool },
}

// What comes of a message that is answered so with ample memory. One that memory was refused is answered so, or not at all.
fn send(rt: &impl Abort, trial: &mut Trial, message: &[u8], wanted: &[u8]) -> Result<Came, Fail> {
    let held = Vec::with_capacity(trial.alloc, 1024)?;
    let mut output = Sink::new(held, Taking::All);
    let (written, came) = match trial.serve(message, &mut output).served {
        Ok(503) => (MEMORY.as_bytes(), Came::Refused { is_handled: false }),
        Ok(_) => (wanted, Came::Answered),
        Err(HttpFault::NoMemory { status, witness: _ }) => {
            let is_handled = status != 503;
            (b"".as_slice(), Came::Refused { is_handled })
        }
        Err(_) => return Err(Fail::from("another fault")),
    };
    assert_eq!(rt; output.held.as_slice(), written);
    Ok(came)
}

// Sends the messages of the review until memory is refused, and says how many were handled.
fn send_until_refused(rt: &impl Abort, trial: &mut Trial) -> Result<usize, Fail> {
    for (at, (message, wanted)) in REVIEW.iter().enumerate() {
        let came = send(rt, trial, message.as_bytes(), wanted.as_bytes())?;
        if let Came::Refused { is_handled } = came {
            return Ok(at.saturating_add(usize::from(is_handled)));
        }
    }
    Ok(REVIEW.len())
}

// With each allocation refused in turn, as by `rt try --test --fail-alloc N`: at most one exchange is answered as out of memory and
// does nothing, or has no response and was done; each other is as with ample memory. With ample memory none is, as
// `exchanges.http` of `tests/transcripts` shows.
#[test]
fn out_of_memory_is_answered_and_does_nothing(rt: HostRuntime) -> Result<(), Fail> {
    let mut trial = Trial::new(rt.alloc())?;
    let handled = send_until_refused(&rt, &mut trial)?;
    for (message, wanted) in REVIEW.iter().skip(handled) {
        let came = send(&rt, &mut trial, message.as_bytes(), wanted.as_bytes())?;
        assert!(rt; matches!(came, Came::Answered));
    }
    Ok(())
}
