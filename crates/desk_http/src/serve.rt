//! One exchange.

ghost use Rattle.std.specs.Prelude.{◌≡◌, ◌+◌, ◌≤◌};
ghost use Rattle.office_policy.specs.History.{History};
ghost use Rattle.office_policy.specs.Handled.{IsHandled, LeavesOnly};
ghost use Rattle.desk_http.specs.Served.{IsServed, IsServedOf, IsTold, IsWritten, LeftByOne};
ghost use Rattle.desk_http.specs.Served.{ReadCounts, StaysWhole, TellCounts};
ghost use Rattle.streams.specs.CallsLeft.{HasCallsLeft, HasFaultsLeft};
ghost use Rattle.no_memory.specs.Witness.{witness};

use crate::fault::HttpFault;
use crate::outcome::ExchangeOutcome;
use crate::served::Served;
use http_requests::{OfficeRouter, answer_response, memory_response, refusal_response};
use json_tree::Scratch;
use office_policy::Handler;
use std::alloc::{AllocError, Global};
use std::io::{Read, Write};
use streams::{Counted, write_whole};

/// How often the reader of an exchange may be called.
pub const MAX_READS: u64 = 600_000;

// Writes a response, which is to come to this.
fn write_response<W: Write>(
    writer: &mut Counted<W>,
    text: &str,
    served: Served,
) -> Result<Served, HttpFault>
    ensures written { IsWritten (W.contents writer.old.inner) (W.contents writer.new.inner)
        text.now served result }
    ensures faults { TellCounts writer.old.faults writer.new.faults result }
{
    let Served {
        status,
        witness,
        ..
    } = served;
    match write_whole(writer, text.as_bytes()) {
        Ok(()) => Ok(served),
        Err(_) => Err(HttpFault::Write { status, witness }),
    }
}

// Why a response with this status isn't made.
fn unmade(status: u16, refused: AllocError) -> HttpFault
    ensures { result ≡ HttpFault.NoMemory status witness }
{
    HttpFault::NoMemory {
        status,
        witness: refused.into(),
    }
}

// Writes the response that reports an outcome.
fn tell<W: Write>(
    alloc: Global,
    outcome: &ExchangeOutcome,
    writer: &mut Counted<W>,
) -> Result<Served, HttpFault>
    ensures told { IsTold (W.contents writer.old.inner) (W.contents writer.new.inner)
        outcome.now result }
    ensures faults { TellCounts writer.old.faults writer.new.faults result }
{
    let status = outcome.status();
    let served = outcome.served();
    let code = served.status;
    let text = match outcome {
        ExchangeOutcome::NoMemory(_) => return write_response(writer, memory_response(), served),
        ExchangeOutcome::Refused(why) => refusal_response(alloc, status, why.word()),
        ExchangeOutcome::Answered { request: _, answer } => answer_response(alloc, status, answer),
    };
    match text {
        Ok(text) => write_response(writer, &text, served),
        Err(refused) => Err(unmade(code, refused)),
    }
}

// Serves an exchange, as said of `serve_one`.
fn exchange<H: Handler, R: Read, W: Write>(
    office: &mut H,
    alloc: Global,
    router: &OfficeRouter,
    scratch: &mut Scratch,
    reader: &mut Counted<R>,
    writer: &mut Counted<W>,
) -> Result<Served, HttpFault>
    requires reads { HasCallsLeft reader.old }
    ensures served { IsServed (office.new ≡ office.old)
        (IsHandled H.meaning office.old office.new)
        (R.remaining reader.old.inner) (R.remaining reader.new.inner)
        (W.contents writer.old.inner) (W.contents writer.new.inner) result }
    ensures read { ReadCounts reader.old.calls reader.new.calls (reader.old.calls + MAX_READS)
        reader.old.faults reader.new.faults result }
    ensures calls { reader.new.calls ≤ reader.old.calls + MAX_READS }
    ensures write { TellCounts writer.old.faults writer.new.faults result }
{
    let most_calls = reader.calls() + MAX_READS;
    let outcome = ExchangeOutcome::of_stream(office, alloc, router, scratch, reader, most_calls)?;
    tell(alloc, &outcome, writer)
}

/// Hears the request that a stream begins with, handles it and writes the response, of which the
/// status is given, and whether bytes of the request may still come. The connection is closed
/// afterwards.
///
/// A head that is refused, is so whatever follows it. Out of memory before the request is handled
/// is answered by that fault and changes nothing, and the witness is handed on.
///
/// Where before the call a crash left just the office of a history, afterwards it leaves just the
/// office of the history after the request, or where that was answered by a fault, the same with
/// the event of the request.
///
/// # Errors
///
/// [`HttpFault`] says what stands then. The reader is called at most [`MAX_READS`] times.
pub fn serve_one<H: Handler, R: Read, W: Write>(
    office: &mut H,
    alloc: Global,
    router: &OfficeRouter,
    scratch: &mut Scratch,
    reader: &mut Counted<R>,
    writer: &mut Counted<W>,
) -> Result<Served, HttpFault>
    requires reads { HasCallsLeft reader.old }
    requires writes { HasFaultsLeft writer.old }
    ensures served { IsServed (office.new ≡ office.old)
        (IsHandled H.meaning office.old office.new)
        (R.remaining reader.old.inner) (R.remaining reader.new.inner)
        (W.contents writer.old.inner) (W.contents writer.new.inner) result }
    ensures of_stream { IsServedOf (office.new ≡ office.old)
        (IsHandled H.meaning office.old office.new) (R.remaining reader.old.inner)
        (W.contents writer.old.inner) (W.contents writer.new.inner) result }
    ensures left { (h : History) → H.meaning.is_of h office.old → LeavesOnly H.meaning h office.old
        → H.meaning.is_clean office.new
        → IsServed (StaysWhole H.meaning h office.old office.new)
        (LeftByOne H.meaning h office.old office.new)
        (R.remaining reader.old.inner) (R.remaining reader.new.inner)
        (W.contents writer.old.inner) (W.contents writer.new.inner) result }
    ensures read { ReadCounts reader.old.calls reader.new.calls (reader.old.calls + MAX_READS)
        reader.old.faults reader.new.faults result }
    ensures calls { reader.new.calls ≤ reader.old.calls + MAX_READS }
    ensures write { TellCounts writer.old.faults writer.new.faults result }
{
    exchange(office, alloc, router, scratch, reader, writer)
}
