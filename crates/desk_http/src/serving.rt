//! Exchanges one after the other, over the streams that a listener hands out.

ghost use Rattle.desk_http.specs.Listening.{AreServedWith, IsNext, IsOver};

use crate::fault::HttpFault;
use crate::listener::{Listener, Stream};
use crate::serve::serve_one;
use crate::served::Served;
use crate::tell::tell;
use http_requests::OfficeRouter;
use json_tree::Scratch;
use office_policy::Handler;
use std::alloc::Global;
use std::io::Write;
use streams::{Counted, WriteFailed};

// Serves an exchange over a stream, and has it taken back.
fn serve_stream<H: Handler, L: Listener>(
    office: &mut H,
    alloc: Global,
    router: &OfficeRouter,
    scratch: &mut Scratch,
    listener: &mut L,
    stream: Stream<L::Reader, L::Writer>,
) -> Result<Served, HttpFault>
    ensures { IsOver L.meaning L.Reader.remaining L.Writer.contents H.meaning
        listener.old listener.new office.old office.new result stream }
{
    let mut reader = Counted::new(stream.reader);
    let mut writer = Counted::new(stream.writer);
    let served = serve_one(office, alloc, router, scratch, &mut reader, &mut writer);
    listener.take_back(reader, writer, served);
    served
}

// Serves an exchange over the next stream. One that can't be accepted is as one that can't be read.
fn serve_next<H: Handler, L: Listener>(
    office: &mut H,
    alloc: Global,
    router: &OfficeRouter,
    scratch: &mut Scratch,
    listener: &mut L,
) -> Result<Served, HttpFault>
    ensures { IsNext L.meaning L.Reader.remaining L.Writer.contents H.meaning
        listener.old listener.new office.old office.new result }
{
    match listener.accept() {
        Ok(stream) => serve_stream(office, alloc, router, scratch, listener, stream),
        Err(_) => Err(HttpFault::Read),
    }
}

/// Serves this many exchanges one after the other, each over the next stream, and writes a line for
/// each: its status, or `fault` and the word of the fault.
///
/// # Errors
///
/// A call of the writer failed in such a line, which ends it.
pub fn serve_exchanges<H: Handler, L: Listener, O: Write>(
    office: &mut H,
    alloc: Global,
    router: &OfficeRouter,
    listener: &mut L,
    exchanges: u64,
    output: &mut Counted<O>,
) -> Result<(), WriteFailed>
    ensures { AreServedWith L.meaning L.Reader.remaining L.Writer.contents H.meaning
        O.contents listener.old listener.new office.old office.new
        output.old output.new exchanges result }
{
    let mut scratch = Scratch::new(alloc);
    for _ in 0..exchanges {
        let served = serve_next(office, alloc, router, &mut scratch, listener);
        tell(output, served)?;
    }
    Ok(())
}
