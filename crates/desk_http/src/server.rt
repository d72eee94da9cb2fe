//! A server over the connections of a listener.

ghost use Rattle.std.specs.Prelude.{◌≡◌, IfOk};
ghost use Rattle.desk_http.specs.Lasting.{HasServedWithin};

use crate::clock::PassClock;
use crate::serving::serve_exchanges;
use crate::timed_listener::TimedListener;
use http_requests::OfficeRouter;
use office_policy::Handler;
use std::alloc::{AllocError, Global};
use std::io::Write;
use std::net::TcpListener;
use std::time::{Clock, Duration};
use streams::{Counted, WriteFailed};

/// What serves exchanges over connections, each for at most a fixed time.
#[derive(Drop)]
pub struct Server<'c, C: Clock> {
    clock: &'c C,
    alloc: Global,
    router: OfficeRouter,
    longest: Duration,
}

impl<'c, C: PassClock> Server<'c, C> {
    /// A server whose exchanges last at most `longest`, by this clock.
    ///
    /// # Errors
    ///
    /// Out of memory. No contract can say when.
    pub fn new(clock: &'c C, alloc: Global, longest: Duration) -> Result<Server<'c, C>, AllocError>
        ensures clock { IfOk result (λ server. server.clock.now ≡ clock.now) }
        ensures longest { IfOk result (λ server. server.longest ≡ longest) }
    {
        let router = OfficeRouter::new(alloc)?;
        Ok(Server {
            clock,
            alloc,
            router,
            longest,
        })
    }

    /// Serves this many exchanges one after the other, and writes a line for each: its status, or
    /// `fault` and the word of the fault.
    ///
    /// A client that is silent, or too slow, is left, and the next one is served. Where the clock
    /// fails it is as if the connection had.
    ///
    /// # Errors
    ///
    /// A call of the writer failed in such a line, which ends it.
    pub fn serve_all<H: Handler, O: Write>(
        &self,
        office: &mut H,
        listener: &TcpListener,
        exchanges: u64,
        output: &mut Counted<O>,
    ) -> Result<(), WriteFailed>
        ensures { HasServedWithin C.shows O.contents self.now.clock.now listener.now
            self.now.longest H.meaning office.old office.new output.old output.new
            exchanges result }
    {
        let mut listener = TimedListener::new(self.clock, listener, self.longest);
        serve_exchanges(
            office,
            self.alloc,
            &self.router,
            &mut listener,
            exchanges,
            output,
        )
    }
}
