//! A listener whose streams last only so long.

ghost use Rattle.std.specs.Prelude.{◌≡◌};

use crate::clock::PassClock;
use crate::deadline::Deadline;
use crate::ending::end_exchange;
use crate::fault::HttpFault;
use crate::listener::{Listener, Stream};
use crate::served::Served;
use crate::timed::Timed;
use std::io;
use std::net::{TcpListener, TcpStream};
use std::time::{Clock, Duration};
use streams::Counted;

/// A listener whose streams each last at most so long, by this clock.
#[derive(Drop)]
pub struct TimedListener<'c, C: Clock> {
    clock: &'c C,
    listener: &'c TcpListener,
    longest: Duration,
}

impl<'c, C: Clock> TimedListener<'c, C> {
    /// The listener, whose streams last at most `longest`.
    pub fn new(clock: &'c C, listener: &'c TcpListener, longest: Duration) -> TimedListener<'c, C>
        ensures clock { result.clock.now ≡ clock.now }
        ensures listener { result.listener.now ≡ listener.now }
        ensures longest { result.longest ≡ longest }
    {
        TimedListener {
            clock,
            listener,
            longest,
        }
    }
}

impl<'c, C: PassClock> Listener for TimedListener<'c, C> {
    ghost use Rattle.desk_http.specs.Lasting.{lasting};

    type Reader = Timed<'c, C, TcpStream>;

    type Writer = Timed<'c, C, TcpStream>;

    ghost meaning = { lasting C.shows };

    fn accept(&mut self) -> io::Result<Stream<Timed<'c, C, TcpStream>, Timed<'c, C, TcpStream>>> {
        let (stream, _) = self.listener.accept()?;
        let deadline = Deadline::after(self.clock, self.longest)?;
        let again = stream.try_clone()?;
        Ok(Stream {
            reader: Timed::new(stream, &deadline),
            writer: Timed::new(again, &deadline),
        })
    }

    fn take_back(
        &mut self,
        reader: Counted<Timed<'c, C, TcpStream>>,
        writer: Counted<Timed<'c, C, TcpStream>>,
        served: Result<Served, HttpFault>,
    )
        ensures { self.new ≡ self.old }
    {
        drop(end_exchange(self.clock, reader.into_inner().into_inner(), served));
        drop(writer);
    }
}
