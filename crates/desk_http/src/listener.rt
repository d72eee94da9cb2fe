//! What hands out streams.

ghost use Rattle.desk_http.specs.Listening.{Listening};

use crate::fault::HttpFault;
use crate::served::Served;
use std::io;
use std::io::{Read, Write};
use streams::Counted;

/// The two directions of a connection.
#[derive(Drop)]
pub struct Stream<R, W> {
    /// What the client sends.
    pub reader: R,
    /// What it is answered.
    pub writer: W,
}

/// What hands out streams one after the other, and takes each back once its exchange is over.
pub trait Listener {
    /// What clients send.
    type Reader: Read + Drop;

    /// What they are answered.
    type Writer: Write + Drop;

    /// Of it nothing is known but that each call meets it, so that who promises it has called.
    ghost meaning: { Listening Self Self.Reader Self.Writer };

    /// The next stream.
    ///
    /// # Errors
    ///
    /// There is none; the next one may be accepted all the same.
    fn accept(&mut self) -> io::Result<Stream<Self::Reader, Self::Writer>>
        ensures { meaning.hands_out self.old self.new result };

    /// Ends the connection of a stream, over which an exchange came to this.
    fn take_back(
        &mut self,
        reader: Counted<Self::Reader>,
        writer: Counted<Self::Writer>,
        served: Result<Served, HttpFault>,
    )
        ensures { meaning.takes_back self.old self.new reader writer served };
}
