//! Why an exchange has no response.

ghost use Rattle.std.specs.Prelude.{◌≡◌};
ghost use Rattle.desk_http.specs.Faults.{fault_word};

use no_memory::NoMemory;
use std::error::Error;
use std::fmt;

/// Why an exchange has no response, or not all of it. Its text is one word.
#[derive(Clone, Copy, Debug, Drop, PartialEq)]
pub enum HttpFault {
    /// The reader failed. Nothing was handled or written.
    Read,
    /// The stream ended inside a head or a body. Nothing was handled or written.
    Ended,
    /// As often as is allowed the reader was called. Nothing was handled or written.
    TooManyReads,
    /// The writer failed in the response with this status. What that reports was done, and only a
    /// front part of it was written. It has a witness where the response says that there was no
    /// memory.
    Write {
        status: u16,
        witness: Option<NoMemory>,
    },
    /// There was no memory for the response with this status, of which nothing was written. What it
    /// reports was done.
    NoMemory {
        status: u16,
        witness: NoMemory,
    },
}

impl HttpFault {
    // Its word.
    pub(crate) fn word(self) -> &'static str
        ensures { result.now ≡ fault_word self }
    {
        match self {
            HttpFault::Read => "read",
            HttpFault::Ended => "ended",
            HttpFault::TooManyReads => "too-many-reads",
            HttpFault::Write {
                status: _,
                witness: _,
            } => "write",
            HttpFault::NoMemory {
                status: _,
                witness: _,
            } => "memory",
        }
    }
}

impl fmt::Display for HttpFault {
    ghost use Rattle.std.specs.Prelude.{Some};
    ghost use Rattle.desk_http.specs.Faults.{fault_word};

    ghost output = { λ fault. Some (fault_word fault) };

    fn fmt<W: fmt::Write>(&self, f: &mut fmt::Formatter<W>) -> fmt::Result {
        f.write_str(self.word())
    }
}

impl Error for HttpFault {}
