//! The lines that report exchanges.

ghost use Rattle.std.specs.Prelude.{◌++◌, codes};
ghost use Rattle.desk_http.specs.Lines.{line_of, IsPut};

use crate::fault::HttpFault;
use crate::served::Served;
use itoa::Buffer;
use std::io::Write;
use streams::{Counted, WriteFailed, write_whole};

// Writes a text.
fn put<O: Write>(output: &mut Counted<O>, text: &str) -> Result<(), WriteFailed>
    ensures { IsPut O.contents output.old output.new text.now result }
{
    write_whole(output, text.as_bytes())
}

// Writes a text and a line feed.
fn put_line<O: Write>(output: &mut Counted<O>, text: &str) -> Result<(), WriteFailed>
    ensures { IsPut O.contents output.old output.new (text.now ++ codes "\n") result }
{
    put(output, text)?;
    put(output, "\n")
}

// Writes the line of a fault.
fn put_fault<O: Write>(output: &mut Counted<O>, word: &str) -> Result<(), WriteFailed>
    ensures { IsPut O.contents output.old output.new
        (codes "fault " ++ (word.now ++ codes "\n")) result }
{
    put(output, "fault ")?;
    put_line(output, word)
}

/// Writes the line that reports an exchange.
pub(crate) fn tell<O: Write>(
    output: &mut Counted<O>,
    served: Result<Served, HttpFault>,
) -> Result<(), WriteFailed>
    ensures { IsPut O.contents output.old output.new (line_of served) result }
{
    match served {
        Ok(served) => {
            let mut digits = Buffer::new();
            put_line(output, digits.format(served.status))
        }
        Err(fault) => put_fault(output, fault.word()),
    }
}
