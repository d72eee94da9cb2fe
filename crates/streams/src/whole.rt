//! Writing all of some bytes, or knowing how much of them was written.

ghost use Rattle.std.specs.Prelude.{◌≡◌, OnOk, OnErr};
ghost use Rattle.std.specs.Io.KnownBytes.{Appends};
ghost use Rattle.streams.specs.Counts.{one_more};
ghost use Rattle.streams.specs.Steps.{AppendsPart};

use crate::counted::Counted;
use std::io::Write;
use thiserror::Error;

/// A writer failed, so that a text was not written whole.
#[derive(Clone, Copy, Debug, Drop, PartialEq, Error)]
#[error("write")]
pub struct WriteFailed;

/// Writes all of the bytes. A write that fails, is interrupted or takes no byte ends it, with only
/// a front part of the bytes written.
pub fn write_whole<W: Write>(writer: &mut Counted<W>, bytes: &[u8]) -> Result<(), WriteFailed>
    ensures whole { OnOk result (Appends
        (W.contents writer.old.inner) (W.contents writer.new.inner) bytes.now) }
    ensures part { OnErr result (AppendsPart
        (W.contents writer.old.inner) (W.contents writer.new.inner) bytes.now) }
    ensures no_fault { OnOk result (writer.new.faults ≡ writer.old.faults) }
    ensures fault { OnErr result (writer.new.faults ≡ one_more writer.old.faults) }
{
    let mut rest = bytes;
    while !rest.is_empty() {
        match writer.write(rest) {
            Ok(0) => return Err(WriteFailed),
            Ok(taken) => rest = &rest[taken..],
            Err(_) => return Err(WriteFailed),
        }
    }
    Ok(())
}
