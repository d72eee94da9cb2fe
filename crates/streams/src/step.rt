//! One call of read, and what came of it.

ghost use Rattle.std.specs.Prelude.{◌≡◌, ◌<◌, length};
ghost use Rattle.streams.specs.Counts.{one_more};
ghost use Rattle.streams.specs.Steps.{StepConsumes, StepFaults};

use crate::counted::{Counted, is_interrupted};
use std::io::Read;

/// What came of a call of read.
#[derive(Clone, Copy, Debug, PartialEq)]
pub enum ReadStep {
    /// This many bytes, at least one.
    Bytes(usize),
    /// No byte, for none is left.
    End,
    /// No byte; the call may be made again.
    Interrupted,
    /// No byte, for the reader failed.
    Failed,
}

/// Reads once into the front of the buffer.
pub fn read_step<R: Read>(reader: &mut Counted<R>, buffer: &mut [u8]) -> ReadStep
    requires { 0 < length buffer.old }
    ensures bytes { StepConsumes
        (R.remaining reader.old.inner) (R.remaining reader.new.inner) result buffer.new }
    ensures calls { reader.new.calls ≡ one_more reader.old.calls }
    ensures faults { StepFaults reader.old.faults reader.new.faults result }
{
    match reader.read(buffer) {
        Ok(0) => ReadStep::End,
        Ok(count) => ReadStep::Bytes(count),
        Err(error) => {
            if is_interrupted(&error) {
                ReadStep::Interrupted
            } else {
                ReadStep::Failed
            }
        }
    }
}
