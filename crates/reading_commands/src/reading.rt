//! Reading a file that was opened.

ghost use Rattle.std.specs.Prelude.{◌<◌, ◌≤◌, length, IfErr, OnOk};
ghost use Rattle.streams.specs.Steps.{StepConsumes};
ghost use Rattle.reading_commands.specs.Reading.{FailsToRead, HasFailedIf, HasReadOn, IsCall};
ghost use Rattle.reading_commands.specs.Reading.{IsWithin};

use command_host::PassFiles;
use streams::{ReadStep, Unread, is_interrupted};

// How many calls of read there are at most.
const MOST_READS: u32 = 600_000;

// How many bytes are read at once.
const CHUNK: usize = 8192;

// Reads once into the front of the buffer.
fn read_once<F: PassFiles>(files: &F, file: &mut F::File, buffer: &mut [u8]) -> ReadStep
    requires { 0 < length buffer.old }
    ensures bytes { StepConsumes
        (F.File.remaining file.old) (F.File.remaining file.new) result buffer.new }
    ensures call { IsCall F.gives file.old file.new }
    ensures failed { HasFailedIf F.gives result }
{
    match files.read_in(file, buffer) {
        Ok(0) => ReadStep::End,
        Ok(count) => ReadStep::Bytes(count),
        Err(error) => {
            if is_interrupted(&error) {
                ReadStep::Interrupted
            } else {
                ReadStep::Failed
            }
        }
    }
}

// Reads some bytes into the front of the chunk, at most this many.
fn read_at_most<F: PassFiles>(
    files: &F,
    file: &mut F::File,
    chunk: &mut [u8],
    most: usize,
) -> ReadStep
    requires some { 0 < most }
    requires within { most ≤ length chunk.old }
    ensures bytes { StepConsumes
        (F.File.remaining file.old) (F.File.remaining file.new) result chunk.new }
    ensures most { IsWithin most result }
    ensures call { IsCall F.gives file.old file.new }
    ensures failed { HasFailedIf F.gives result }
{
    read_once(files, file, &mut chunk[..most])
}

/// Reads on in a file, behind the bytes of it that were read, until there are so many of them, or to
/// its end. An interrupted read is made again.
///
/// # Errors
///
/// [`Unread`]: `TooManyReads` after 600,000 calls.
pub(crate) fn read_on<F: PassFiles>(
    files: &F,
    file: &mut F::File,
    bytes: &mut Vec<u8>,
    most: usize,
) -> Result<(), Unread>
    requires { length bytes.old.items ≤ most }
    ensures read { OnOk result (HasReadOn (F.File.remaining file.old) (F.File.remaining file.new)
        bytes.old.items bytes.new.items most) }
    ensures unread { IfErr result (FailsToRead F.gives) }
{
    let mut chunk = [0u8; CHUNK];
    let mut calls = 0u32;
    'reads: while bytes.len() < most {
        if calls == MOST_READS {
            return Err(Unread::TooManyReads);
        }
        calls += 1;
        let room = (most - bytes.len()).min(CHUNK);
        match read_at_most(files, file, &mut chunk, room) {
            ReadStep::Bytes(count) => bytes.extend_from_slice(&chunk[..count])?,
            ReadStep::Interrupted => {}
            ReadStep::End => return Ok(()),
            ReadStep::Failed => return Err(Unread::Failed),
        }
    }
    Ok(())
}
