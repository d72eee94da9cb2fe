//! What the desk does in an office.

use desk_lines::{DeskFault, desk};
use office_policy::Handler;
use std::alloc::Global;
use std::io::{Read, Write};
use streams::Counted;

/// How the desk ended.
#[derive(Clone, Copy)]
pub struct End {
    /// What it answered.
    pub result: Result<(), DeskFault>,
    /// How often the reader was called.
    pub reads: u64,
    /// How many of these calls failed.
    pub failed_reads: u64,
    /// How many calls of the writer failed.
    pub failed_writes: u64,
}

/// Has the desk serve a stream, and hands the writer back. What it notes is dropped.
pub fn serve<H: Handler, R: Read + Drop, W: Write + Drop>(
    alloc: Global,
    office: &mut H,
    reader: R,
    writer: W,
) -> (End, W) {
    let mut reader = Counted::new(reader);
    let mut writer = Counted::new(writer);
    let mut errors = Counted::new(Vec::<u8>::new(alloc));
    let ended = desk(office, alloc, &mut reader, &mut writer, &mut errors);
    let end = End {
        result: ended.answered,
        reads: reader.calls(),
        failed_reads: reader.faults(),
        failed_writes: writer.faults(),
    };
    (end, writer.into_inner())
}
