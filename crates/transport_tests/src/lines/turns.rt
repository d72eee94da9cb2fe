//! Streams that the desk serves in turn.

use desk_lines::DeskFault;
use std::alloc::Global;
use std::process::Abort;
use std::test::Fail;
use test_doubles::fake_streams::{Giving, Sink, Source, Taking};
use test_offices::served::serve;
use test_offices::trial::TrialOffice;

// How a stream is given, and how the answers are taken.
pub type Manner = (Giving, Taking);

// All at once.
pub const WHOLE: Manner = (Giving::Whole, Taking::All);

// The lines of a stream and its manner, how the desk ends, and what it has written then.
pub type Turn<'a> = (&'a str, Manner, Result<(), DeskFault>, &'a str);

// How many reads failed where the desk ended so, and how many writes.
fn failed(end: Result<(), DeskFault>) -> (u64, u64) {
    match end {
        Err(DeskFault::Read { .. }) => (1, 0),
        Err(DeskFault::Write { .. }) => (0, 1),
        _ => (0, 0),
    }
}

// Has the desk serve a stream, and compares how it ends and what it writes.
pub(crate) fn take_turn(
    rt: &impl Abort,
    alloc: Global,
    office: &mut TrialOffice,
    (lines, manner, ends, answers): Turn,
) {
    let (giving, taking) = manner;
    let source = Source::new(lines.as_bytes(), giving);
    let sink = Sink::new(Vec::new(alloc), taking);
    let (end, sink) = serve(alloc, office, source, sink);
    let told = (end.failed_reads, end.failed_writes);
    assert_eq!(rt;
        (end.result, told, sink.held.as_slice()),
        (ends, failed(ends), answers.as_bytes()),
        "{manner:?}"
    );
}

// The same in a new office.
pub(crate) fn take_turn_anew(rt: &impl Abort, alloc: Global, turn: Turn) -> Result<(), Fail> {
    let mut office = TrialOffice::new(alloc)?;
    take_turn(rt, alloc, &mut office, turn);
    Ok(())
}
