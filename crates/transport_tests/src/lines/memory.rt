//! What is answered where memory is refused.

use crate::lines::texts::{FIRST_ANSWERS, FIRST_PATH, SECOND_ANSWERS, first_lines};
use crate::lines::turns::{WHOLE, take_turn};
use desk_lines::DeskFault;
use std::alloc::Global;
use std::test::Fail;
use test_doubles::fake_streams::{Sink, Taking};
use test_offices::served::serve;
use test_offices::trial::TrialOffice;

// What may be answered to the first path where memory is refused at most once, while a line is read or handled, and the profile
// is handed in then.
const HANDED_IN: &str = r#"{"answer":"done"}
{"answer":"done","digest":"67d59648e3164479ed30407333c338a60764f60cd31c54ca1cd477602ac5e5d6","revision":1}
{"answer":"done","digest":"67d59648e3164479ed30407333c338a60764f60cd31c54ca1cd477602ac5e5d6","document":"{\"capabilities\":{\"ambient\":[],\"bounding\":[],\"effective\":[],\"inheritable\":[],\"permitted\":[]}}","state":"open"}
{"answer":"denied","rule":2,"word":"role-missing"}
{"answer":"denied","rule":1,"word":"caller-unknown"}

{"answer":"done"}
{"answer":"done","digest":"67d59648e3164479ed30407333c338a60764f60cd31c54ca1cd477602ac5e5d6","revision":1}
{"answer":"fault","word":"memory"}
{"answer":"denied","rule":2,"word":"role-missing"}
{"answer":"denied","rule":1,"word":"caller-unknown"}

{"answer":"done"}
{"answer":"done","digest":"67d59648e3164479ed30407333c338a60764f60cd31c54ca1cd477602ac5e5d6","revision":1}
{"answer":"done","digest":"67d59648e3164479ed30407333c338a60764f60cd31c54ca1cd477602ac5e5d6","document":"{\"capabilities\":{\"ambient\":[],\"bounding\":[],\"effective\":[],\"inheritable\":[],\"permitted\":[]}}","state":"open"}
{"answer":"fault","word":"memory"}
{"answer":"denied","rule":1,"word":"caller-unknown"}

{"answer":"done"}
{"answer":"done","digest":"67d59648e3164479ed30407333c338a60764f60cd31c54ca1cd477602ac5e5d6","revision":1}
{"answer":"done","digest":"67d59648e3164479ed30407333c338a60764f60cd31c54ca1cd477602ac5e5d6","document":"{\"capabilities\":{\"ambient\":[],\"bounding\":[],\"effective\":[],\"inheritable\":[],\"permitted\":[]}}","state":"open"}
{"answer":"denied","rule":2,"word":"role-missing"}
{"answer":"fault","word":"memory"}
"#;

// The same where the profile is not handed in.
const NOT_HANDED_IN: &str = r#"{"answer":"fault","word":"memory"}
{"answer":"denied","rule":1,"word":"caller-unknown"}
{"answer":"denied","rule":1,"word":"caller-unknown"}
{"answer":"denied","rule":2,"word":"role-missing"}
{"answer":"denied","rule":1,"word":"caller-unknown"}

{"answer":"done"}
{"answer":"fault","word":"memory"}
{"answer":"denied","rule":4,"word":"no-revision"}
{"answer":"denied","rule":2,"word":"role-missing"}
{"answer":"denied","rule":1,"word":"caller-unknown"}
"#;

// Whether these lines are written, and nothing else; blank lines part them.
fn is_one_of(told: &str, written: &[u8]) -> bool {
    let written = written.strip_suffix(b"\n").unwrap_or(b"");
    told.trim_end()
        .split("\n\n")
        .any(|lines| lines.as_bytes() == written)
}

// Whether the profile was handed in where each line is answered; none where they are answered otherwise.
fn is_submitted(written: &[u8]) -> Option<bool> {
    if is_one_of(HANDED_IN, written) {
        Some(true)
    } else if is_one_of(NOT_HANDED_IN, written) {
        Some(false)
    } else {
        None
    }
}

// The same where the lines before this one are answered, and there was no memory to answer this one.
fn is_submitted_by(line: u64, written: &[u8]) -> Option<bool> {
    let told = (line as usize).saturating_sub(1).min(5);
    if first_lines(FIRST_ANSWERS, told).as_bytes() == written {
        Some(line >= 2)
    } else {
        None
    }
}

// Has the desk serve the first path, with room for what it writes, and says whether the profile was handed in by it; none where
// more went wrong than may.
fn hand_in(alloc: Global, office: &mut TrialOffice) -> Result<Option<bool>, Fail> {
    let held = Vec::with_capacity(alloc, 1024)?;
    let sink = Sink::new(held, Taking::Bytes(1024));
    let (end, sink) = serve(alloc, office, FIRST_PATH.as_bytes(), sink);
    Ok(match end.result {
        Ok(()) => is_submitted(&sink.held),
        Err(DeskFault::NoMemory { line, witness: _ }) => is_submitted_by(line, &sink.held),
        Err(DeskFault::Unbegun(_)) => is_submitted_by(1, &sink.held),
        Err(_) => None,
    })
}

// With each allocation refused in turn, as by `rt try --test --fail-alloc N`: one line is answered as out of memory, or
// the desk stops with the lines before it answered, and what was handled stands. With ample memory none is, as
// `lines::conversations` sees.
#[test]
fn out_of_memory_is_answered_and_leaves_what_was_handled(rt: HostRuntime) -> Result<(), Fail> {
    let alloc = rt.alloc();
    let mut office = TrialOffice::new(alloc)?;
    let is_submitted = hand_in(alloc, &mut office)?;
    let answers = if is_submitted.expect(&rt, "a refusal that is told") {
        SECOND_ANSWERS
    } else {
        FIRST_ANSWERS
    };
    take_turn(
        &rt,
        alloc,
        &mut office,
        (FIRST_PATH, WHOLE, Ok(()), answers),
    );
    Ok(())
}
