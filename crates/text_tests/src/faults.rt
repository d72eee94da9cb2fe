//! The words of faults, where no command and no line shows them.

use json_requests::LineFault;
use no_memory::NoMemory;
use office_words::WordFault;
use std::alloc::AllocError;
use streams::{TooLong, Unread, WriteFailed};

// The faults of streams.
fn push_streams(text: &mut String) -> Result<(), AllocError> {
    let (failed, too_many) = (Unread::Failed, Unread::TooManyReads);
    writeln!(
        text,
        "{failed} {too_many} {}",
        Unread::NoMemory(NoMemory::told())
    )?;
    writeln!(text, "{TooLong} {WriteFailed}")
}

// Those of words, and of the lines of requests.
fn push_requests(text: &mut String) -> Result<(), AllocError> {
    let witness = NoMemory::told();
    writeln!(
        text,
        "{} {}",
        WordFault::NotAWord,
        WordFault::NoMemory(witness)
    )?;
    let (not_json, not_a_request) = (LineFault::NotJson, LineFault::NotARequest);
    writeln!(
        text,
        "{not_json} {not_a_request} {}",
        LineFault::NoMemory(witness)
    )
}

const WORDS: &str = "\
     read too-many-reads memory\n\
     too-long write\n\
     not-a-word memory\n\
     not-json not-a-request memory\n";

#[test]
fn each_fault_is_shown_by_its_word(rt: HostRuntime) -> Result<(), AllocError> {
    let mut text = String::new(rt.alloc());
    push_streams(&mut text)?;
    push_requests(&mut text)?;
    assert_eq!(rt; text.as_str(), WORDS);
    Ok(())
}
