//! Sealed lines of a stream, where they are as long as a line can be.

use sealed_log::{Unreadable, is_body, no_seal, read_body, seal};
use std::alloc::{AllocError, Global};
use std::process::Abort;
use std::test::Fail;

// How many bytes a line has at most, and the longest body, with its line feed and without.
const LONGEST: usize = 2_097_152;

const LONGEST_BODY: usize = 2_097_068;

// A JSON text of so many bytes.
fn text_of(alloc: Global, len: usize) -> Result<String, AllocError> {
    let letters = "a".repeat(alloc, len.saturating_sub(2))?;
    format!(in alloc; "\"{letters}\"")
}

// The line of a body with these digits for its seal.
fn line_of(alloc: Global, body: &str, digits: &str) -> Result<String, AllocError> {
    format!(in alloc; "{{\"line\":{body},\"seal\":\"{digits}\"}}\n")
}

// What is read of a line of a body of so many bytes, and its seal, which has these digits.
fn assert_read(
    rt: &impl Abort,
    alloc: Global,
    len: usize,
    digits: &str,
    wanted: Result<bool, Unreadable>,
) -> Result<(), Fail> {
    let text = text_of(alloc, len)?;
    let line = line_of(alloc, text.as_str(), digits)?;
    let mut input = line.as_str().as_bytes();
    let mut last = no_seal();
    let mut body = Vec::new(alloc);
    assert_eq!(rt;
        seal(&last, text.as_str().as_bytes()).as_slice(),
        digits.as_bytes()
    );
    assert_eq!(rt; is_body(text.as_str().as_bytes()), wanted.is_ok());
    assert_eq!(rt; read_body(alloc, &mut input, &mut last, &mut body), wanted);
    Ok(())
}

// The seals are those that Python's hashlib makes.
#[test]
fn a_line_of_2097152_bytes_is_read_and_none_longer(rt: HostRuntime) -> Result<(), Fail> {
    let alloc = rt.alloc();
    let fits = "ddfd97e0814e01cbda62c1f2474b4ab1340843a71d46d4d79a7a4f045ad79cec";
    assert_eq!(rt; LONGEST_BODY + 84, LONGEST);
    assert_read(&rt, alloc, LONGEST_BODY, fits, Ok(true))?;
    let longer = "451360a20653d79cb3495aa06a9e6ab70621d22a818875bfde85146742f372ea";
    assert_read(
        &rt,
        alloc,
        LONGEST_BODY + 1,
        longer,
        Err(Unreadable::NotALine),
    )
}
