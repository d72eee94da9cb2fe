//! Filters at their limits and one above: 2,048 entries, 1,024 names in an entry, a canonical text
//! of 262,144 bytes; and the findings between filters at these limits. No more can be reached, since
//! a filter above a limit is refused.

use crate::told::{assert_found, told};
use office_words::digest_from_hex;
use profile_text::digest;
use std::alloc::{AllocError, Global};
use std::process::Abort;
use std::test::Fail;

// A canonical text down to the first name, where each call that is named is allowed and any other
// is logged.
const START: &str =
    r#"{"capabilities":{"ambient":[],"bounding":[],"effective":[],"inheritable":[],"permitted":[]},"seccomp":{"defaultAction":"SCMP_ACT_LOG","syscalls":[{"action":"SCMP_ACT_ALLOW","names":["call_"#;

// What is between two names of an entry.
const NEXT_NAME: &str = r#"","call_"#;

// What is between the names of two entries.
const NEXT_ENTRY: &str = r#""]},{"action":"SCMP_ACT_ALLOW","names":["call_"#;

const END: &str = r#""]}]}}"#;

// The same without a name.
const NOTHING: &str =
    r#"{"capabilities":{},"seccomp":{"defaultAction":"SCMP_ACT_LOG","syscalls":[]}}"#;

// So many numbers from a first one on between these texts, each this much more than the one before
// it.
fn numbered(
    alloc: Global,
    (before, between, after): (&str, &str, &str),
    first: usize,
    count: usize,
    step: usize,
) -> Result<String, AllocError> {
    let mut text = String::from_str(alloc, before)?;
    let mut number = first;
    for i in 0..count {
        if i > 0 {
            text.push_str(between)?;
        }
        write!(text, "{number}")?;
        number = number.saturating_add(step);
    }
    text.push_str(after)?;
    Ok(text)
}

// What is reported of a document with so many names.
fn told_with(
    alloc: Global,
    between: &str,
    count: usize,
    step: usize,
) -> Result<String, AllocError> {
    let document = numbered(alloc, (START, between, END), 1000, count, step)?;
    told(alloc, document.as_bytes())
}

// Whether a text is its own canonical text.
fn is_canonical(alloc: Global, text: &str) -> Result<bool, AllocError> {
    Ok(told(alloc, text.as_bytes())?.as_str() == text)
}

// A document with so many names is its own canonical text, and with one more it has too many.
fn assert_limit(
    rt: &impl Abort,
    alloc: Global,
    between: &str,
    most: usize,
    step: usize,
) -> Result<(), Fail> {
    let document = numbered(alloc, (START, between, END), 1000, most, step)?;
    assert!(rt; is_canonical(alloc, document.as_str())?);
    let longer = told_with(alloc, between, most.saturating_add(1), step)?;
    assert_eq!(rt; longer.as_str(), "too-many");
    Ok(())
}

#[test]
fn entries_and_names_have_limits_also_where_all_are_alike(rt: HostRuntime) -> Result<(), Fail> {
    for step in 0..2 {
        assert_limit(&rt, rt.alloc(), NEXT_ENTRY, 2_048, step)?;
        assert_limit(&rt, rt.alloc(), NEXT_NAME, 1_024, step)?;
    }
    Ok(())
}

// A document of a default and so many entries that are alike.
fn alike(alloc: Global, (before, entry): (&str, &str), count: usize) -> Result<String, AllocError> {
    let mut text = String::from_str(alloc, before)?;
    for i in 0..count {
        if i > 0 {
            text.push(',')?;
        }
        text.push_str(entry)?;
    }
    text.push_str("]}}")?;
    Ok(text)
}

// As it is handed in, and as its canonical text.
const GIVEN: (&str, &str) = (
    r#"{"capabilities":{},"seccomp":{"defaultAction":"SCMP_ACT_KILL_PROCESS","syscalls":["#,
    r#"{"names":["a"],"action":"SCMP_ACT_LOG"}"#,
);

const CANONICAL: (&str, &str) = (
    r#"{"capabilities":{"ambient":[],"bounding":[],"effective":[],"inheritable":[],"permitted":[]},"seccomp":{"defaultAction":"SCMP_ACT_KILL_PROCESS","syscalls":["#,
    r#"{"action":"SCMP_ACT_LOG","names":["a"]}"#,
);

// What is reported of it.
fn told_alike(alloc: Global, count: usize) -> Result<String, AllocError> {
    let document = alike(alloc, GIVEN, count)?;
    told(alloc, document.as_bytes())
}

#[test]
fn entries_of_one_name_and_action_are_all_kept(rt: HostRuntime) -> Result<(), Fail> {
    for count in [513, 2_048] {
        let wanted = alike(rt.alloc(), CANONICAL, count)?;
        assert_eq!(rt; told_alike(rt.alloc(), count)?, wanted);
    }
    assert_eq!(rt; told_alike(rt.alloc(), 2_049)?.as_str(), "too-many");
    Ok(())
}

// Each of so many names is found once, in byte order.
fn assert_names_found(
    rt: &impl Abort,
    alloc: Global,
    between: &str,
    count: usize,
) -> Result<(), Fail> {
    let document = numbered(alloc, (START, between, END), 1000, count, 1)?;
    let calls = numbered(alloc, ("call call_", "\ncall call_", "\n"), 1000, count, 1)?;
    assert_found(rt, alloc, NOTHING, document.as_str(), calls.as_str())
}

#[test]
fn each_of_many_names_is_found_once_in_byte_order(rt: HostRuntime) -> Result<(), Fail> {
    for count in [1, 17, 512, 513, 1101, 2048] {
        assert_names_found(&rt, rt.alloc(), NEXT_ENTRY, count)?;
    }
    Ok(())
}

#[test]
fn each_name_of_an_entry_is_found(rt: HostRuntime) -> Result<(), Fail> {
    for count in [1, 17, 1024] {
        assert_names_found(&rt, rt.alloc(), NEXT_NAME, count)?;
    }
    Ok(())
}

#[test]
fn a_name_that_an_entry_has_often_is_found_once(rt: HostRuntime) -> Result<(), Fail> {
    let often = numbered(rt.alloc(), (START, NEXT_NAME, END), 1000, 1024, 0)?;
    assert_found(&rt, rt.alloc(), NOTHING, often.as_str(), "call call_1000\n")
}

// Entries of one name, each of which compares its argument with a number.
const COMPARED: (&str, &str, &str) = (
    r#"{"capabilities":{},"seccomp":{"defaultAction":"SCMP_ACT_LOG","syscalls":[{"names":["read"],"action":"SCMP_ACT_ALLOW","args":[{"index":0,"op":"SCMP_CMP_EQ","value":"#,
    r#"}]},{"names":["read"],"action":"SCMP_ACT_ALLOW","args":[{"index":0,"op":"SCMP_CMP_EQ","value":"#,
    r#"}]}]}}"#,
);

// The last of so many entries of a name counts: each other one compares as an entry of the baseline
// does.
fn assert_last_counts(rt: &impl Abort, alloc: Global, count: usize) -> Result<(), Fail> {
    let base = numbered(alloc, COMPARED, 0, count, 1)?;
    let new = numbered(alloc, COMPARED, 1, count, 1)?;
    assert_found(rt, alloc, base.as_str(), new.as_str(), "call read\n")
}

#[test]
fn the_last_of_many_entries_of_a_name_counts(rt: HostRuntime) -> Result<(), Fail> {
    for count in [2, 65, 2048] {
        assert_last_counts(&rt, rt.alloc(), count)?;
    }
    Ok(())
}

// A document of 1,679 entries of twice a name of 56 bytes, and one of a name of so many bytes.
fn long_document(alloc: Global, last: usize) -> Result<String, AllocError> {
    let mut text = String::from_str(
        alloc,
        r#"{"capabilities":{},"seccomp":{"defaultAction":"SCMP_ACT_LOG","syscalls":["#,
    )?;
    for _ in 0..1679 {
        text.push_str(
            r#"{"action":"SCMP_ACT_ALLOW","names":["aaaaaaaaaaaaaaaaaaaaaaaaaaaaaaaaaaaaaaaaaaaaaaaaaaaaaaaa","aaaaaaaaaaaaaaaaaaaaaaaaaaaaaaaaaaaaaaaaaaaaaaaaaaaaaaaa"]},"#,
        )?;
    }
    text.push_str(r#"{"action":"SCMP_ACT_ALLOW","names":[""#)?;
    for _ in 0..last {
        text.push('a')?;
    }
    text.push_str(END)?;
    Ok(text)
}

// What is reported of it.
fn told_at_length(alloc: Global, last: usize) -> Result<String, AllocError> {
    let document = long_document(alloc, last)?;
    told(alloc, document.as_bytes())
}

#[test]
fn a_canonical_text_has_at_most_262_144_bytes(rt: HostRuntime) -> Result<(), Fail> {
    let text = told_at_length(rt.alloc(), 31)?;
    assert_eq!(rt; text.len(), 262_144);
    assert!(rt; is_canonical(rt.alloc(), text.as_str())?);
    let longer = told_at_length(rt.alloc(), 32)?;
    assert_eq!(rt; longer.as_str(), "text-too-long");
    Ok(())
}

#[test]
fn the_digest_of_the_longest_text_is_of_all_its_bytes(rt: HostRuntime) -> Result<(), Fail> {
    let text = told_at_length(rt.alloc(), 31)?;
    let wanted = digest_from_hex(
        "cbda95619810b272b63d5530507abd932226ea151b6c93ca690aadef64844186",
    );
    assert_eq!(rt; Some(digest(text.as_str().as_bytes())), wanted);
    Ok(())
}
