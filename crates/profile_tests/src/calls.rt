//! What a filter makes of calls.

use crate::told::profile_of;
use profile_text::{Profile, print};
use seccomp_doc::{Action, Filter, action_for};
use std::alloc::Global;
use std::process::Abort;
use std::test::Fail;

const FILTER: &str = r#"{"capabilities":{},"seccomp":{"defaultAction":"SCMP_ACT_ERRNO","syscalls":[
{"names":["read"],"action":"SCMP_ACT_ALLOW","args":[{"index":0,"op":"SCMP_CMP_EQ","value":1}]},
{"names":["read"],"action":"SCMP_ACT_ALLOW","args":[{"index":0,"op":"SCMP_CMP_EQ","value":2}]},
{"names":["close","close"],"action":"SCMP_ACT_ALLOW"},
{"names":["fcntl"],"action":"SCMP_ACT_ALLOW","args":[{"index":1,"op":"SCMP_CMP_LE","value":8},{"index":5,"op":"SCMP_CMP_NE","value":7}]},
{"names":["ne"],"action":"SCMP_ACT_ALLOW","args":[{"index":0,"op":"SCMP_CMP_NE","value":9223372036854775808}]},
{"names":["lt"],"action":"SCMP_ACT_ALLOW","args":[{"index":0,"op":"SCMP_CMP_LT","value":9223372036854775808}]},
{"names":["le"],"action":"SCMP_ACT_ALLOW","args":[{"index":0,"op":"SCMP_CMP_LE","value":9223372036854775808}]},
{"names":["eq"],"action":"SCMP_ACT_ALLOW","args":[{"index":0,"op":"SCMP_CMP_EQ","value":9223372036854775808}]},
{"names":["ge"],"action":"SCMP_ACT_ALLOW","args":[{"index":0,"op":"SCMP_CMP_GE","value":9223372036854775808}]},
{"names":["gt"],"action":"SCMP_ACT_ALLOW","args":[{"index":0,"op":"SCMP_CMP_GT","value":9223372036854775808}]},
{"names":["clone"],"action":"SCMP_ACT_ALLOW","args":[{"index":0,"op":"SCMP_CMP_MASKED_EQ","value":2114060288,"valueTwo":17}]}
]}}"#;

// The filter of a document.
fn filter_of(alloc: Global, document: &str) -> Result<Filter, Fail> {
    let Profile { filter, .. } = profile_of(alloc, document)?;
    Ok(filter.ok_or("no filter")?)
}

// Whether a call of each of these names is allowed with each of these words as its first argument,
// and zeros.
fn assert_allowed(
    rt: &impl Abort,
    alloc: Global,
    filter: &Filter,
    names: &str,
    words: &[u64],
    wanted: &str,
) -> Result<(), Fail> {
    let mut told = String::new(alloc);
    for name in names.split_whitespace() {
        for word in words {
            let action = action_for(filter, name, [*word, 0, 0, 0, 0, 0]);
            told.push(if action == Action::Allow { 'y' } else { 'n' })?;
        }
        told.push(' ')?;
    }
    assert_eq!(rt; told.as_str(), wanted, "{names}");
    Ok(())
}

#[test]
fn comparisons_are_unsigned(rt: HostRuntime) -> Result<(), Fail> {
    let filter = filter_of(rt.alloc(), FILTER)?;
    let words = [
        9223372036854775807,
        9223372036854775808,
        18446744073709551615,
    ];
    let wanted = "yny ynn yyn nyn nyy nny ";
    assert_allowed(
        &rt,
        rt.alloc(),
        &filter,
        "ne lt le eq ge gt",
        &words,
        wanted,
    )
}

#[test]
fn two_entries_of_one_call_are_alternatives(rt: HostRuntime) -> Result<(), Fail> {
    let filter = filter_of(rt.alloc(), FILTER)?;
    assert_allowed(
        &rt,
        rt.alloc(),
        &filter,
        "read write",
        &[1, 2, 3],
        "yyn nnn ",
    )?;
    let others = [
        action_for(&filter, "read", [3, 0, 0, 0, 0, 0]),
        action_for(&filter, "write", [1, 0, 0, 0, 0, 0]),
    ];
    assert!(rt; others == [Action::Errno(1); 2]);
    Ok(())
}

// The flags of clone(2) that make a namespace are masked; and a name that an entry has twice is the
// whole name.
#[test]
fn a_mask_covers_argument_and_datum(rt: HostRuntime) -> Result<(), Fail> {
    let filter = filter_of(rt.alloc(), FILTER)?;
    assert_allowed(&rt, rt.alloc(), &filter, "clone", &[0, 17, 131072], "yyn ")?;
    assert_allowed(&rt, rt.alloc(), &filter, "close clos", &[0], "y n ")
}

#[test]
fn all_comparisons_of_an_entry_must_hold(rt: HostRuntime) -> Result<(), Fail> {
    let filter = filter_of(rt.alloc(), FILTER)?;
    let told = [
        action_for(&filter, "fcntl", [0; 6]),
        action_for(&filter, "fcntl", [9, 8, 9, 9, 9, 6]),
        action_for(&filter, "fcntl", [0, 9, 0, 0, 0, 6]),
        action_for(&filter, "fcntl", [0, 8, 0, 0, 0, 7]),
    ];
    let refused = Action::Errno(1);
    assert!(rt; told == [Action::Allow, Action::Allow, refused, refused]);
    Ok(())
}

// The canonical text of the closed profile.
const CLOSED: &str =
    r#"{"capabilities":{"ambient":[],"bounding":[],"effective":[],"inheritable":[],"permitted":[]},"seccomp":{"defaultAction":"SCMP_ACT_KILL_PROCESS"}}"#;

#[test]
fn the_closed_profile_kills_a_process_that_calls(rt: HostRuntime) -> Result<(), Fail> {
    let closed = Profile::closed(rt.alloc());
    assert_eq!(rt; print(rt.alloc(), &closed)?.as_str(), CLOSED);
    let filter = closed.filter.ok_or("no filter")?;
    assert!(rt; action_for(&filter, "read", [0; 6]) == Action::KillProcess);
    Ok(())
}
