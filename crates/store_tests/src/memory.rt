//! Writes that are refused memory, as `rt try --test --fail-alloc N` refuses the Nth allocation of each test. Without a refusal
//! each runs.

use crate::transcript::said_over;
use office_words::WordFault;
use sqlite::Connection;
use std::alloc::Global;
use std::process::Abort;
use std::test::Fail;

// The transcript of these calls in memory.
fn said_in_memory(alloc: Global, before: &str, calls: &str) -> Result<String, WordFault> {
    let calls = format!(in alloc; "{before}{calls}")?;
    said_over(alloc, Connection::open_in_memory(alloc)?, calls.as_str())
}

// Whether a transcript goes on as a write that runs or as one that is refused, unless memory is refused to a call
// before it or to the read after it. With ample memory none is, as `writes_run_with_ample_memory` shows.
fn is_kept(said: &str, before: &str, done: &str, refused: &str) -> bool {
    match said.strip_prefix(before) {
        Some(rest) => rest == done || rest == refused || rest.ends_with("Err(memory)\n"),
        None => said.contains("Err(memory)"),
    }
}

fn assert_kept(rt: &impl Abort, alloc: Global, before: &str, done: &str, refused: &str) {
    match said_in_memory(alloc, before, done) {
        Ok(said) => assert!(rt; is_kept(said.as_str(), before, done, refused), "{said}"),
        Err(fault) => assert!(rt; matches!(fault, WordFault::NoMemory(_))),
    }
}

// Ann has no role.
const ENROLLED: &str = "\
> found
Ok(())
> put_user blue - ann 0 7
Ok(())
";

const IS_REVIEWER: &str = "\
> put_user blue - ann 4 8
Ok(())
> user_by_name - - ann
ann blue 4 8
";

const HAS_NO_ROLE: &str = "\
> put_user blue - ann 4 8
Err(memory)
> user_by_name - - ann
ann blue 0 7
";

#[test]
fn a_user_is_put_or_stays_as_before(rt: HostRuntime) {
    assert_kept(&rt, rt.alloc(), ENROLLED, IS_REVIEWER, HAS_NO_ROLE);
}

const ADDED: &str = "\
> found
Ok(())
> add_revision blue web ann
Ok(1)
";

const IS_CLOSED: &str = "\
> add_revision blue web ann
Ok(2)
> revision blue web - 1
1 ann closed {} 7
";

const IS_OPEN: &str = "\
> add_revision blue web ann
Err(memory)
> revision blue web - 1
1 ann open {} 7
";

#[test]
fn a_revision_is_added_or_the_open_one_stays(rt: HostRuntime) {
    assert_kept(&rt, rt.alloc(), ADDED, IS_CLOSED, IS_OPEN);
}

#[test]
fn writes_run_with_ample_memory(rt: HostRuntime) -> Result<(), Fail> {
    for (before, done) in [(ENROLLED, IS_REVIEWER), (ADDED, IS_CLOSED)] {
        let said = said_in_memory(rt.alloc(), before, done)?;
        assert_eq!(rt; said.as_str().strip_prefix(before), Some(done));
    }
    Ok(())
}
