//! Lists of requests.

use json_requests::{line, read_line};
use json_tree::Scratch;
use office_policy::Handler;
use review_policy::{Answer, Request};
use std::alloc::{AllocError, Global};
use std::test::Fail;
use test_doubles::conversations::{LEFT_BEHIND, VOTE_LEFT_BEHIND};
use test_offices::trial::TrialOffice;

// The requests of these lines.
fn requests_of(alloc: Global, lines: &str) -> Result<Vec<Request>, Fail> {
    let mut requests = Vec::new(alloc);
    let mut scratch = Scratch::new(alloc);
    for line in lines.lines() {
        requests.push(read_line(alloc, line.as_bytes(), &mut scratch)?)?;
    }
    Ok(requests)
}

// The lines of these answers, one after the other.
fn lines_of(alloc: Global, answers: &[Answer]) -> Result<String, Fail> {
    let mut lines = String::new(alloc);
    for answer in answers {
        lines.push_str(&line(alloc, answer)?)?;
    }
    Ok(lines)
}

// What the requests of these lines are answered as one list in a new office, and the tables that they leave. Where there is no room for
// the answers nothing is handled, so that the list may be run again.
fn ran(alloc: Global, lines: &str) -> Result<(String, String), Fail> {
    let requests = requests_of(alloc, lines)?;
    let mut office = TrialOffice::new(alloc)?;
    let answers = match office.run(alloc, &requests) {
        Ok(answers) => answers,
        Err(_) => office.run(alloc, &requests)?,
    };
    let told = lines_of(alloc, &answers)?;
    let tables = office.into_tables(alloc)?;
    Ok((told, tables))
}

#[test]
fn each_request_of_a_list_is_answered_on_those_before_it(rt: HostRuntime) -> Result<(), Fail> {
    assert_eq!(rt;
        ran(rt.alloc(), VOTE_LEFT_BEHIND)?.0.trim_end(),
        LEFT_BEHIND
    );
    Ok(())
}

#[test]
fn an_empty_list_of_requests_has_no_answer(rt: HostRuntime) -> Result<(), Fail> {
    assert_eq!(rt; ran(rt.alloc(), "")?.0.as_str(), "");
    Ok(())
}

// The lines but this one, the first being 0.
fn without(alloc: Global, lines: &str, at: usize) -> Result<String, AllocError> {
    let mut others = String::new(alloc);
    for (number, line) in lines.lines().enumerate() {
        if number != at {
            writeln!(others, "{line}")?;
        }
    }
    Ok(others)
}

const MEMORY: &str = r#"{"answer":"fault","word":"memory"}"#;

// With each allocation refused in turn, as by `rt try --test --fail-alloc N`: one request is answered that there is no memory, and
// the others, and the tables, are as without it; or all is as with ample memory. With that it is, as
// `each_request_of_a_list_is_answered_on_those_before_it` sees.
#[test]
fn a_request_of_a_list_that_is_refused_memory_is_as_none(rt: HostRuntime) -> Result<(), Fail> {
    let alloc = rt.alloc();
    let (told, tables) = ran(alloc, VOTE_LEFT_BEHIND)?;
    match told.lines().position(|line| line == MEMORY) {
        Some(at) => {
            let wanted = ran(alloc, without(alloc, VOTE_LEFT_BEHIND, at)?.as_str())?;
            let others = without(alloc, told.as_str(), at)?;
            assert_eq!(rt; (others, tables), wanted);
        }
        None => assert_eq!(rt; told.trim_end(), LEFT_BEHIND),
    }
    Ok(())
}
