//! What stands where a reader or a writer fails, and what is answered where they give and take in pieces.

use crate::exchanges::trial::{Trial, cut_at};
use desk_http::HttpFault;
use no_memory::NoMemory;
use std::alloc::{AllocError, Global};
use std::io::Read;
use std::process::Abort;
use std::test::Fail;
use test_doubles::fake_streams::{Giving, Source, Taking};
use test_doubles::messages::{
    CALL, DONE, ENROLMENT, LONG_BODY, SAME_AS_OPEN, SUBMISSION, SUBMITTED, TOO_LARGE, TOO_LONG,
};

#[test]
fn a_submission_is_not_handled_where_it_is_cut_or_a_read_fails(
    rt: HostRuntime,
) -> Result<(), Fail> {
    let message = SUBMISSION.as_bytes();
    let before = Trial::with_ann(&rt, rt.alloc())?.tables()?;
    let mut trial = Trial::with_ann(&rt, rt.alloc())?;
    for place in 0..message.len() {
        trial.assert_served(
            &rt,
            &message[..place],
            Taking::All,
            Err(HttpFault::Ended),
            b"",
        );
        let failing = Source::new(message, Giving::FailsAt(place));
        trial.assert_served(&rt, failing, Taking::All, Err(HttpFault::Read), b"");
    }
    assert_eq!(rt; trial.tables()?, before);
    Ok(())
}

// That a submission of the profile of a number is handled whose writer takes its bytes so, which are this front part of the
// response.
fn assert_handled(
    rt: &impl Abort,
    trial: &mut Trial,
    number: usize,
    taking: Taking,
    front: &[u8],
) -> Result<(), Fail> {
    let message = format!(in trial.alloc;
        "POST /p/blue/web-{number} HTTP/1.1\r\nHost: office\r\nAuthorization: Bearer t-ann\r\n\
         Content-Length: 19\r\n\r\n{{\"capabilities\":{{}}}}"
    )?;
    let cut = Err(cut_at(200));
    trial.assert_served(rt, message.as_bytes(), taking, cut, front);
    trial.assert_served(
        rt,
        message.as_bytes(),
        Taking::All,
        Ok(403),
        SAME_AS_OPEN.as_bytes(),
    );
    Ok(())
}

#[test]
fn a_failing_write_leaves_a_front_part_and_what_was_handled(rt: HostRuntime) -> Result<(), Fail> {
    let response = SUBMITTED.as_bytes();
    let mut trial = Trial::with_ann(&rt, rt.alloc())?;
    for room in 0..response.len() {
        assert_handled(
            &rt,
            &mut trial,
            room,
            Taking::Bytes(room),
            &response[..room],
        )?;
    }
    trial.assert_served(
        &rt,
        SUBMISSION.as_bytes(),
        Taking::Bytes(response.len()),
        Ok(200),
        response,
    );
    // A writer that takes no byte has failed.
    assert_handled(&rt, &mut trial, response.len(), Taking::Nothing, b"")
}

// That a message is refused with this status where 12 bytes of the response can be written, and which these are.
fn assert_refused(rt: &impl Abort, trial: &mut Trial, message: &str, status: u16, written: &str) {
    let cut = Err(cut_at(status));
    trial.assert_served(
        rt,
        message.as_bytes(),
        Taking::Bytes(12),
        cut,
        written.as_bytes(),
    );
}

#[test]
fn a_refusal_that_is_cut_has_its_status(rt: HostRuntime) -> Result<(), Fail> {
    let no_route = "GET /x HTTP/1.1\r\nHost: office\r\n\r\n";
    let wrong_method = "GET /users HTTP/1.1\r\nHost: office\r\n\r\n";
    let mut trial = Trial::new(rt.alloc())?;
    assert_refused(&rt, &mut trial, no_route, 404, "HTTP/1.1 404");
    assert_refused(&rt, &mut trial, wrong_method, 405, "HTTP/1.1 405");
    assert_refused(&rt, &mut trial, "GET\r\n\r\n", 400, "HTTP/1.1 400");
    Ok(())
}

#[test]
fn a_message_cut_at_any_place_has_the_same_answer(rt: HostRuntime) -> Result<(), Fail> {
    let message = ENROLMENT.as_bytes();
    let mut trial = Trial::new(rt.alloc())?;
    for place in 0..message.len() {
        let (front, back) = message.split_at(place);
        trial.assert_served(
            &rt,
            front.chain(back),
            Taking::All,
            Ok(200),
            DONE.as_bytes(),
        );
    }
    Ok(())
}

#[test]
fn single_bytes_have_the_same_answer_where_each_read_is_interrupted(
    rt: HostRuntime,
) -> Result<(), Fail> {
    let message = ENROLMENT.as_bytes();
    let mut trial = Trial::new(rt.alloc())?;
    // The reader fails behind the body, if it is called.
    let single = Source::new(message, Giving::FailsAtEnd);
    let interrupted = Source::new(message, Giving::Interrupted);
    let calls = trial.assert_served(&rt, single, Taking::OneByOne, Ok(200), DONE.as_bytes());
    assert_eq!(rt; calls, message.len() as u64);
    let calls = trial.assert_served(&rt, interrupted, Taking::OneByOne, Ok(200), DONE.as_bytes());
    assert_eq!(rt; calls, (message.len() as u64).saturating_mul(2));
    Ok(())
}

const LONGEST_HEAD: &str =
    "POST /p/blue/web HTTP/1.1\r\nHost: office\r\nAuthorization: Bearer t-ann\r\nContent-Length: 262144\r\n\r\n";

// A submission of a document of 262,144 bytes.
fn longest_submission(alloc: Global) -> Result<String, AllocError> {
    let spaces = " ".repeat(alloc, 262_125)?;
    [LONGEST_HEAD, r#"{"capabilities":{}}"#, spaces.as_str()].concat(alloc)
}

#[test]
fn the_longest_body_may_come_a_byte_a_call(rt: HostRuntime) -> Result<(), Fail> {
    let mut trial = Trial::with_ann(&rt, rt.alloc())?;
    let message = longest_submission(rt.alloc())?;
    let pieces = Source::new(message.as_bytes(), Giving::FailsAtEnd);
    let calls = trial.assert_served(&rt, pieces, Taking::All, Ok(200), SUBMITTED.as_bytes());
    assert_eq!(rt; calls, message.len() as u64);
    Ok(())
}

#[test]
fn a_head_is_refused_before_anything_behind_it_comes(rt: HostRuntime) -> Result<(), Fail> {
    let letters = "a".repeat(rt.alloc(), 8192)?;
    let mut trial = Trial::new(rt.alloc())?;
    let endless = Source::new(letters.as_bytes(), Giving::FailsAtEnd);
    let calls = trial.assert_served(&rt, endless, Taking::All, Ok(400), TOO_LONG.as_bytes());
    assert_eq!(rt; calls, 8192);
    let long = Source::new(LONG_BODY.as_bytes(), Giving::FailsAtEnd);
    let calls = trial.assert_served(&rt, long, Taking::All, Ok(413), TOO_LARGE.as_bytes());
    assert_eq!(rt; calls, 67);
    Ok(())
}

// Requests, and whether bytes of one may still come behind its response.
const ENDS: [(&str, bool); 6] = [
    (ENROLMENT, false),
    (CALL, false),
    (
        "POST /hold/blue/web HTTP/1.1\r\nHost: office\r\nAuthorization: Bearer abc\r\nContent-Length: 2\r\n\r\n{}",
        false,
    ),
    (LONG_BODY, true),
    (
        "POST /nowhere HTTP/1.1\r\nHost: office\r\nContent-Length: 2\r\n\r\n{}",
        true,
    ),
    (
        "POST /hold/blue/web HTTP/1.1\r\nHost: office\r\nContent-Length: 2\r\n\r\n{}",
        true,
    ),
];

#[test]
fn only_of_what_is_refused_by_its_head_more_may_come(rt: HostRuntime) -> Result<(), Fail> {
    let mut trial = Trial::new(rt.alloc())?;
    for (message, is_unread) in ENDS {
        let mut written = Vec::new(rt.alloc());
        let exchange = trial.serve(message.as_bytes(), &mut written);
        assert!(rt; exchange.served.is_ok(), "{message}");
        assert_eq!(rt; exchange.is_unread, is_unread, "{message}");
    }
    Ok(())
}

#[test]
fn a_reader_is_not_called_without_end(rt: HostRuntime) -> Result<(), Fail> {
    let endless = Source::new(b"", Giving::Never);
    let mut trial = Trial::new(rt.alloc())?;
    let calls = trial.assert_served(&rt, endless, Taking::All, Err(HttpFault::TooManyReads), b"");
    assert_eq!(rt; calls, 600_000);
    Ok(())
}

#[test]
fn each_fault_of_an_exchange_has_its_word(rt: HostRuntime) -> Result<(), Fail> {
    let (cut, lost) = (
        cut_at(200),
        HttpFault::NoMemory {
            status: 403,
            witness: NoMemory::told(),
        },
    );
    let words = format!(in rt.alloc();
        "{} {} {} {cut} {lost}",
        HttpFault::Read,
        HttpFault::Ended,
        HttpFault::TooManyReads,
    )?;
    assert_eq!(rt; words.as_str(), "read ended too-many-reads write memory");
    Ok(())
}
