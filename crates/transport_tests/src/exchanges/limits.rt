//! Documents and answers at their limits, over HTTP.

use crate::exchanges::trial::Trial;
use std::alloc::{AllocError, Global};
use std::process::Abort;
use std::test::Fail;
use test_doubles::fake_streams::Taking;
use test_doubles::long_texts::{DIGEST, longest_escaped, longest_text};

// A submission by ann of a document of 262,144 bytes.
fn submission(alloc: Global, document: &str) -> Result<String, AllocError> {
    format!(in alloc;
        "POST /p/blue/web HTTP/1.1\r\nHost: office\r\nAuthorization: Bearer t-ann\r\n\
         Content-Length: 262144\r\n\r\n{document}"
    )
}

// A response with this status line and this body.
fn response(alloc: Global, status: &str, body: &str) -> Result<String, AllocError> {
    format!(in alloc;
        "HTTP/1.1 {status}\r\nContent-Type: application/json\r\nContent-Length: {}\r\n\
         Connection: close\r\n\r\n{body}",
        body.len(),
    )
}

// That a message is answered so.
fn assert_answered(rt: &impl Abort, trial: &mut Trial, message: &str, status: u16, wanted: &str) {
    trial.assert_served(
        rt,
        message.as_bytes(),
        Taking::All,
        Ok(status),
        wanted.as_bytes(),
    );
}

const SHOW: &str =
    "GET /p/blue/web/1 HTTP/1.1\r\nHost: office\r\nAuthorization: Bearer t-ann\r\n\r\n";

#[test]
fn a_text_of_262144_bytes_is_handed_in_and_shown_over_http(rt: HostRuntime) -> Result<(), Fail> {
    let alloc = rt.alloc();
    let mut trial = Trial::with_ann(&rt, alloc)?;
    let message = submission(alloc, longest_text(alloc)?.as_str())?;
    let done = format!(in alloc; "{{\"answer\":\"done\",\"digest\":\"{DIGEST}\",\"revision\":1}}")?;
    let submitted = response(alloc, "200 OK", done.as_str())?;
    assert_answered(&rt, &mut trial, message.as_str(), 200, submitted.as_str());
    let text = longest_escaped(alloc)?;
    let shown = format!(in alloc;
        "{{\"answer\":\"done\",\"digest\":\"{DIGEST}\",\"document\":\"{text}\",\"state\":\"open\"}}"
    )?;
    let wanted = response(alloc, "200 OK", shown.as_str())?;
    assert_answered(&rt, &mut trial, SHOW, 200, wanted.as_str());
    Ok(())
}

#[test]
fn a_body_of_262144_bytes_is_refused_by_what_it_has(rt: HostRuntime) -> Result<(), Fail> {
    let alloc = rt.alloc();
    let mut trial = Trial::with_ann(&rt, alloc)?;
    let message = submission(alloc, "a".repeat(alloc, 262_144)?.as_str())?;
    let denied = r#"{"answer":"denied","fault":"not-json","rule":4,"word":"document"}"#;
    let refused = response(alloc, "403 Forbidden", denied)?;
    assert_answered(&rt, &mut trial, message.as_str(), 403, refused.as_str());
    Ok(())
}
