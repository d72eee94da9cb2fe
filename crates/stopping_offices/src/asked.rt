//! What an office is asked.

use desk_http::serve_one;
use http_requests::OfficeRouter;
use json_requests::{line, read_line};
use json_tree::Scratch;
use office_policy::Handler;
use review_policy::{Answer, Request};
use std::alloc::Global;
use std::test::Fail;
use streams::Counted;

// What is asked, what is answered and how that stands in a line are apart, so that no proof carries the clauses of two.

/// The request of a line.
pub fn request_of(alloc: Global, request: &str) -> Result<Request, Fail> {
    Ok(read_line(alloc, request.as_bytes(), &mut Scratch::new(alloc))?)
}

/// The line of an answer.
pub fn line_of(alloc: Global, answer: &Answer) -> Result<String, Fail> {
    Ok(line(alloc, answer)?)
}

/// What an office answers.
pub fn answer_of<H: Handler>(alloc: Global, office: &mut H, request: &Request) -> Answer {
    office.handle(alloc, request)
}

fn answer_to_line<H: Handler>(
    alloc: Global,
    office: &mut H,
    request: &str,
) -> Result<String, Fail> {
    let request = request_of(alloc, request)?;
    let answer = answer_of(alloc, office, &request);
    line_of(alloc, &answer)
}

// Writes the response to a message.
fn respond<H: Handler>(
    alloc: Global,
    office: &mut H,
    request: &str,
    written: &mut Vec<u8>,
) -> Result<(), Fail> {
    let router = OfficeRouter::new(alloc)?;
    let mut reader = Counted::new(request.as_bytes());
    let mut writer = Counted::new(written);
    let mut scratch = Scratch::new(alloc);
    match serve_one(
        office,
        alloc,
        &router,
        &mut scratch,
        &mut reader,
        &mut writer,
    ) {
        Ok(_) => Ok(()),
        Err(fault) => Err(Fail::from(fault.to_string(alloc)?)),
    }
}

fn answer_to_message<H: Handler>(
    alloc: Global,
    office: &mut H,
    request: &str,
) -> Result<String, Fail> {
    let mut written = Vec::new(alloc);
    respond(alloc, office, request, &mut written)?;
    Ok(String::from_utf8(written)?)
}

/// What is answered to a request, which is a line, or else a message over HTTP.
pub fn answer_to<H: Handler>(alloc: Global, office: &mut H, request: &str) -> Result<String, Fail> {
    if request.starts_with("{") {
        answer_to_line(alloc, office, request)
    } else {
        answer_to_message(alloc, office, request)
    }
}

pub fn is_fault(answer: &str) -> bool {
    answer.contains("\"answer\":\"fault\"")
}
