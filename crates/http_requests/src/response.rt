//! The responses of the office: to each answer, and to what is no request.

ghost use Rattle.std.specs.Prelude.{◌≡◌, IfOk, string_bytes};
ghost use Rattle.http_requests.specs.Responses.{refusal_with, response_to, response_with};
ghost use Rattle.http_requests.specs.Responses.{status_of};
ghost use Rattle.no_memory.specs.Witness.{witness};

use crate::message::{ContentType, message_text};
use crate::status::Status;
use json_requests::{answer_text, bad_text};
use office_words::Fault;
use review_policy::{Answer, Reply};
use std::alloc::{AllocError, Global};

/// The status of the response to an answer.
pub fn answer_status(answer: &Answer) -> Status
    ensures { result ≡ status_of answer.now }
{
    match answer {
        Answer::Done(_) => Status::Done,
        Answer::Denied { .. } => Status::Forbidden,
        Answer::Fault(_) => Status::ServiceUnavailable,
    }
}

/// The response with this status to an answer: of a fetch the document itself, of a sheet its text,
/// and of all else the text of the answer.
///
/// # Errors
///
/// Out of memory. No contract can say when.
pub fn answer_response(alloc: Global, status: Status, answer: &Answer) -> Result<String, AllocError>
    ensures { IfOk result (λ text. string_bytes text ≡ response_with status answer.now) }
{
    match answer {
        Answer::Done(Reply::Fetched { document, .. }) => {
            message_text(alloc, status, ContentType::Json, document.as_str())
        }
        Answer::Done(Reply::Sheet { sheet }) => {
            message_text(alloc, status, ContentType::PlainText, sheet.as_str())
        }
        _ => {
            let text = answer_text(alloc, answer)?;
            message_text(alloc, status, ContentType::Json, text.as_str())
        }
    }
}

/// The response with this status that refuses a request by a word.
///
/// # Errors
///
/// Out of memory. No contract can say when.
pub fn refusal_response(alloc: Global, status: Status, word: &str) -> Result<String, AllocError>
    ensures { IfOk result (λ text. string_bytes text ≡ refusal_with status word.now) }
{
    let text = bad_text(alloc, word)?;
    message_text(alloc, status, ContentType::Json, text.as_str())
}

/// The response to an answer that says that there was no memory. It is a constant, since there may
/// be no memory to make it.
#[tactic(auto, unfolding(crate::proofs::OnLiterals::response_on_literals))]
pub fn memory_response() -> &'static str
    ensures { result.now ≡ response_to (Answer.Fault (Fault.NoMemory witness)) }
{
    "HTTP/1.1 503 Service Unavailable\r\n\
     Content-Type: application/json\r\n\
     Content-Length: 34\r\n\
     Connection: close\r\n\
     \r\n\
     {\"answer\":\"fault\",\"word\":\"memory\"}"
}
