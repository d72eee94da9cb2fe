//! Answers as lines and as responses, where no conversation has them.

use http_requests::{answer_response, answer_status, memory_response};
use json_requests::line;
use no_memory::NoMemory;
use office_words::{Fault, State, Text, Word};
use review_policy::{Answer, ListedProfile, Listing, Reply};
use std::alloc::{AllocError, Global};
use std::test::Fail;

// The line that reports an answer, and the response that does.
fn told(alloc: Global, answer: Answer) -> (Result<String, AllocError>, Result<String, AllocError>) {
    let status = answer_status(&answer);
    (
        line(alloc, &answer),
        answer_response(alloc, status, &answer),
    )
}

// Writes both.
fn push_told(text: &mut String, alloc: Global, answer: Answer) -> Result<(), AllocError> {
    let (line, response) = told(alloc, answer);
    text.push_str(line?.as_str())?;
    text.push_str(response?.as_str())?;
    text.push('\n')
}

// Each fault, and then what is answered without memory.
const FAULTS: &str = "\
     memory {\"answer\":\"fault\",\"word\":\"memory\"}\n\
     HTTP/1.1 503 Service Unavailable\r\nContent-Type: application/json\r\nContent-Length: 34\r\n\
     Connection: close\r\n\r\n{\"answer\":\"fault\",\"word\":\"memory\"}\n\
     disk {\"answer\":\"fault\",\"word\":\"disk\"}\n\
     HTTP/1.1 503 Service Unavailable\r\nContent-Type: application/json\r\nContent-Length: 32\r\n\
     Connection: close\r\n\r\n{\"answer\":\"fault\",\"word\":\"disk\"}\n\
     full {\"answer\":\"fault\",\"word\":\"full\"}\n\
     HTTP/1.1 503 Service Unavailable\r\nContent-Type: application/json\r\nContent-Length: 32\r\n\
     Connection: close\r\n\r\n{\"answer\":\"fault\",\"word\":\"full\"}\n\
     not-an-office {\"answer\":\"fault\",\"word\":\"not-an-office\"}\n\
     HTTP/1.1 503 Service Unavailable\r\nContent-Type: application/json\r\nContent-Length: 41\r\n\
     Connection: close\r\n\r\n{\"answer\":\"fault\",\"word\":\"not-an-office\"}\n\
     HTTP/1.1 503 Service Unavailable\r\nContent-Type: application/json\r\nContent-Length: 34\r\n\
     Connection: close\r\n\r\n{\"answer\":\"fault\",\"word\":\"memory\"}";

fn push_faults(text: &mut String, alloc: Global) -> Result<(), AllocError> {
    for fault in [
        Fault::NoMemory(NoMemory::told()),
        Fault::Disk,
        Fault::Full,
        Fault::NotAnOffice,
    ] {
        write!(text, "{} ", fault.word())?;
        push_told(text, alloc, Answer::Fault(fault))?;
    }
    text.push_str(memory_response())
}

#[test]
fn each_fault_has_its_word_its_line_and_its_response(rt: HostRuntime) -> Result<(), AllocError> {
    let mut text = String::new(rt.alloc());
    push_faults(&mut text, rt.alloc())?;
    assert_eq!(rt; text.as_str(), FAULTS);
    Ok(())
}

// Two profiles, in no order of their names.
fn listed_profiles(alloc: Global) -> Result<Listing, Fail> {
    let mut listed = Vec::new(alloc);
    for (name, issued) in [("web", 0), ("api", 2)] {
        let profile = Word::new(alloc, name)?;
        listed.push(ListedProfile {
            profile,
            issued,
            revisions: 2,
            state: State::Open,
        })?;
    }
    Ok(Listing::new(listed))
}

// Two profiles, the last revision, and a sheet of unusual characters, whose length is of bytes.
const DONE: &str = "\
     {\"answer\":\"done\",\"profiles\":[{\"issued\":0,\"profile\":\"web\",\"revisions\":2,\"state\":\"open\"},\
     {\"issued\":2,\"profile\":\"api\",\"revisions\":2,\"state\":\"open\"}]}\n\
     HTTP/1.1 200 OK\r\nContent-Type: application/json\r\nContent-Length: 146\r\nConnection: close\r\n\r\n\
     {\"answer\":\"done\",\"profiles\":[{\"issued\":0,\"profile\":\"web\",\"revisions\":2,\"state\":\"open\"},\
     {\"issued\":2,\"profile\":\"api\",\"revisions\":2,\"state\":\"open\"}]}\n\
     {\"answer\":\"done\",\"digest\":\"abababababababababababababababababababababababababababababababab\",\"revision\":9999}\n\
     HTTP/1.1 200 OK\r\nContent-Type: application/json\r\nContent-Length: 109\r\nConnection: close\r\n\r\n\
     {\"answer\":\"done\",\"digest\":\"abababababababababababababababababababababababababababababababab\",\"revision\":9999}\n\
     {\"answer\":\"done\",\"sheet\":\"a\\n\\u0001\u{7f}/\u{e9}\\t\\\\\"}\n\
     HTTP/1.1 200 OK\r\nContent-Type: text/plain\r\nContent-Length: 9\r\nConnection: close\r\n\r\n\
     a\n\u{1}\u{7f}/\u{e9}\t\\\n";

fn push_done(text: &mut String, alloc: Global) -> Result<(), Fail> {
    let profiles = listed_profiles(alloc)?;
    push_told(text, alloc, Answer::Done(Reply::Listed { profiles }))?;
    let (digest, revision) = ([0xab; 32], 9999);
    push_told(
        text,
        alloc,
        Answer::Done(Reply::Submitted { digest, revision }),
    )?;
    let sheet = Text::new(String::from_str(alloc, "a\n\u{1}\u{7f}/\u{e9}\t\\")?);
    push_told(text, alloc, Answer::Done(Reply::Sheet { sheet }))?;
    Ok(())
}

#[test]
fn what_is_done_is_told_whole(rt: HostRuntime) -> Result<(), Fail> {
    let mut text = String::new(rt.alloc());
    push_done(&mut text, rt.alloc())?;
    assert_eq!(rt; text.as_str(), DONE);
    Ok(())
}
