//! What came of an exchange.

ghost use Rattle.std.specs.Prelude.{◌≡◌, ◌≤◌, ◌<◌, ◌-◌, ◌^◌};
ghost use Rattle.office_policy.specs.Handled.{IsHandled};

use crate::fault::HttpFault;
use crate::served::Served;
use http_requests::{OfficeRouter, Refusal, Status, Unheard, answer_status, hear};
use json_tree::Scratch;
use no_memory::NoMemory;
use office_policy::Handler;
use office_words::Fault;
use review_policy::{Answer, Request};
use std::alloc::Global;
use std::io::Read;
use streams::{Counted, Unread};

/// What came of an exchange.
#[derive(Drop)]
pub enum ExchangeOutcome {
    /// What came is no request.
    Refused(Refusal),
    /// There was no memory to read it.
    NoMemory(NoMemory),
    /// The request that it asks was answered.
    Answered { request: Request, answer: Answer },
}

impl ExchangeOutcome {
    ghost use Rattle.desk_http.specs.Outcomes.{is_unread, told_as, told_status, want_of};
    ghost use Rattle.desk_http.specs.Served.{HasOutcome, ReadCounts};

    // Hears the request that a stream begins with, and handles it.
    pub(crate) fn of_stream<H: Handler, R: Read>(
        office: &mut H,
        alloc: Global,
        router: &OfficeRouter,
        scratch: &mut Scratch,
        reader: &mut Counted<R>,
        most_calls: u64,
    ) -> Result<ExchangeOutcome, HttpFault>
        requires countable { most_calls < 2 ^ 64 - 1 }
        requires calls { reader.old.calls ≤ most_calls }
        ensures outcome { HasOutcome (office.new ≡ office.old)
            (IsHandled H.meaning office.old office.new)
            (R.remaining reader.old.inner) (R.remaining reader.new.inner) result }
        ensures read { ReadCounts reader.old.calls reader.new.calls most_calls
            reader.old.faults reader.new.faults result }
        ensures calls { reader.new.calls ≤ most_calls }
    {
        match hear(alloc, router, scratch, reader, most_calls) {
            Ok(request) => {
                let answer = office.handle(alloc, &request);
                Ok(ExchangeOutcome::Answered { request, answer })
            }
            Err(Unheard::Refused(refusal)) => Ok(ExchangeOutcome::Refused(refusal)),
            Err(Unheard::Ended) => Err(HttpFault::Ended),
            Err(Unheard::Unread(Unread::Failed)) => Err(HttpFault::Read),
            Err(Unheard::Unread(Unread::TooManyReads)) => Err(HttpFault::TooManyReads),
            Err(Unheard::Unread(Unread::NoMemory(witness))) => Ok(ExchangeOutcome::NoMemory(
                witness,
            )),
        }
    }

    // The status of the response that reports it.
    pub(crate) fn status(&self) -> Status
        ensures { result ≡ told_status self.now }
    {
        match self {
            ExchangeOutcome::Refused(refusal) => refusal.status(),
            ExchangeOutcome::NoMemory(_) => Status::ServiceUnavailable,
            ExchangeOutcome::Answered { request: _, answer } => answer_status(answer),
        }
    }
    // Whether bytes of the request may still come. Of one that was refused by its head nothing more
    // is read, and nobody knows how far one was read for which there was no memory.
    fn is_unread(&self) -> bool
        ensures { result ≡ is_unread self.now }
    {
        match self {
            ExchangeOutcome::Refused(Refusal::NotARequest) | ExchangeOutcome::Answered { .. } =>
                false,
            ExchangeOutcome::Refused(_) | ExchangeOutcome::NoMemory(_) => true,
        }
    }

    // The witness, where the response that reports it says that there was no memory.
    fn witness(&self) -> Option<NoMemory>
        ensures { result ≡ want_of self.now }
    {
        match self {
            ExchangeOutcome::NoMemory(witness) => Some(*witness),
            ExchangeOutcome::Answered {
                request: _,
                answer: Answer::Fault(Fault::NoMemory(witness)),
            } => Some(*witness),
            _ => None,
        }
    }

    // What an exchange comes to in which it is reported.
    pub(crate) fn served(&self) -> Served
        ensures { result ≡ told_as self.now }
    {
        Served {
            status: self.status().code(),
            is_unread: self.is_unread(),
            witness: self.witness(),
        }
    }
}
