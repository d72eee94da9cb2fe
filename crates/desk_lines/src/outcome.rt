//! What comes of a line.

ghost use Rattle.std.specs.Prelude.{◌≡◌};

use json_requests::{BadLine, LineFault, read_line};
use json_tree::Scratch;
use no_memory::NoMemory;
use office_policy::Handler;
use office_words::Fault;
use review_policy::{Answer, Request};
use std::alloc::Global;
use streams::MAX_LINE;

/// What came of a line.
#[derive(Drop)]
pub enum LineOutcome {
    /// It is no request.
    Bad(BadLine),
    /// There was no memory to read it.
    NoMemory(NoMemory),
    /// The request that it asks was answered.
    Answered { request: Request, answer: Answer },
}

impl LineOutcome {
    ghost use Rattle.desk_lines.specs.Outcomes.{want_of};
    ghost use Rattle.desk_lines.specs.Stands.{IsHandled};

    /// Handles a line, given without its line feed. A scratch is kept from line to line.
    pub fn of_line<H: Handler>(
        office: &mut H,
        alloc: Global,
        line: &[u8],
        scratch: &mut Scratch,
    ) -> LineOutcome
        ensures { IsHandled H.meaning office.old office.new line.now result }
    {
        if line.len() > MAX_LINE {
            return LineOutcome::Bad(BadLine::TooLong);
        }
        match read_line(alloc, line, scratch) {
            Ok(request) => {
                let answer = office.handle(alloc, &request);
                LineOutcome::Answered { request, answer }
            }
            Err(LineFault::NotJson) => LineOutcome::Bad(BadLine::NotJson),
            Err(LineFault::NotARequest) => LineOutcome::Bad(BadLine::NotARequest),
            Err(LineFault::NoMemory(witness)) => LineOutcome::NoMemory(witness),
        }
    }

    // The witness, where the line that reports it says that there was no memory.
    pub(crate) fn witness(&self) -> Option<NoMemory>
        ensures { result ≡ want_of self.now }
    {
        match self {
            LineOutcome::NoMemory(witness) => Some(*witness),
            LineOutcome::Answered {
                request: _,
                answer: Answer::Fault(Fault::NoMemory(witness)),
            } => Some(*witness),
            _ => None,
        }
    }
}
