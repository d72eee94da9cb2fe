//! Clients that wait in the queue of a listener.

use desk_http::{HttpFault, Listener, Served, Stream, serve_exchanges};
use http_requests::OfficeRouter;
use std::alloc::Global;
use std::io;
use std::io::ErrorKind;
use std::process::Abort;
use std::test::Fail;
use streams::Counted;
use test_doubles::fake_streams::{Giving, Sink, Source, Taking};
use test_doubles::messages::{
    CALL, DONE, ENROLMENT, LISTING, MEMORY, NO_ROUTE, SAME_AS_OPEN, SUBMISSION, SUBMITTED, UNKNOWN,
};
use test_offices::trial::TrialOffice;

// A client: what it sends and in which pieces, how it takes its response, and which part of that.
#[derive(Clone, Copy)]
struct Client<'a> {
    message: &'a str,
    giving: Giving,
    taking: Taking,
    response: &'a str,
}

impl<'a> Client<'a> {
    // One that sends and takes all at once.
    fn plain(message: &'a str, response: &'a str) -> Client<'a> {
        Client {
            message,
            giving: Giving::Whole,
            taking: Taking::All,
            response,
        }
    }
}

// A queue of clients, how many of them were accepted, and what was written to them.
#[derive(Drop)]
struct Queue<'a> {
    alloc: Global,
    clients: &'a [Client<'a>],
    accepted: usize,
    written: Vec<Vec<u8>>,
}

impl<'a> Listener for Queue<'a> {
    ghost use Rattle.std.specs.Prelude.{⊤};

    type Reader = Source<'a>;

    type Writer = Sink;

    ghost meaning = { record { hands_out = λ _ _ _. ⊤; takes_back = λ _ _ _ _ _. ⊤ } };

    fn accept(&mut self) -> io::Result<Stream<Source<'a>, Sink>> {
        let Some(client) = self.clients.get(self.accepted) else {
            return Err(io::Error::from(ErrorKind::ConnectionAborted));
        };
        self.accepted += 1;
        Ok(Stream {
            reader: Source::new(client.message.as_bytes(), client.giving),
            writer: Sink::new(Vec::new(self.alloc), client.taking),
        })
    }

    fn take_back(
        &mut self,
        _reader: Counted<Source<'a>>,
        writer: Counted<Sink>,
        _served: Result<Served, HttpFault>,
    )
        ensures { ⊤ }
    {
        let _ = self.written.push(writer.into_inner().held);
    }
}

// What is written, with room for lines so that memory is refused elsewhere.
fn output(alloc: Global) -> Result<Counted<Sink>, Fail> {
    let held = Vec::with_capacity(alloc, 1024)?;
    Ok(Counted::new(Sink::new(held, Taking::All)))
}

// Each of these clients is answered as it should be, over one office, with these lines.
fn assert_answered(
    rt: &impl Abort,
    alloc: Global,
    clients: &[Client],
    exchanges: u64,
    lines: &str,
) -> Result<(), Fail> {
    let mut office = TrialOffice::new(alloc)?;
    let router = OfficeRouter::new(alloc)?;
    let mut queue = Queue {
        alloc,
        clients,
        accepted: 0,
        written: Vec::new(alloc),
    };
    let mut output = output(alloc)?;
    let served = serve_exchanges(
        &mut office,
        alloc,
        &router,
        &mut queue,
        exchanges,
        &mut output,
    );
    assert!(rt; served.is_ok() && output.faults() == 0);
    assert_eq!(rt; output.into_inner().held.as_slice(), lines.as_bytes());
    for (client, written) in clients.iter().zip(queue.written.iter()) {
        assert_eq!(rt; written.as_slice(), client.response.as_bytes());
    }
    Ok(())
}

#[test]
fn clients_that_wait_are_answered_in_order(rt: HostRuntime) -> Result<(), Fail> {
    let clients = [
        Client::plain(CALL, UNKNOWN),
        Client::plain(ENROLMENT, DONE),
        Client::plain("GET /x HTTP/1.1\r\nHost: office\r\n\r\n", NO_ROUTE),
        Client::plain(SUBMISSION, SUBMITTED),
        Client::plain(SUBMISSION, SAME_AS_OPEN),
        Client::plain(LISTING, UNKNOWN),
    ];
    let lines = "403\n200\n404\n200\n403\n403\n";
    assert_answered(&rt, rt.alloc(), &clients, 6, lines)
}

// The last of these exchanges has no client.
#[test]
fn each_fault_has_its_line_and_the_next_client_is_answered(rt: HostRuntime) -> Result<(), Fail> {
    let call = Client::plain(CALL, "");
    let next = Client::plain(CALL, UNKNOWN);
    let clients = [
        Client::plain("GET /p/blue", ""),
        Client {
            giving: Giving::FailsAt(9),
            ..call
        },
        Client {
            giving: Giving::Never,
            ..call
        },
        next,
        Client {
            taking: Taking::Bytes(0),
            ..call
        },
        next,
    ];
    let lines =
        "fault ended\nfault read\nfault too-many-reads\n403\nfault write\n403\nfault read\n";
    assert_answered(&rt, rt.alloc(), &clients, 7, lines)
}

// What a client was answered is told by this line.
fn told_by(written: &[u8]) -> &str {
    if written == DONE.as_bytes() {
        "200\n"
    } else if written == MEMORY.as_bytes() {
        "503\n"
    } else {
        "fault memory\n"
    }
}

// With each allocation refused in turn, as by `rt try --test --fail-alloc N`: the line says so where there was no memory for the
// response, of which nothing is written then.
#[test]
fn out_of_memory_has_its_line(rt: HostRuntime) -> Result<(), Fail> {
    let alloc = rt.alloc();
    let mut office = TrialOffice::new(alloc)?;
    let router = OfficeRouter::new(alloc)?;
    let clients = [Client::plain(ENROLMENT, DONE)];
    let mut queue = Queue {
        alloc,
        clients: &clients,
        accepted: 0,
        written: Vec::with_capacity(alloc, 1)?,
    };
    let mut output = output(alloc)?;
    let served = serve_exchanges(&mut office, alloc, &router, &mut queue, 1, &mut output);
    let held = output.into_inner().held;
    assert!(rt; served.is_ok());
    for written in &queue.written {
        assert_eq!(rt; held.as_slice(), told_by(written.as_slice()).as_bytes());
    }
    Ok(())
}
