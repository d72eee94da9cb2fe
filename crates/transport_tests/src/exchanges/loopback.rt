//! Exchanges over loopback.

use crate::exchanges::trial::Trial;
use std::io;
use std::io::Write;
use std::net::{Ipv4Addr, Shutdown, SocketAddr, TcpListener, TcpStream};
use std::process::Abort;
use std::test::Fail;
use std::time::{Clock, Duration, Instant};
use streams::Counted;
use test_doubles::clock::Ticking;
use test_doubles::fake_streams::{Sink, Taking};
use test_doubles::messages::{CALL, LISTING, LONG_BODY, NO_ROUTE, TOO_LARGE, UNKNOWN};

// For how many milliseconds an exchange may last, where that doesn't matter.
const LONG: u64 = 10_000;

// And where a client is waited for.
const SHORT: u64 = 200;

// An office that is served on a free port of loopback.
#[derive(Drop)]
struct Server<'a> {
    rt: &'a HostRuntime,
    trial: Trial,
    listener: TcpListener,
    address: SocketAddr,
}

impl<'a> Server<'a> {
    fn open(rt: &'a HostRuntime) -> Result<Server<'a>, Fail> {
        let listener = TcpListener::bind(rt, "127.0.0.1:0")?;
        let port = listener.local_addr()?.port();
        let address = SocketAddr::from((Ipv4Addr::LOCALHOST, port));
        let trial = Trial::new(rt.alloc())?;
        Ok(Server {
            rt,
            trial,
            listener,
            address,
        })
    }

    // A client that has written a message, may have ended its side, and waits.
    fn connect(&self, message: &str, ends: bool) -> Result<TcpStream, Fail> {
        let mut stream = TcpStream::connect(self.rt, self.address)?;
        stream.write_all(message.as_bytes())?;
        if ends {
            stream.shutdown(Shutdown::Write)?;
        }
        Ok(stream)
    }

    // That this many exchanges are served, with all their lines or not, and that these are written to an output that takes them so.
    fn assert_lines<C: Clock>(
        &mut self,
        rt: &impl Abort,
        clock: &C,
        longest: u64,
        exchanges: u64,
        taking: Taking,
        is_whole: bool,
        lines: &str,
    ) -> Result<(), Fail> {
        let alloc = self.trial.alloc;
        let longest = Duration::from_millis(longest);
        let mut output = Counted::new(Sink::new(Vec::new(alloc), taking));
        let server = desk_http::Server::new(clock, alloc, longest)?;
        let served = server.serve_all(
            &mut self.trial.office,
            &self.listener,
            exchanges,
            &mut output,
        );
        assert_eq!(rt; served.is_ok(), is_whole);
        assert_eq!(rt; output.faults() == 0, is_whole);
        assert_eq!(rt; output.into_inner().held.as_slice(), lines.as_bytes());
        Ok(())
    }

    // That a client is answered so.
    fn assert_answer(
        &self,
        rt: &impl Abort,
        stream: TcpStream,
        response: &str,
    ) -> Result<(), Fail> {
        let mut stream = stream;
        let answer = io::read_to_string(self.trial.alloc, &mut stream)?;
        assert_eq!(rt; answer.as_str(), response);
        Ok(())
    }

    // That a client which writes this, and may end its side, is answered so, and that the next one has its own answer.
    fn assert_both<C: Clock>(
        &mut self,
        rt: &impl Abort,
        clock: &C,
        longest: u64,
        message: &str,
        ends: bool,
        response: &str,
        lines: &str,
    ) -> Result<(), Fail> {
        let first = self.connect(message, ends)?;
        let second = self.connect(CALL, false)?;
        self.assert_lines(rt, clock, longest, 2, Taking::All, true, lines)?;
        self.assert_answer(rt, first, response)?;
        self.assert_answer(rt, second, UNKNOWN)
    }
}

#[test]
fn two_clients_are_answered(rt: HostRuntime) -> Result<(), Fail> {
    let mut server = Server::open(&rt)?;
    let first = server.connect(LISTING, true)?;
    let second = server.connect(LISTING, true)?;
    server.assert_lines(&rt, &rt, LONG, 2, Taking::All, true, "403\n403\n")?;
    server.assert_answer(&rt, first, UNKNOWN)?;
    server.assert_answer(&rt, second, UNKNOWN)?;
    // No exchange has no line.
    server.assert_lines(&rt, &rt, LONG, 0, Taking::Nothing, true, "")
}

// Parts of messages.
const PARTS: [&str; 3] = [
    "",
    "GET /p/blue",
    "POST /p/blue/web HTTP/1.1\r\nHost: office\r\nAuthorization: Bearer nobody\r\nContent-Length: 18\r\n\r\n{\"capabil",
];

// The clock stands still, so that only a call that waits can end by the deadline, however busy the machine is.
#[test]
fn a_client_that_sends_nothing_more_is_left_and_the_next_is_served(
    rt: HostRuntime,
) -> Result<(), Fail> {
    let mut server = Server::open(&rt)?;
    let still = Ticking::new(Some(0));
    for part in PARTS {
        server.assert_both(&rt, &still, SHORT, part, false, "", "fault read\n403\n")?;
    }
    Ok(())
}

#[test]
fn a_silent_client_is_waited_for_by_the_clock(rt: HostRuntime) -> Result<(), Fail> {
    let mut server = Server::open(&rt)?;
    let start = Instant::now(&rt)?;
    let silent = server.connect("", false)?;
    server.assert_lines(&rt, &rt, SHORT, 1, Taking::All, true, "fault read\n")?;
    assert!(rt; start.elapsed(&rt)? >= Duration::from_millis(150));
    server.assert_answer(&rt, silent, "")?;
    Ok(())
}

#[test]
fn a_client_that_closes_too_soon_has_no_answer(rt: HostRuntime) -> Result<(), Fail> {
    let mut server = Server::open(&rt)?;
    for part in PARTS {
        server.assert_both(&rt, &rt, LONG, part, true, "", "fault ended\n403\n")?;
    }
    Ok(())
}

// That a client which sends 20,000 bytes behind this head is refused so.
fn assert_refused_sender(
    rt: &impl Abort,
    server: &mut Server,
    head: &str,
    response: &str,
    line: &str,
) -> Result<(), Fail> {
    let clock = server.rt;
    let letters = "a".repeat(clock.alloc(), 20_000)?;
    let message = [head, letters.as_str()].concat(clock.alloc())?;
    let sender = server.connect(message.as_str(), true)?;
    server.assert_lines(rt, clock, LONG, 1, Taking::All, true, line)?;
    server.assert_answer(rt, sender, response)
}

// Were the connection closed over the bytes that nobody read, it would be reset.
#[test]
fn a_client_that_is_refused_while_it_sends_reads_its_answer_to_the_end(
    rt: HostRuntime,
) -> Result<(), Fail> {
    let head = "POST /p HTTP/1.1\r\nHost: office\r\nContent-Length: 20000\r\n\r\n";
    let mut server = Server::open(&rt)?;
    assert_refused_sender(&rt, &mut server, LONG_BODY, TOO_LARGE, "413\n")?;
    assert_refused_sender(&rt, &mut server, head, NO_ROUTE, "404\n")
}

#[test]
fn a_clock_that_cannot_be_read_is_as_a_failing_reader(rt: HostRuntime) -> Result<(), Fail> {
    let mut server = Server::open(&rt)?;
    let _client = server.connect(CALL, false)?;
    server.assert_lines(
        &rt,
        &Ticking::new(None),
        LONG,
        1,
        Taking::All,
        true,
        "fault read\n",
    )
}

// That an output with room for so many bytes takes this of the lines and ends it, and that who wasn't served is served next.
fn assert_output_fails(
    rt: &impl Abort,
    server: &mut Server,
    room: usize,
    written: &str,
) -> Result<(), Fail> {
    let clock = server.rt;
    let first = server.connect(CALL, false)?;
    let second = server.connect(CALL, false)?;
    server.assert_lines(rt, clock, LONG, 2, Taking::Bytes(room), false, written)?;
    server.assert_answer(rt, first, UNKNOWN)?;
    if room < 4 {
        server.assert_lines(rt, clock, LONG, 1, Taking::All, true, "403\n")?;
    }
    server.assert_answer(rt, second, UNKNOWN)
}

#[test]
fn an_output_that_fails_ends_it(rt: HostRuntime) -> Result<(), Fail> {
    let mut server = Server::open(&rt)?;
    assert_output_fails(&rt, &mut server, 0, "")?;
    assert_output_fails(&rt, &mut server, 3, "403")?;
    assert_output_fails(&rt, &mut server, 4, "403\n")?;
    assert_output_fails(&rt, &mut server, 7, "403\n403")
}
