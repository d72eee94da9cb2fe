//! `serve`: an office in a file, over HTTP on loopback.

ghost use Rattle.std.specs.Prelude.{◌≡◌, IfErr, IfOk, string_bytes, ⊤};
ghost use Rattle.std.specs.Duration.{as_nanos};
ghost use Rattle.std.specs.Net.Socket.{socket_ip, socket_port};
ghost use Rattle.command_host.specs.Networks.{IsLoopback};
ghost use Rattle.command_host.specs.Outside.{known};
ghost use Rattle.changing_commands.specs.Served.{IsServedOver};
ghost use Rattle.changing_commands.specs.Serving.{IsAt, IsServing, IsTellingPort, IsUnbound};
ghost use Rattle.changing_commands.specs.Serving.{listening_line, longest_exchange};

use crate::served::{Serves, serve_named};
use command_host::{CommandFault, Host, Network, Outside, PassNet, print};
use command_line::ServeWords;
use desk_http::{PassClock, Server};
use office_policy::Handler;
use std::alloc::{AllocError, Global};
use std::io::Write;
use std::net::{IpAddr, Ipv4Addr, SocketAddr, TcpListener};
use std::time::Duration;
use streams::{Counted, WriteFailed};

// How long an exchange may last.
fn longest() -> Duration
    ensures { as_nanos result ≡ longest_exchange }
{
    Duration::from_secs(10)
}

// A port of loopback.
fn loopback(port: u16) -> SocketAddr
    ensures ip { IsLoopback (socket_ip result) }
    ensures port { socket_port result ≡ port }
{
    SocketAddr::new(IpAddr::V4(Ipv4Addr::new(127, 0, 0, 1)), port)
}

// The line that says at which port it listens.
fn listening_line(alloc: Global, port: u16) -> Result<String, AllocError>
    ensures { IfOk result (λ line. string_bytes line ≡ listening_line port) }
{
    format!(in alloc; "listening 127.0.0.1:{port}\n")
}

// What listens at a port of loopback, and at which one, where that is any free one.
fn bind<N: Network>(network: &N, port: u16) -> Result<(TcpListener, u16), CommandFault>
    ensures at { IfOk result (λ bound. IsAt N.binds port network.now bound.0) }
    ensures told { IfOk result (λ bound. IsTellingPort N.tells network.now bound.0 bound.1) }
    ensures fault { IfErr result (IsUnbound N.binds N.tells port network.now) }
{
    let listener = match network.listen(loopback(port)) {
        Ok(listener) => listener,
        Err(_) => return Err(CommandFault::Bind),
    };
    match network.address_of(&listener) {
        Ok(bound) => Ok((listener, bound.port())),
        Err(_) => Err(CommandFault::Bind),
    }
}

// Says at which port it listens, and serves the exchanges.
fn serve_bound<N: Network, H: Handler, O: Write>(
    network: &N,
    office: &mut H,
    alloc: Global,
    words: &ServeWords<'_>,
    output: &mut Counted<O>,
) -> Result<(), CommandFault>
    ensures { IsServing N.shows N.binds N.tells O.contents H.meaning words.now
        office.old office.new output.old output.new result }
{
    let server = match Server::new(network, alloc, longest()) {
        Ok(server) => server,
        Err(refused) => return Err(CommandFault::NoMemory(refused.into())),
    };
    let (listener, port) = bind(network, words.port)?;
    let line = match listening_line(alloc, port) {
        Ok(line) => line,
        Err(refused) => return Err(CommandFault::NoMemory(refused.into())),
    };
    print(output, line.as_str())?;
    let exchanges = words.requests.exchanges();
    match server.serve_all(office, &listener, exchanges, output) {
        Ok(()) => Ok(()),
        Err(WriteFailed) => Err(CommandFault::Write),
    }
}

// Exchanges over a network, as words ask for them.
#[derive(Drop)]
struct Exchanges<'w, N> {
    network: &'w N,
    words: &'w ServeWords<'w>,
}

// `PassClock` and `PassNet` are above `Network`, and named since a ghost member sees its own bounds
// alone.
impl<N: Network + PassClock + PassNet, O: Write> Serves<(), Counted<O>, ()> for Exchanges<'_, N> {
    ghost can_serve = { λ _ _. ⊤ };

    ghost comes = { λ old new came left output wrote errors noted X m ended before after.
        IsServing N.shows N.binds N.tells O.contents m old.words.now before after output wrote
        ended };

    ghost notes = { λ errors noted. ⊤ };

    fn serve<H: Handler>(
        &mut self,
        office: &mut H,
        alloc: Global,
        _input: &mut (),
        output: &mut Counted<O>,
        _errors: &mut (),
    ) -> Result<(), CommandFault> {
        serve_bound(self.network, office, alloc, self.words, output)
    }
}

/// Serves exchanges with the office at a path, by [`serve_named`]. The port is bound last, so that
/// nothing is heard where there is no office.
pub fn serve_http<H: Host, O: Write>(
    host: &Outside<'_, H>,
    alloc: Global,
    words: &ServeWords<'_>,
    output: &mut Counted<O>,
) -> Result<(), CommandFault>
    ensures { IsServedOver (known host.now) O.contents output.old output.new words.now result }
{
    let mut exchanges = Exchanges {
        network: host.network,
        words,
    };
    serve_named(
        host,
        alloc,
        words.database,
        words.journal,
        &mut exchanges,
        &mut (),
        output,
        &mut (),
    )
}
