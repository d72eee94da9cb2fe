//! The network of the program.

ghost use Rattle.std.specs.Prelude.{Result, ⊤};
ghost use Rattle.std.specs.Net.Socket.{socket_ip};
ghost use Rattle.std.specs.declared.io.Error.{Error};
ghost use Rattle.std.specs.declared.net.socket_addr.SocketAddr.{SocketAddr};
ghost use Rattle.std.specs.declared.net.tcp.TcpListener.{TcpListener};
ghost use Rattle.command_host.specs.Networks.{IsLoopback};

use desk_http::PassClock;
use std::io;
use std::net::{Net, SocketAddr, TcpListener, TcpStream};

/// Sockets, as seen by who passes on what listens. Of `binds` and `tells` nothing is known but that
/// a call meets them, so that who promises them has bound just this address, and has asked where
/// just this listens.
pub trait PassNet: Net<Stream = TcpStream, Listener = TcpListener> {
    /// What came of binding an address.
    ghost binds: { Self → SocketAddr → Result TcpListener Error → Type 0 };

    /// Listens at an address, which is one of loopback, by [`TcpListener::bind`].
    fn listen(&self, address: SocketAddr) -> io::Result<TcpListener>
        requires { IsLoopback (socket_ip address) }
        ensures { binds self.now address result };

    /// What came of asking at which address something listens.
    ghost tells: { Self → TcpListener → Result SocketAddr Error → Type 0 };

    /// Where something listens, by [`TcpListener::local_addr`].
    fn address_of(&self, listener: &TcpListener) -> io::Result<SocketAddr>
        ensures { tells self.now listener.now result };
}

impl<N: Net<Stream = TcpStream, Listener = TcpListener>> PassNet for N {
    ghost binds = { λ _ _ _. ⊤ };

    fn listen(&self, address: SocketAddr) -> io::Result<TcpListener> {
        TcpListener::bind(self, address)
    }

    ghost tells = { λ _ _ _. ⊤ };

    fn address_of(&self, listener: &TcpListener) -> io::Result<SocketAddr> {
        listener.local_addr()
    }
}

/// What the program has of a network: sockets, and a clock for their deadlines.
pub trait Network: PassNet + PassClock {}

impl Network for HostRuntime {}
