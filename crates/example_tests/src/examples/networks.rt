//! Where nothing listens.

ghost use Rattle.std.specs.Prelude.{◌≡◌, ⊤};
ghost use Rattle.std.specs.Net.Socket.{socket_ip, socket_port};
ghost use Rattle.std.specs.declared.io.Error.{Error};
ghost use Rattle.std.specs.declared.net.tcp.TcpListener.{TcpListener};
ghost use Rattle.command_host.specs.Networks.{IsLoopback};
ghost use Rattle.command_host.specs.declared.fault.CommandFault.TheVariants as fault;
ghost use Rattle.changing_commands.specs.Serving.{IsUnbound};
ghost use Rattle.example_tests.specs.EdgeExamples.{listens_but, tells, untold};
ghost use Rattle.no_memory.specs.Witness.{witness};

/// Nothing listens at a port of loopback where a network couldn't listen there, or couldn't tell
/// where something does; not where it couldn't listen at another port or address. There may always
/// have been no memory.
pub fn examples_of_ports_that_are_not_bound()
    ensures bound_by_none { (e : Error) → IsUnbound (listens_but (λ address. ⊤)) tells 8000 1
        fault.Bind }
    ensures not_told { (e : Error) (listener : TcpListener) → IsUnbound (listens_but (λ address. ⊥))
        (untold e) 8000 1 fault.Bind }
    ensures memory { IsUnbound (listens_but (λ address. ⊥)) tells 8000 1 (fault.NoMemory witness) }
    ensures bound { IsUnbound (listens_but (λ address. ⊥)) tells 8000 1 fault.Bind → ⊥ }
    ensures other_port { IsUnbound (listens_but (λ address. socket_port address ≡ 80))
        tells 8000 1 fault.Bind → ⊥ }
    ensures other_address { IsUnbound (listens_but (λ address. IsLoopback (socket_ip address) → ⊥))
        tells 8000 1 fault.Bind → ⊥ }
    ensures other_fault { IsUnbound (listens_but (λ address. ⊤)) tells 8000 1 fault.Close → ⊥ }
{}
