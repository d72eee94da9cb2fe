//! What a program gets from outside, as one.

ghost use Rattle.command_host.specs.Known.{AreKnown};

use crate::databases::Databases;
use crate::files::PassFiles;
use crate::journals::Journals;
use crate::network::Network;
use sqlite::{Alter, Connection};
use std::marker::PhantomData;

/// What a program gets from outside: of which types it is.
pub trait Host {
    /// What a database keeps its tables in.
    type Tables: Alter + Drop;

    /// Databases at paths.
    type Databases: Databases<Database = Connection<Self::Tables>>;

    /// Files at paths.
    type Files: PassFiles;

    /// The files of journals at paths.
    type Journals: Journals;

    /// Sockets and a clock.
    type Network: Network;
}

/// All that a program gets from outside. Its type has what is known of each of them, so that a
/// definition which says what was done with it takes this value alone.
#[derive(Drop)]
pub struct Outside<'h, H: Host> {
    /// Databases at paths.
    pub databases: &'h H::Databases,
    /// Files at paths.
    pub files: &'h H::Files,
    /// The files of journals at paths.
    pub journals: &'h H::Journals,
    /// Sockets and a clock.
    pub network: &'h H::Network,
    ghost known: { AreKnown H.Tables.Store H.Databases.Databases H.Files.opens H.Files.File.remaining
        H.Journals.Journals H.Journals.File.Disk H.Network.binds H.Network.tells H.Network.shows },
}

/// A host of these types.
#[derive(Drop)]
pub struct HostOf<
    S: Alter + Drop,
    D: Databases<Database = Connection<S>>,
    F: PassFiles,
    J: Journals,
    N: Network,
> {
    types: PhantomData<(S, D, F, J, N)>,
}

impl<
    S: Alter + Drop,
    D: Databases<Database = Connection<S>>,
    F: PassFiles,
    J: Journals,
    N: Network,
> Host for HostOf<S, D, F, J, N> {
    type Tables = S;

    type Databases = D;

    type Files = F;

    type Journals = J;

    type Network = N;
}
