//! The commands over the host: its files, its databases, its journals and its network.

ghost use Rattle.office_commands.specs.Apart.{HasCarriedOut};
ghost use Rattle.office_commands.specs.Hosts.{known_here, known_of, unknown};
ghost use Rattle.sqlite.specs.Files.{over_files};
ghost use Rattle.streams.specs.CallsLeft.{HasCallsLeft, HasFaultsLeft};

use crate::ended::Ended;
use crate::run::run_words;
use command_host::{
    Databases, HostFiles, HostJournals, HostName, HostOf, Journals, Network, Outside, PassFiles,
    UnknownFiles,
};
use database_files::NamedDisk;
use sqlite::{Alter, Connection, FileFrom, FileStore, Start};
use sqlite_disk::Disk;
use std::alloc::Global;
use std::io::{Read, Write};
use std::marker::PhantomData;
use streams::Counted;

/// What a host is made of, as one value. Its types are parameters, since the borrow checker covers no
/// host of types with parameters of their own.
#[derive(Drop)]
pub struct Parts<'h, S, D, F, J, N> {
    /// Databases at paths.
    pub databases: &'h D,
    /// Files at paths.
    pub files: &'h F,
    /// The files of journals at paths.
    pub journals: &'h J,
    /// Sockets and a clock.
    pub network: &'h N,
    /// What a database keeps its tables in.
    pub tables: PhantomData<S>,
}

impl<
    'h,
    S: Alter + Drop + 'h,
    D: Databases<Database = Connection<S>>,
    F: PassFiles,
    J: Journals,
    N: Network,
> Parts<'h, S, D, F, J, N> {
    /// [`run_words`] over these.
    pub fn run_over<I: Read, O: Write, E: Write>(
        self,
        alloc: Global,
        words: &[String],
        input: &mut Counted<I>,
        output: &mut Counted<O>,
        errors: &mut Counted<E>,
    ) -> Ended
        requires reads { HasCallsLeft input.old }
        requires writes { HasFaultsLeft output.old }
        ensures { HasCarriedOut
            (known_of S.Store D.Databases F.PassFiles F.File.remaining self.entry.files.now
            J.Journals J.File.Disk self.entry.journals.now N.PassNet N.PassClock)
            O.contents (I.remaining input.old.inner) (I.remaining input.new.inner)
            output.old output.new E.contents errors.old errors.new words.entry.now result }
    {
        let host: Outside<'h, HostOf<S, D, F, J, N>> = Outside {
            databases: self.databases,
            files: self.files,
            journals: self.journals,
            network: self.network,
        };
        run_words(&host, alloc, words, input, output, errors)
    }
}

// [`Parts::run_over`], where databases are in files of any kind. It stands between, since the kit compares
// all that a store in files of one kind is made of, where these are named at once.
fn run_over_files<
    'h,
    K: Disk + Drop + 'h,
    D: Databases<Database = Connection<FileStore<K>>>,
    F: PassFiles,
    J: Journals,
    N: Network,
    I: Read,
    O: Write,
    E: Write,
>(
    parts: Parts<'h, FileStore<K>, D, F, J, N>,
    alloc: Global,
    words: &[String],
    input: &mut Counted<I>,
    output: &mut Counted<O>,
    errors: &mut Counted<E>,
) -> Ended
    requires reads { HasCallsLeft input.old }
    requires writes { HasFaultsLeft output.old }
    ensures { HasCarriedOut
        (known_of over_files D.Databases F.PassFiles F.File.remaining parts.entry.files.now
        J.Journals J.File.Disk parts.entry.journals.now N.PassNet N.PassClock)
        O.contents (I.remaining input.old.inner) (I.remaining input.new.inner)
        output.old output.new E.contents errors.old errors.new words.entry.now result }
{
    parts.run_over(alloc, words, input, output, errors)
}

// What files hold as they are opened: those of databases, and those of journals.
#[derive(Drop)]
struct Starts<T: Start + Copy, U: Start + Copy> {
    databases: T,
    journals: U,
}

impl<T: Start + Copy, U: Start + Copy> Starts<T, U> {
    // Words are carried out over these files, and over the databases, the journals and the network of
    // the host, whatever the files of databases and those of journals hold as they are opened.
    fn run_with<F: PassFiles, I: Read, O: Write, E: Write>(
        self,
        rt: &HostRuntime,
        files: &F,
        words: &[String],
        input: &mut Counted<I>,
        output: &mut Counted<O>,
        errors: &mut Counted<E>,
    ) -> Ended
        requires reads { HasCallsLeft input.old }
        requires writes { HasFaultsLeft output.old }
        ensures { HasCarriedOut
            (known_here T.Start U.Start ⟦<NamedDisk<FileFrom<T>, HostName> as Disk>⟧
            ⟦<NamedDisk<FileFrom<U>, HostName> as Disk>⟧
            F.PassFiles F.File.remaining files.now rt.now)
            O.contents (I.remaining input.old.inner) (I.remaining input.new.inner)
            output.old output.new E.contents errors.old errors.new words.entry.now result }
    {
        let databases = HostFiles::new(rt, self.databases);
        let journals = HostJournals::new(rt, self.journals);
        let parts = Parts {
            databases: &databases,
            files,
            journals: &journals,
            network: rt,
            tables: PhantomData,
        };
        run_over_files(parts, rt.alloc(), words, input, output, errors)
    }
}

/// [`run_words`] over these files, and over the databases, the journals and the network of the host. Of
/// what the files of databases and of journals hold nothing is known.
pub fn run_here<F: PassFiles, I: Read, O: Write, E: Write>(
    rt: &HostRuntime,
    files: &F,
    words: &[String],
    input: &mut Counted<I>,
    output: &mut Counted<O>,
    errors: &mut Counted<E>,
) -> Ended
    requires reads { HasCallsLeft input.old }
    requires writes { HasFaultsLeft output.old }
    ensures { HasCarriedOut
        (known_here unknown unknown ⟦<NamedDisk<FileFrom<UnknownFiles>, HostName> as Disk>⟧
        ⟦<NamedDisk<FileFrom<UnknownFiles>, HostName> as Disk>⟧
        F.PassFiles F.File.remaining files.now rt.now)
        O.contents (I.remaining input.old.inner) (I.remaining input.new.inner)
        output.old output.new E.contents errors.old errors.new words.entry.now result }
{
    let starts = Starts {
        databases: UnknownFiles,
        journals: UnknownFiles,
    };
    starts.run_with(rt, files, words, input, output, errors)
}
