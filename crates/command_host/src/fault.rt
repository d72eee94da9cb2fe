//! Why a command is refused or failed.

ghost use Rattle.std.specs.Prelude.{◌≡◌};
ghost use Rattle.command_host.specs.FaultTexts.{execution_fault_word};

use crate::founding_fault::FoundingWordsFault;
use crate::noted::NoneFailed;
use desk_lines::DeskFault;
use journal_faults::{NoEvidence, NotReopened, Refused, Unverified, Unwritten};
use no_memory::NoMemory;
use office_founding::{FoundingFault, MigrationFault, OpeningFault};
use office_words::Fault;
use profile_commands::{ComparedFault, ExecutionFault, FileFault};
use std::fmt;

/// Why a command is refused or failed, with the words that the program says on standard error.
#[derive(Drop)]
pub enum CommandFault {
    /// The words of `execve` describe no execution.
    Execution(ExecutionFault),
    /// A file can't be opened.
    Open,
    /// The document in a file gave nothing.
    File(FileFault),
    /// Two documents weren't compared.
    Compared(ComparedFault),
    /// The words of `init` describe no founding.
    FoundingWords(FoundingWordsFault),
    /// No office was founded.
    Founding(FoundingFault),
    /// An office wasn't migrated.
    Migration(MigrationFault),
    /// What stands at a path can't be opened.
    Store(Fault),
    /// What was opened at a path is no office of this schema.
    Opening(OpeningFault),
    /// An office can't be closed.
    Close,
    /// Something is where a journal is to be begun.
    JournalThere,
    /// Another command has a database or a journal open.
    Busy,
    /// A journal can't be begun, or can't be opened.
    Journal,
    /// An office has a journal, and none was named.
    JournalUnnamed,
    /// An office has no journal by its mark, or went on without, and one was named.
    JournalParted,
    /// An office isn't opened again with its journal.
    Reopening(NotReopened),
    /// A journal is the file of its database, or one of the two is what is made beside the other.
    SameFile,
    /// An office isn't the one of its journal.
    Unverified(Unverified),
    /// A journal isn't built on, at a line.
    Unbuilt(Refused),
    /// A file is longer than what is read of one.
    TooLarge,
    /// A journal wants more lines or calls of read than can be counted, none of which failed.
    Endless(NoneFailed),
    /// The history of a journal wasn't written to its end.
    Unwritten(Unwritten),
    /// A journal has no evidence of the issue of a revision.
    NoEvidence(NoEvidence),
    /// The name of a team or of a profile is none.
    NotAWord,
    /// The desk stopped.
    Desk(DeskFault),
    /// Nothing listens at the port.
    Bind,
    /// Standard output can't be written.
    Write,
    /// Memory was refused.
    NoMemory(NoMemory),
}

// The word of why words describe no execution.
fn execution_word(fault: ExecutionFault) -> &'static str
    ensures { result.now ≡ execution_fault_word fault }
{
    match fault {
        ExecutionFault::RootTakesNoFile => "root-takes-no-file",
        ExecutionFault::UnknownCapability => "unknown-capability",
    }
}

impl fmt::Display for CommandFault {
    ghost use Rattle.std.specs.Prelude.{Some};
    ghost use Rattle.command_host.specs.FaultTexts.{command_fault_text};

    ghost output = { λ fault. Some (command_fault_text fault) };

    fn fmt<W: fmt::Write>(&self, f: &mut fmt::Formatter<W>) -> fmt::Result {
        match self {
            CommandFault::Execution(fault) => f.write_str(execution_word(*fault)),
            CommandFault::File(fault) => write!(f, "{fault}"),
            CommandFault::Compared(fault) => write!(f, "{fault}"),
            CommandFault::FoundingWords(fault) => write!(f, "{fault}"),
            CommandFault::Founding(fault) => write!(f, "{fault}"),
            CommandFault::Migration(fault) => write!(f, "{fault}"),
            CommandFault::Store(fault) => write!(f, "{fault}"),
            CommandFault::Opening(fault) => write!(f, "{fault}"),
            CommandFault::Unverified(Unverified::Refused(refused)) => write!(f, "{refused}"),
            CommandFault::Unverified(Unverified::Differs(row)) => write!(f, "differs: {row}"),
            CommandFault::Unverified(Unverified::OtherSeal) => f.write_str("other-seal"),
            CommandFault::Unverified(Unverified::Fault(fault)) => write!(f, "{fault}"),
            CommandFault::Reopening(why) => write!(f, "{why}"),
            CommandFault::Unbuilt(refused) => write!(f, "{refused}"),
            CommandFault::Unwritten(why) => write!(f, "{why}"),
            CommandFault::NoEvidence(why) => write!(f, "{why}"),
            CommandFault::NotAWord => f.write_str("bad-word"),
            CommandFault::Desk(fault) => write!(f, "{fault}"),
            CommandFault::Open => f.write_str("read"),
            CommandFault::Close => f.write_str("disk"),
            CommandFault::JournalThere => f.write_str("journal-there"),
            CommandFault::Journal | CommandFault::JournalUnnamed | CommandFault::JournalParted =>
                f.write_str("journal"),
            CommandFault::Busy => f.write_str("busy"),
            CommandFault::SameFile => f.write_str("same-file"),
            CommandFault::TooLarge => f.write_str("too-large"),
            CommandFault::Endless(_) => f.write_str("too-many-reads"),
            CommandFault::Bind => f.write_str("bind"),
            CommandFault::Write => f.write_str("write"),
            CommandFault::NoMemory(_) => f.write_str("memory"),
        }
    }
}

impl From<ExecutionFault> for CommandFault {
    ghost use Rattle.std.specs.Prelude.{◌≡◌};
    ghost use Rattle.command_host.specs.declared.fault.CommandFault.TheVariants.{Execution};

    ghost from_gives = { λ why fault. fault ≡ Execution why };

    fn from(why: ExecutionFault) -> CommandFault {
        CommandFault::Execution(why)
    }
}

impl From<FileFault> for CommandFault {
    ghost use Rattle.std.specs.Prelude.{◌≡◌};
    ghost use Rattle.command_host.specs.declared.fault.CommandFault.TheVariants.{File};

    ghost from_gives = { λ why fault. fault ≡ File why };

    fn from(why: FileFault) -> CommandFault {
        CommandFault::File(why)
    }
}

impl From<ComparedFault> for CommandFault {
    ghost use Rattle.std.specs.Prelude.{◌≡◌};
    ghost use Rattle.command_host.specs.declared.fault.CommandFault.TheVariants.{Compared};

    ghost from_gives = { λ why fault. fault ≡ Compared why };

    fn from(why: ComparedFault) -> CommandFault {
        CommandFault::Compared(why)
    }
}
