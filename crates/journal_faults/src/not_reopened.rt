//! Why an office and its journal aren't opened again.

use no_memory::NoMemory;
use office_words::Fault;
use sealed_log::{LogFault, Unreadable};
use std::alloc::AllocError;
use std::fmt;

/// Why an office and its journal aren't opened again. Its text is one word; where the file was changed,
/// `changed at` and the offset.
#[derive(Clone, Copy, Drop)]
pub enum NotReopened {
    /// No line of the journal is sealed.
    Unsealed,
    /// A line that is sealed is none of a journal, or can't stand behind those before it.
    NotALine,
    /// More stands behind what is sealed, which ends at this offset, than a line: no crash left that.
    Changed { at: usize },
    /// The journal has fewer lines than the mark of the tables; or these don't show the newest event
    /// that wrote to each of them, with or without the one on the last line: it is of another office,
    /// or of this one at another time.
    OtherJournal,
    /// The office met this fault when it was asked about events.
    Office(Fault),
    /// The file of the journal can't be read, cut, written or synced.
    Log,
    /// There was no memory to read a line.
    NoMemory(NoMemory),
}

impl fmt::Display for NotReopened {
    ghost use Rattle.std.specs.Prelude.{Some};
    ghost use Rattle.journal_faults.specs.FaultTexts.{not_reopened_text};

    ghost output = { λ why. Some (not_reopened_text why) };

    fn fmt<W: fmt::Write>(&self, f: &mut fmt::Formatter<W>) -> fmt::Result {
        match self {
            NotReopened::Unsealed => f.write_str("unsealed"),
            NotReopened::NotALine => f.write_str("not-a-journal"),
            NotReopened::Changed { at } => write!(f, "changed at {at}"),
            NotReopened::OtherJournal => f.write_str("other-journal"),
            NotReopened::Office(fault) => f.write_str(fault.word()),
            NotReopened::Log => f.write_str("journal"),
            NotReopened::NoMemory(_) => f.write_str("memory"),
        }
    }
}

impl From<LogFault> for NotReopened {
    ghost use Rattle.std.specs.Prelude.{◌≡◌};
    ghost use Rattle.journal_faults.specs.Faults.{log_fault};

    ghost from_gives = { λ fault e. e ≡ log_fault fault };

    fn from(fault: LogFault) -> NotReopened {
        match fault {
            LogFault::NoMemory(witness) => NotReopened::NoMemory(witness),
            LogFault::Disk | LogFault::Full => NotReopened::Log,
        }
    }
}

impl From<AllocError> for NotReopened {
    ghost use Rattle.std.specs.Prelude.{◌≡◌};
    ghost use Rattle.journal_faults.specs.declared.not_reopened.NotReopened.TheVariants.{NoMemory};
    ghost use Rattle.no_memory.specs.Witness.{witness};

    ghost from_gives = { λ _ e. e ≡ NoMemory witness };

    fn from(refused: AllocError) -> NotReopened {
        NotReopened::NoMemory(refused.into())
    }
}

impl From<Unreadable> for NotReopened {
    ghost use Rattle.std.specs.Prelude.{◌≡◌};
    ghost use Rattle.journal_faults.specs.Faults.{line_fault};

    ghost from_gives = { λ why e. e ≡ line_fault why };

    fn from(why: Unreadable) -> NotReopened {
        match why {
            Unreadable::NotALine
            | Unreadable::NoEventBefore
            | Unreadable::Unsealed
            | Unreadable::TornLine => NotReopened::NotALine,
            Unreadable::Read => NotReopened::Log,
            Unreadable::NoMemory(witness) => NotReopened::NoMemory(witness),
        }
    }
}

impl From<Fault> for NotReopened {
    ghost use Rattle.std.specs.Prelude.{◌≡◌};
    ghost use Rattle.journal_faults.specs.declared.not_reopened.NotReopened.TheVariants.{Office};

    ghost from_gives = { λ fault e. e ≡ Office fault };

    fn from(fault: Fault) -> NotReopened {
        NotReopened::Office(fault)
    }
}
