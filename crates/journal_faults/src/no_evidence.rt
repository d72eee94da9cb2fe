//! Why a journal has no evidence of an event.

use crate::refused::Refused;
use no_memory::NoMemory;
use office_words::Fault;
use std::fmt;

/// Why there is no evidence. Its text is a word, behind the line where one is at fault.
#[derive(Clone, Copy, Drop)]
pub enum NoEvidence {
    /// Up to the event, and with it, the journal can't be read or its events don't happen again.
    Refused(Refused),
    /// The event is that of this line, and the office of the events before it had this fault when it
    /// was looked at.
    Unseen { line: u64, fault: Fault },
    /// No line was given, and in the whole journal the revision is never issued.
    NotIssued,
    /// In the whole journal no event stands on the line that was given.
    NoEvent,
    /// The revision isn't there before the event of the line.
    NoRevision,
    /// There was no memory for the text.
    NoMemory(NoMemory),
}

impl From<Refused> for NoEvidence {
    ghost use Rattle.std.specs.Prelude.{◌≡◌};
    ghost use Rattle.journal_faults.specs.declared.no_evidence.NoEvidence.TheVariants as evidence;

    ghost from_gives = { λ refused e. e ≡ evidence.Refused refused };

    fn from(refused: Refused) -> NoEvidence {
        NoEvidence::Refused(refused)
    }
}

impl fmt::Display for NoEvidence {
    ghost use Rattle.std.specs.Prelude.{Some};
    ghost use Rattle.journal_faults.specs.FaultTexts.{no_evidence_text};

    ghost output = { λ why. Some (no_evidence_text why) };

    fn fmt<W: fmt::Write>(&self, f: &mut fmt::Formatter<W>) -> fmt::Result {
        match self {
            NoEvidence::Refused(refused) => write!(f, "{refused}"),
            NoEvidence::Unseen { line, fault } => {
                let word = fault.word();
                write!(f, "line {line}: {word}")
            }
            NoEvidence::NotIssued => f.write_str("not-issued"),
            NoEvidence::NoEvent => f.write_str("no-event"),
            NoEvidence::NoRevision => f.write_str("no-revision"),
            NoEvidence::NoMemory(_) => f.write_str("memory"),
        }
    }
}
