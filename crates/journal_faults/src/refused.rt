//! Why no office is built anew from a journal.

use office_founding::FoundingFault;
use review_office::Unreplayed;
use sealed_log::Unreadable;
use std::fmt;

/// Why no office is built anew from a journal. Its text is one word; where a rule refuses an event,
/// `rule` with its number and its word.
#[derive(Clone, Copy, Drop)]
pub enum Why {
    /// The journal can't be read on.
    Unread(Unreadable),
    /// The first event that stands is no founding, or none stands.
    NotFounded,
    /// No office is founded.
    Unfounded(FoundingFault),
    /// The event doesn't happen again.
    Unreplayed(Unreplayed),
}

impl fmt::Display for Why {
    ghost use Rattle.std.specs.Prelude.{Some};
    ghost use Rattle.journal_faults.specs.FaultTexts.{why_text};

    ghost output = { λ why. Some (why_text why) };

    fn fmt<W: fmt::Write>(&self, f: &mut fmt::Formatter<W>) -> fmt::Result {
        match self {
            Why::Unread(fault) => write!(f, "{fault}"),
            Why::NotFounded => f.write_str("not-founded"),
            Why::Unfounded(fault) => write!(f, "{fault}"),
            Why::Unreplayed(Unreplayed::Denied(denial)) => {
                let number = denial.number;
                let word = denial.rule.word();
                write!(f, "rule {number} {word}")
            }
            Why::Unreplayed(Unreplayed::Founding) => f.write_str("founding"),
            Why::Unreplayed(Unreplayed::OtherText) => f.write_str("other-text"),
            Why::Unreplayed(Unreplayed::Fault(fault)) => f.write_str(fault.word()),
        }
    }
}

/// Where and why no office is built anew from a journal.
#[derive(Clone, Copy, Drop)]
pub struct Refused {
    /// The number of the line, from 1, and the greatest u64 for any above; 0 where no event stands.
    pub line: u64,
    pub why: Why,
}

/// `line`, the number and a colon, where there is a line; and why.
impl fmt::Display for Refused {
    ghost use Rattle.std.specs.Prelude.{Some};
    ghost use Rattle.journal_faults.specs.FaultTexts.{refused_text};

    ghost output = { λ refused. Some (refused_text refused) };

    fn fmt<W: fmt::Write>(&self, f: &mut fmt::Formatter<W>) -> fmt::Result {
        let line = self.line;
        let why = self.why;
        if line == 0 {
            write!(f, "{why}")
        } else {
            write!(f, "line {line}: {why}")
        }
    }
}
