//! Where an office differs from the one of its journal.

use crate::table::Table;
use office_words::{ProfileName, Word};
use std::fmt;

/// Where an office differs from the one of its journal: its schema, or a row, by its table and its
/// key, which one of the two has and the other hasn't, or has otherwise; or its mark. Its text is the
/// table and the key, or one word.
#[derive(Drop)]
pub enum Difference {
    /// The tables and indexes aren't those of an office.
    Schema,
    /// The row of the office.
    Office,
    /// A user.
    User(Word),
    /// A revision.
    Revision {
        name: ProfileName,
        number: u32,
    },
    /// A vote.
    Vote {
        name: ProfileName,
        number: u32,
        voter: Word,
    },
    /// The baseline of a team.
    Baseline(Word),
    /// A profile that is held.
    Hold(ProfileName),
    /// A row of a table whose key no office has, or rowids that don't rise.
    Row(Table),
    /// The mark of the tables: it is above the number of the lines of the journal.
    Line,
}

impl fmt::Display for Difference {
    ghost use Rattle.std.specs.Prelude.{Some};
    ghost use Rattle.journal_faults.specs.DifferenceTexts.{difference_text};

    ghost output = { λ difference. Some (difference_text difference) };

    fn fmt<W: fmt::Write>(&self, f: &mut fmt::Formatter<W>) -> fmt::Result {
        match self {
            Difference::Schema => f.write_str("schema"),
            Difference::Office => f.write_str("office"),
            Difference::User(name) => write!(f, "users {}", name.as_str()),
            Difference::Revision { name, number } => {
                let team = name.team.as_str();
                let profile = name.profile.as_str();
                write!(f, "revisions {team}/{profile} {number}")
            }
            Difference::Vote {
                name,
                number,
                voter,
            } => {
                let team = name.team.as_str();
                let profile = name.profile.as_str();
                let voter = voter.as_str();
                write!(f, "votes {team}/{profile} {number} {voter}")
            }
            Difference::Baseline(team) => write!(f, "baselines {}", team.as_str()),
            Difference::Hold(name) => {
                let team = name.team.as_str();
                let profile = name.profile.as_str();
                write!(f, "holds {team}/{profile}")
            }
            Difference::Row(table) => f.write_str(table.name()),
            Difference::Line => f.write_str("line"),
        }
    }
}
