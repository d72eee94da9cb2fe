//! What words say of the journal of an office that goes on.

ghost use Rattle.std.specs.Prelude.{◌≡◌, IfSome, IfNone};
ghost use Rattle.clap.specs.Words.{first_of};
ghost use Rattle.command_line.specs.Meaning.{IsJournalGiven, is_set, values_of};
ghost use Rattle.command_line.specs.Refusals.{NoJournalGiven};

use crate::command::JournalWords;
use clap::ArgMatches;

/// Whether the flag of this name is set.
pub(crate) fn is_set(given: &ArgMatches<'_>, id: &str) -> bool
    ensures { result ≡ is_set (first_of id.now (values_of given.now)) }
{
    match given.get_str(id) {
        Some(set) => set == "true",
        None => false,
    }
}

/// FILE, or that there is none; none where both are said.
pub(crate) fn journal_of<'w>(given: &ArgMatches<'w>) -> Option<JournalWords<'w>>
    ensures said { IfSome result (IsJournalGiven (values_of given.now)) }
    ensures both { IfNone result (NoJournalGiven (values_of given.now)) }
{
    match (given.get_str("journal"), is_set(given, "without-journal")) {
        (Some(_), true) => None,
        (Some(file), false) => Some(JournalWords::Named(file)),
        (None, true) => Some(JournalWords::Without),
        (None, false) => Some(JournalWords::Unnamed),
    }
}
