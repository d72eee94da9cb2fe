//! A command whose journal and database are one file, or of which one is made beside the other.

ghost use Rattle.std.specs.Prelude.{◌≡◌, IfErr, OnOk, option_copied};
ghost use Rattle.office_commands.specs.SameFiles.{files_named, given_with, texts_of, IsApart};
ghost use Rattle.office_commands.specs.SameFiles.{IsUnapart};

use command_host::{CommandFault, Journals};
use command_line::Command;

// A journal and a database, where a journal is named.
fn given_with<'c>(journal: Option<&'c str>, database: &'c str) -> Option<(&'c str, &'c str)>
    ensures { texts_of result ≡ given_with (option_copied journal.entry) database.now }
{
    match journal {
        Some(journal) => Some((journal, database)),
        None => None,
    }
}

// The journal and the database that a command writes, where it names both.
fn files_named<'c>(command: &Command<'c>) -> Option<(&'c str, &'c str)>
    ensures { texts_of result ≡ files_named command.now }
{
    match command {
        Command::Init(words) => given_with(words.journal, words.database),
        Command::Desk { database, journal } => given_with(journal.file(), database),
        Command::Serve(words) => given_with(words.journal.file(), words.database),
        Command::Rebuild { database, journal } => Some((journal, database)),
        _ => None,
    }
}

/// Sees that the journal and the database of a command are apart, which is asked before any is opened.
///
/// # Errors
///
/// `SameFile` where they are one file, or one of them is made beside the other; and `NoMemory`.
pub(crate) fn see_apart<J: Journals>(
    journals: &J,
    command: &Command<'_>,
) -> Result<(), CommandFault>
    ensures apart { OnOk result (IsApart (J.compares journals.now) command.now) }
    ensures one { IfErr result (IsUnapart (J.compares journals.now) command.now) }
{
    let Some((journal, database)) = files_named(command) else {
        return Ok(());
    };
    match journals.is_one_file(journal, database) {
        Ok(false) => Ok(()),
        Ok(true) => Err(CommandFault::SameFile),
        Err(refused) => Err(CommandFault::NoMemory(refused.into())),
    }
}
