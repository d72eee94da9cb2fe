//! The command `rebuild`.

ghost use Rattle.std.specs.Prelude.{◌≡◌, IfOk, IfSome, IfNone, codes};
ghost use Rattle.command_line.specs.Commands.{rebuild_app};
ghost use Rattle.command_line.specs.Meaning.{AsksFor, values_of};
ghost use Rattle.command_line.specs.Parts.{AddsCommand};
ghost use Rattle.command_line.specs.Refusals.{NoneAskedFor};

use crate::command::Command;
use crate::parts::{Form, Parameter, add_command};
use clap::ArgMatches;
use std::alloc::{AllocError, Global};

const ABOUT: &str = "Makes a new office in a file, of what a journal tells";

const EXAMPLES: &str =
    "Each event of JOURNAL happens again in a new office in DB, where the policy allows it to the user that
its line names. JOURNAL is read, and not changed. Where DB has something, that is left as it is.

Statuses: 0, it prints `rebuilt N events, seal HEX`, and DB is all of the journal; 1, it was refused or
failed, which standard error says as `office: WORDS`: the first line that no lawful history has, with the
rule that refuses it, or that can't be read. DB has what the lines before tell then. After `torn-line` that
is all that a crash leaves of the journal, and `desk` goes on with the two.

Example:
  office rebuild new.db team.journal";

/// Adds `rebuild DB JOURNAL`.
pub(crate) fn add_rebuild<'a>(
    alloc: Global,
    commands: &mut Vec<clap::Command<'a>>,
) -> Result<(), AllocError>
    ensures { IfOk result (λ _. AddsCommand rebuild_app commands.old.items commands.new.items) }
{
    let parameters = [
        Parameter {
            id: "database",
            form: Form::Needed("DB"),
            help: "The file of the new office",
        },
        Parameter {
            id: "journal",
            form: Form::Needed("JOURNAL"),
            help: "The journal of the office",
        },
    ];
    add_command(alloc, commands, "rebuild", ABOUT, EXAMPLES, &parameters)
}

/// What `rebuild` asks for with these values; none without DB and JOURNAL.
pub(crate) fn rebuild_of<'w>(given: &ArgMatches<'w>) -> Option<Command<'w>>
    ensures command { IfSome result (AsksFor (codes "rebuild") (values_of given.now)) }
    ensures lacking { IfNone result (NoneAskedFor (codes "rebuild") (values_of given.now)) }
{
    let database = given.get_str("database")?;
    let journal = given.get_str("journal")?;
    Some(Command::Rebuild { database, journal })
}
