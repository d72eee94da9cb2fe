//! The command `desk`.

ghost use Rattle.std.specs.Prelude.{◌≡◌, IfOk, IfSome, IfNone, codes};
ghost use Rattle.command_line.specs.Commands.{desk_app};
ghost use Rattle.command_line.specs.Meaning.{AsksFor, values_of};
ghost use Rattle.command_line.specs.Parts.{AddsCommand};
ghost use Rattle.command_line.specs.Refusals.{NoneAskedFor};

use crate::command::Command;
use crate::journal::journal_of;
use crate::parts::{Form, Parameter, add_command};
use clap::ArgMatches;
use std::alloc::{AllocError, Global};

const ABOUT: &str = "Answers request lines with the office in a file";

const EXAMPLES: &str =
    "It reads request lines from standard input, and answers each with one line on standard output. What a
line changes is in DB before its answer is written. With `--journal`, what happens is written to FILE first,
which `init --journal` began. An office that has a journal goes on without it only with
`--without-journal`: what happens then isn't in the journal, and the two go on together no more.

Statuses: 0, all lines were answered; 1, it was refused or failed, which standard error says as
`office: WORDS`.

Examples:
  office desk team.db --journal team.journal < requests.jsonl
  office desk team.db < requests.jsonl";

/// Adds `desk DB [--journal FILE | --without-journal]`.
pub(crate) fn add_desk<'a>(
    alloc: Global,
    commands: &mut Vec<clap::Command<'a>>,
) -> Result<(), AllocError>
    ensures { IfOk result (λ _. AddsCommand desk_app commands.old.items commands.new.items) }
{
    let parameters = [
        Parameter {
            id: "database",
            form: Form::Needed("DB"),
            help: "The file of the office",
        },
        Parameter {
            id: "journal",
            form: Form::Valued("FILE"),
            help: "The journal of the office, which goes on",
        },
        Parameter {
            id: "without-journal",
            form: Form::Flag,
            help: "Goes on without the journal that the office has, which then tells it no more",
        },
    ];
    add_command(alloc, commands, "desk", ABOUT, EXAMPLES, &parameters)
}

/// What `desk` asks for with these values; none without DB, or with both `--journal` and
/// `--without-journal`.
pub(crate) fn desk_of<'w>(given: &ArgMatches<'w>) -> Option<Command<'w>>
    ensures command { IfSome result (AsksFor (codes "desk") (values_of given.now)) }
    ensures lacking { IfNone result (NoneAskedFor (codes "desk") (values_of given.now)) }
{
    let database = given.get_str("database")?;
    let journal = journal_of(given)?;
    Some(Command::Desk { database, journal })
}
