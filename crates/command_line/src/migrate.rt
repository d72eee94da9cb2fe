//! The command `migrate`.

ghost use Rattle.std.specs.Prelude.{◌≡◌, IfOk, IfSome, IfNone, None, codes};
ghost use Rattle.clap.specs.Words.{first_of};
ghost use Rattle.command_line.specs.Commands.{migrate_app};
ghost use Rattle.command_line.specs.Meaning.{AsksFor, values_of};
ghost use Rattle.command_line.specs.Parts.{AddsCommand};

use crate::command::Command;
use crate::journal::is_set;
use crate::parts::{Form, Parameter, add_command};
use clap::ArgMatches;
use std::alloc::{AllocError, Global};

const ABOUT: &str = "Makes an office of schema 1 in a file one of schema 2";

const EXAMPLES: &str =
    "Every user, revision, vote and baseline is kept. What ends it early leaves the office under schema 1 or
under schema 2, and it can be run again. Copy DB and its log before. An office that has a journal is migrated
only with `--without-journal`, and goes on without it then.

Statuses: 0, it is of schema 2 now; 1, it was refused or failed, which standard error says as
`office: WORDS`.

Example:
  office migrate team.db";

/// Adds `migrate DB [--without-journal]`.
pub(crate) fn add_migrate<'a>(
    alloc: Global,
    commands: &mut Vec<clap::Command<'a>>,
) -> Result<(), AllocError>
    ensures { IfOk result (λ _. AddsCommand migrate_app commands.old.items commands.new.items) }
{
    let parameters = [
        Parameter {
            id: "database",
            form: Form::Needed("DB"),
            help: "The file of the office",
        },
        Parameter {
            id: "without-journal",
            form: Form::Flag,
            help: "Goes on without the journal that the office has, which then tells it no more",
        },
    ];
    add_command(alloc, commands, "migrate", ABOUT, EXAMPLES, &parameters)
}

/// What `migrate` asks for with these values; none without DB.
pub(crate) fn migrate_of<'w>(given: &ArgMatches<'w>) -> Option<Command<'w>>
    ensures command { IfSome result (AsksFor (codes "migrate") (values_of given.now)) }
    ensures lacking { IfNone result (first_of (codes "database") (values_of given.now) ≡ None) }
{
    let database = given.get_str("database")?;
    let without_journal = is_set(given, "without-journal");
    Some(Command::Migrate {
        database,
        without_journal,
    })
}
