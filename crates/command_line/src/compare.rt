//! The command `compare`.

ghost use Rattle.std.specs.Prelude.{◌≡◌, IfOk, IfSome, IfNone, codes};
ghost use Rattle.command_line.specs.Commands.{compare_app};
ghost use Rattle.command_line.specs.Meaning.{AsksFor, values_of};
ghost use Rattle.command_line.specs.Parts.{AddsCommand};
ghost use Rattle.command_line.specs.Refusals.{NoneAskedFor};

use crate::command::Command;
use crate::parts::{Form, Parameter, add_command};
use clap::ArgMatches;
use std::alloc::{AllocError, Global};

const ABOUT: &str = "Prints what a document permits more than another";

const EXAMPLES: &str =
    "Each line is a finding, in the words of a review sheet: something that the document in NEW permits, or
may permit, and that in BASE doesn't. BASE is read first.

Statuses: 0, NEW permits nothing more, and nothing is printed; 1, it prints the findings; 2, the command
was refused or failed, which standard error says as `office: WORDS`.

Example:
  office compare examples/closed.json examples/web.json";

/// Adds `compare BASE NEW`.
pub(crate) fn add_compare<'a>(
    alloc: Global,
    commands: &mut Vec<clap::Command<'a>>,
) -> Result<(), AllocError>
    ensures { IfOk result (λ _. AddsCommand compare_app commands.old.items commands.new.items) }
{
    let parameters = [
        Parameter {
            id: "base",
            form: Form::Needed("BASE"),
            help: "The document to compare with, or - for standard input",
        },
        Parameter {
            id: "new",
            form: Form::Needed("NEW"),
            help: "The document that may permit more, or - for standard input",
        },
    ];
    add_command(alloc, commands, "compare", ABOUT, EXAMPLES, &parameters)
}

/// What `compare` asks for with these values; none without BASE and NEW.
pub(crate) fn compare_of<'w>(given: &ArgMatches<'w>) -> Option<Command<'w>>
    ensures command { IfSome result (AsksFor (codes "compare") (values_of given.now)) }
    ensures lacking { IfNone result (NoneAskedFor (codes "compare") (values_of given.now)) }
{
    let base = given.get_str("base")?;
    let new = given.get_str("new")?;
    Some(Command::Compare { base, new })
}
