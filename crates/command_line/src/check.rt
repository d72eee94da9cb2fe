//! The command `check`.

ghost use Rattle.std.specs.Prelude.{◌≡◌, IfOk, IfSome, IfNone, None, codes};
ghost use Rattle.clap.specs.Words.{first_of};
ghost use Rattle.command_line.specs.Commands.{check_app};
ghost use Rattle.command_line.specs.Meaning.{AsksFor, values_of};
ghost use Rattle.command_line.specs.Parts.{AddsCommand};

use crate::command::Command;
use crate::parts::{Form, Parameter, add_command};
use clap::ArgMatches;
use std::alloc::{AllocError, Global};

const ABOUT: &str = "Reads a document and prints its canonical text";

const EXAMPLES: &str =
    "The canonical text is the one that the office stores, hashes and shows: JSON without spaces, all
five capability sets, members in byte order.

Statuses: 0, it prints the canonical text; 1, what FILE has is no document, or the command failed, which
standard error says as `office: WORDS`.

Example:
  office check examples/web.json";

/// Adds `check FILE`.
pub(crate) fn add_check<'a>(
    alloc: Global,
    commands: &mut Vec<clap::Command<'a>>,
) -> Result<(), AllocError>
    ensures { IfOk result (λ _. AddsCommand check_app commands.old.items commands.new.items) }
{
    let parameters = [Parameter {
        id: "file",
        form: Form::Needed("FILE"),
        help: "The document, or - for standard input",
    }];
    add_command(alloc, commands, "check", ABOUT, EXAMPLES, &parameters)
}

/// What `check` asks for with these values; none without FILE.
pub(crate) fn check_of<'w>(given: &ArgMatches<'w>) -> Option<Command<'w>>
    ensures command { IfSome result (AsksFor (codes "check") (values_of given.now)) }
    ensures lacking { IfNone result (first_of (codes "file") (values_of given.now) ≡ None) }
{
    let file = given.get_str("file")?;
    Some(Command::Check { file })
}
