//! The command `execve`.

ghost use Rattle.std.specs.Prelude.{◌≡◌, IfOk, IfSome, IfNone, None, codes};
ghost use Rattle.clap.specs.Words.{first_of};
ghost use Rattle.command_line.specs.Commands.{execve_app};
ghost use Rattle.command_line.specs.Meaning.{AsksFor, values_of};
ghost use Rattle.command_line.specs.Parts.{AddsCommand};

use crate::command::{Command, ExecveWords};
use crate::parts::{Form, Parameter, add_command};
use clap::ArgMatches;
use std::alloc::{AllocError, Global};

const ABOUT: &str = "Prints what a process has after execve";

const EXAMPLES: &str =
    "The process has the five capability sets of the document. The file that it executes is plain, unless
an option gives it capabilities; a set that isn't given is then empty. The rules are those of
capabilities(7).

Statuses: 0, it prints the sets after execve; 1, it prints EPERM, since the kernel would refuse the call,
or the command was refused or failed, which standard error says as `office: WORDS`.

LIST is names of capabilities joined by commas, as CAP_NET_RAW,CAP_KILL.

Examples:
  office execve examples/web.json
  office execve examples/web.json --file-permitted CAP_NET_RAW --file-effective
  office execve examples/web.json --root";

/// Adds `execve FILE [--root] [--file-permitted LIST] [--file-inheritable LIST]
/// [--file-effective]`.
pub(crate) fn add_execve<'a>(
    alloc: Global,
    commands: &mut Vec<clap::Command<'a>>,
) -> Result<(), AllocError>
    ensures { IfOk result (λ _. AddsCommand execve_app commands.old.items commands.new.items) }
{
    let parameters = [
        Parameter {
            id: "file",
            form: Form::Needed("FILE"),
            help: "The document, or - for standard input",
        },
        Parameter {
            id: "root",
            form: Form::Flag,
            help: "The process has the user ids of root",
        },
        Parameter {
            id: "file-effective",
            form: Form::Flag,
            help: "The file's effective bit is set",
        },
        Parameter {
            id: "file-permitted",
            form: Form::Valued("LIST"),
            help: "The file's permitted capabilities",
        },
        Parameter {
            id: "file-inheritable",
            form: Form::Valued("LIST"),
            help: "The file's inheritable capabilities",
        },
    ];
    add_command(alloc, commands, "execve", ABOUT, EXAMPLES, &parameters)
}

/// What `execve` asks for with these values; none without FILE.
pub(crate) fn execve_of<'w>(given: &ArgMatches<'w>) -> Option<Command<'w>>
    ensures command { IfSome result (AsksFor (codes "execve") (values_of given.now)) }
    ensures lacking { IfNone result (first_of (codes "file") (values_of given.now) ≡ None) }
{
    let file = given.get_str("file")?;
    let root = given.get_flag("root");
    let file_permitted = given.get_str("file-permitted");
    let file_inheritable = given.get_str("file-inheritable");
    let file_effective = given.get_flag("file-effective");
    Some(Command::Execve(ExecveWords {
        file,
        root,
        file_permitted,
        file_inheritable,
        file_effective,
    }))
}
