//! The command `history`.

ghost use Rattle.std.specs.Prelude.{◌≡◌, IfOk, IfSome, IfNone, codes};
ghost use Rattle.command_line.specs.Commands.{history_app};
ghost use Rattle.command_line.specs.Meaning.{AsksFor, values_of};
ghost use Rattle.command_line.specs.Parts.{AddsCommand};
ghost use Rattle.command_line.specs.Refusals.{NoneAskedFor};

use crate::command::{Command, HistoryWords};
use crate::line::line_number;
use crate::parts::{Form, Parameter, add_command};
use clap::ArgMatches;
use std::alloc::{AllocError, Global};

const ABOUT: &str = "Prints what a journal tells, a line an event";

const EXAMPLES: &str =
    "Each line has the number of the journal's line, who did it, and what; or it says that the line's event
was struck out, or that it struck one out. T is the team that an event names, P the profile that it is
about, and U who did it. With `--json` a line is an object: `line` is the number, and digests are whole.

Statuses: 0, it prints the lines; 1, it was refused or failed, which standard error says as
`office: WORDS`. The lines before the one that it names are printed then.

Examples:
  office history team.journal
  office history team.journal --team blue --profile web
  office history team.journal --since 1001 --json";

/// Adds `history JOURNAL [--team T] [--profile P] [--user U] [--since N] [--json]`.
pub(crate) fn add_history<'a>(
    alloc: Global,
    commands: &mut Vec<clap::Command<'a>>,
) -> Result<(), AllocError>
    ensures { IfOk result (λ _. AddsCommand history_app commands.old.items commands.new.items) }
{
    let parameters = [
        Parameter {
            id: "journal",
            form: Form::Needed("JOURNAL"),
            help: "The journal of an office",
        },
        Parameter {
            id: "team",
            form: Form::Valued("T"),
            help: "Of this team alone",
        },
        Parameter {
            id: "profile",
            form: Form::Valued("P"),
            help: "Of profiles of this name alone",
        },
        Parameter {
            id: "user",
            form: Form::Valued("U"),
            help: "What this user did alone",
        },
        Parameter {
            id: "since",
            form: Form::NumberOr {
                shown: "N",
                low: 1,
                high: u64::MAX,
                default: "1",
            },
            help: "From this line on, from 1",
        },
        Parameter {
            id: "json",
            form: Form::Flag,
            help: "A line of JSON for each event",
        },
    ];
    add_command(alloc, commands, "history", ABOUT, EXAMPLES, &parameters)
}

/// What `history` asks for with these values; none without JOURNAL and N, which is within its
/// limits.
pub(crate) fn history_of<'w>(given: &ArgMatches<'w>) -> Option<Command<'w>>
    ensures command { IfSome result (AsksFor (codes "history") (values_of given.now)) }
    ensures lacking { IfNone result (NoneAskedFor (codes "history") (values_of given.now)) }
{
    let journal = given.get_str("journal")?;
    let team = given.get_str("team");
    let profile = given.get_str("profile");
    let user = given.get_str("user");
    let since = line_number(given, "since")?;
    let json = given.get_flag("json");
    Some(Command::History(HistoryWords {
        journal,
        team,
        profile,
        user,
        since,
        json,
    }))
}
