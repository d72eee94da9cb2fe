//! The command `evidence`.

ghost use Rattle.std.specs.Prelude.{◌≡◌, ℕ, IfOk, IfSome, IfNone, codes};
ghost use Rattle.command_line.specs.Commands.{evidence_app};
ghost use Rattle.command_line.specs.Meaning.{AsksFor, IsLineGiven, IsNumberIn, value_of, values_of};
ghost use Rattle.command_line.specs.Parts.{AddsCommand};
ghost use Rattle.command_line.specs.Refusals.{NoLineGiven, NoNumberIn, NoneAskedFor};

use crate::command::{Command, EvidenceWords};
use crate::line::line_number;
use crate::parts::{Form, Parameter, add_command};
use clap::ArgMatches;
use std::alloc::{AllocError, Global};

// The greatest number of a revision.
const LAST_REVISION: u32 = 9_999;

const ABOUT: &str = "Prints on what a revision was issued, or how its sheet stood before an event";

const EXAMPLES: &str =
    "It is the review sheet of the revision as it was just before its issue, by what JOURNAL tells up to
there; then who issued it, and the number of the journal's line.

With `--line` it is the sheet as it was just before the event of line L, as an adoption, a withdrawal or
a hold; then the line by which `history` tells that event: who did it, and what.

Statuses: 0, it prints the sheet; 1, it was refused or failed, which standard error says as
`office: WORDS`.

Examples:
  office evidence team.journal blue web 2
  office evidence team.journal blue web 2 --line 14";

/// Adds `evidence JOURNAL TEAM PROFILE N [--line L]`.
pub(crate) fn add_evidence<'a>(
    alloc: Global,
    commands: &mut Vec<clap::Command<'a>>,
) -> Result<(), AllocError>
    ensures { IfOk result (λ _. AddsCommand evidence_app commands.old.items commands.new.items) }
{
    let parameters = [
        Parameter {
            id: "journal",
            form: Form::Needed("JOURNAL"),
            help: "The journal of an office",
        },
        Parameter {
            id: "team",
            form: Form::Needed("TEAM"),
            help: "The team of the profile",
        },
        Parameter {
            id: "profile",
            form: Form::Needed("PROFILE"),
            help: "The name of the profile",
        },
        Parameter {
            id: "revision",
            form: Form::NeededNumber {
                shown: "N",
                low: 1,
                high: LAST_REVISION as u64,
            },
            help: "The number of the revision, from 1 to 9999",
        },
        Parameter {
            id: "line",
            form: Form::Number {
                shown: "L",
                low: 1,
                high: u64::MAX,
            },
            help: "The line of the event, in place of the issue",
        },
    ];
    add_command(alloc, commands, "evidence", ABOUT, EXAMPLES, &parameters)
}

// N. `clap` takes it within these limits only, and here the value itself is known to lie within
// them.
fn revision_of(given: &ArgMatches<'_>) -> Option<u32>
    ensures number { IfSome result (λ n.
        IsNumberIn 1 LAST_REVISION n (value_of (codes "revision") given.now)) }
    ensures lacking { IfNone result (NoNumberIn 1 LAST_REVISION
        (value_of (codes "revision") given.now)) }
{
    let revision = given.get_one::<u32>("revision")?;
    if 1 <= revision && revision <= LAST_REVISION {
        Some(revision)
    } else {
        None
    }
}

// L, where it is given; none where what is given is no number from 1.
fn line_of(given: &ArgMatches<'_>) -> Option<Option<u64>>
    ensures line { IfSome result (IsLineGiven (values_of given.now)) }
    ensures lacking { IfNone result (NoLineGiven (values_of given.now)) }
{
    match given.get_str("line") {
        Some(_) => match line_number(given, "line") {
            Some(line) => Some(Some(line)),
            None => None,
        },
        None => Some(None),
    }
}

/// What `evidence` asks for with these values; none without JOURNAL, TEAM, PROFILE and N, which is
/// within its limits, as L is where it is given.
pub(crate) fn evidence_of<'w>(given: &ArgMatches<'w>) -> Option<Command<'w>>
    ensures command { IfSome result (AsksFor (codes "evidence") (values_of given.now)) }
    ensures lacking { IfNone result (NoneAskedFor (codes "evidence") (values_of given.now)) }
{
    let journal = given.get_str("journal")?;
    let team = given.get_str("team")?;
    let profile = given.get_str("profile")?;
    let revision = revision_of(given)?;
    let line = line_of(given)?;
    Some(Command::Evidence(EvidenceWords {
        journal,
        team,
        profile,
        revision,
        line,
    }))
}
