//! The command `init`.

ghost use Rattle.std.specs.Prelude.{◌≡◌, [], IfOk, IfSome, IfNone, codes, map, unwrap_or};
ghost use Rattle.clap.specs.Words.{all_of};
ghost use Rattle.command_line.specs.Commands.{init_app};
ghost use Rattle.command_line.specs.Meaning.{AsksFor, values_of};
ghost use Rattle.command_line.specs.Parts.{AddsCommand};
ghost use Rattle.command_line.specs.Refusals.{NoneAskedFor};

use crate::command::{Command, InitWords};
use crate::parts::{Form, Parameter, add_command};
use clap::ArgMatches;
use std::alloc::{AllocError, Global};

const ABOUT: &str = "Founds an office in a file";

const EXAMPLES: &str =
    "The office has one user, NAME, who is a registrar of TEAM. DIGEST is the SHA-256 of that user's token,
in 64 lower-case hexadecimal digits. A document that holds a CAP needs two approvals, one of them by
security. With `--journal`, what happens in the office is written to FILE, a line an event, and its
founding is the first.

Statuses: 0, it prints `founded`; 1, it was refused or failed, which standard error says as
`office: WORDS`.

Examples:
  office init team.db root office $(printf abc | sha256sum | cut -c 1-64) --journal team.journal
  office init team.db root office $(printf abc | sha256sum | cut -c 1-64) CAP_SYS_ADMIN";

/// Adds `init DB NAME TEAM DIGEST [CAP]... [--journal FILE]`.
pub(crate) fn add_init<'a>(
    alloc: Global,
    commands: &mut Vec<clap::Command<'a>>,
) -> Result<(), AllocError>
    ensures { IfOk result (λ _. AddsCommand init_app commands.old.items commands.new.items) }
{
    let parameters = [
        Parameter {
            id: "database",
            form: Form::Needed("DB"),
            help: "The file of the new office",
        },
        Parameter {
            id: "name",
            form: Form::Needed("NAME"),
            help: "The first user",
        },
        Parameter {
            id: "team",
            form: Form::Needed("TEAM"),
            help: "The first user's team",
        },
        Parameter {
            id: "digest",
            form: Form::Needed("DIGEST"),
            help: "The SHA-256 of the first user's token",
        },
        Parameter {
            id: "capability",
            form: Form::Several("CAP"),
            help: "A listed capability, by its name",
        },
        Parameter {
            id: "journal",
            form: Form::Valued("FILE"),
            help: "The journal of the new office, which is begun",
        },
    ];
    add_command(alloc, commands, "init", ABOUT, EXAMPLES, &parameters)
}

// Each CAP, in order.
fn capabilities_of<'w>(alloc: Global, given: &ArgMatches<'w>) -> Result<Vec<&'w str>, AllocError>
    ensures { IfOk result (λ found. map (λ s. s.now) found.items
        ≡ unwrap_or (all_of (codes "capability") (values_of given.now)) []) }
{
    match given.get_strs("capability") {
        Some(found) => Vec::from_slice(alloc, found),
        None => Ok(Vec::new(alloc)),
    }
}

/// What `init` asks for with these values; none without DB, NAME, TEAM and DIGEST.
pub(crate) fn init_of<'w>(
    alloc: Global,
    given: &ArgMatches<'w>,
) -> Result<Option<Command<'w>>, AllocError>
    ensures command { IfOk result (λ asked.
        IfSome asked (AsksFor (codes "init") (values_of given.now))) }
    ensures lacking { IfOk result (λ asked.
        IfNone asked (NoneAskedFor (codes "init") (values_of given.now))) }
{
    let Some(database) = given.get_str("database") else {
        return Ok(None);
    };
    let Some(name) = given.get_str("name") else {
        return Ok(None);
    };
    let Some(team) = given.get_str("team") else {
        return Ok(None);
    };
    let Some(digest) = given.get_str("digest") else {
        return Ok(None);
    };
    let capabilities = capabilities_of(alloc, given)?;
    let journal = given.get_str("journal");
    Ok(Some(Command::Init(InitWords {
        database,
        name,
        team,
        digest,
        capabilities,
        journal,
    })))
}
