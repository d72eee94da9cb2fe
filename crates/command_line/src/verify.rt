//! The command `verify`.

ghost use Rattle.std.specs.Prelude.{◌≡◌, IfOk, IfSome, IfNone, codes};
ghost use Rattle.clap.specs.Words.{first_of};
ghost use Rattle.command_line.specs.Commands.{verify_app};
ghost use Rattle.command_line.specs.Meaning.{AsksFor, IsSealGiven, values_of};
ghost use Rattle.command_line.specs.Parts.{AddsCommand};
ghost use Rattle.command_line.specs.Refusals.{NoSealGiven, NoneAskedFor};

use crate::command::{Command, KeptSeal, VerifyWords};
use crate::journal::is_set;
use crate::parts::{Form, Parameter, add_command};
use crate::seal::kept_seal;
use clap::ArgMatches;
use std::alloc::{AllocError, Global};

const ABOUT: &str = "Says whether an office in a file is the one that a journal tells";

const EXAMPLES: &str =
    "Each event of JOURNAL happens again in a new office in memory, where the policy allows it to the user
that its line names. Then the tables of DB are compared with those of that office.

Each line of a journal has a seal, which names all before it. With `--seal`, line N of JOURNAL must have
the seal HEX: that of the last line, as an earlier `verify` printed it, says that nothing up to there was
changed since.

An office that was founded with a journal is marked: `desk` and `serve` open it with that journal alone.
With `--mark`, an office of before, or one that was restored, is marked so, once the two agree.

Statuses: 0, it prints `verified N events, seal HEX`; 1, it was refused or failed, which standard error
says as `office: WORDS`: the first line that no lawful history has, with the rule that refuses it, or
the first row that differs, or `other-seal`.

Example:
  office verify team.db team.journal
  office verify team.db team.journal --seal 10:$(cat team.seal)";

/// Adds `verify DB JOURNAL [--seal N:HEX] [--mark]`.
pub(crate) fn add_verify<'a>(
    alloc: Global,
    commands: &mut Vec<clap::Command<'a>>,
) -> Result<(), AllocError>
    ensures { IfOk result (λ _. AddsCommand verify_app commands.old.items commands.new.items) }
{
    let parameters = [
        Parameter {
            id: "database",
            form: Form::Needed("DB"),
            help: "The file of the office",
        },
        Parameter {
            id: "journal",
            form: Form::Needed("JOURNAL"),
            help: "Its journal",
        },
        Parameter {
            id: "seal",
            form: Form::Valued("N:HEX"),
            help: "The seal that line N of the journal has",
        },
        Parameter {
            id: "mark",
            form: Form::Flag,
            help: "Marks the office as one of this journal, once both agree",
        },
    ];
    add_command(alloc, commands, "verify", ABOUT, EXAMPLES, &parameters)
}

// N:HEX, where it is given; none where what is given isn't of this form.
fn seal_of(given: &ArgMatches<'_>) -> Option<Option<KeptSeal>>
    ensures seal { IfSome result (λ seal.
        IsSealGiven (first_of (codes "seal") (values_of given.now)) seal) }
    ensures lacking { IfNone result (NoSealGiven (first_of (codes "seal") (values_of given.now))) }
{
    match given.get_str("seal") {
        Some(text) => match kept_seal(text) {
            Some(seal) => Some(Some(seal)),
            None => None,
        },
        None => Some(None),
    }
}

/// What `verify` asks for with these values; none without DB and JOURNAL, or where N:HEX is given
/// and isn't of its form.
pub(crate) fn verify_of<'w>(given: &ArgMatches<'w>) -> Option<Command<'w>>
    ensures command { IfSome result (AsksFor (codes "verify") (values_of given.now)) }
    ensures lacking { IfNone result (NoneAskedFor (codes "verify") (values_of given.now)) }
{
    let database = given.get_str("database")?;
    let journal = given.get_str("journal")?;
    let seal = seal_of(given)?;
    let mark = is_set(given, "mark");
    Some(Command::Verify(VerifyWords {
        database,
        journal,
        seal,
        mark,
    }))
}
