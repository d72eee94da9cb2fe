//! The reader of command lines.

ghost use Rattle.std.specs.Prelude.{◌≡◌, [], IfOk, IfErr, IfSome, IfNone};
ghost use Rattle.clap.specs.Words.{FailsBy, app_of, subcommand_rows_of};
ghost use Rattle.command_line.specs.Commands.{commands, faults_in, found_in, office_app};
ghost use Rattle.command_line.specs.Meaning.{AsksFor, IsCommand, values_of};
ghost use Rattle.command_line.specs.Parts.{AreCommands};
ghost use Rattle.command_line.specs.Refusals.{IsRefused, NoneAskedFor};
ghost use Rattle.command_line.specs.Words.{AskFor, AskForNone};

use crate::check::{add_check, check_of};
use crate::command::Command;
use crate::compare::{add_compare, compare_of};
use crate::desk::{add_desk, desk_of};
use crate::evidence::{add_evidence, evidence_of};
use crate::execve::{add_execve, execve_of};
use crate::fault::WordsFault;
use crate::history::{add_history, history_of};
use crate::init::{add_init, init_of};
use crate::journal::journal_of;
use crate::migrate::{add_migrate, migrate_of};
use crate::rebuild::{add_rebuild, rebuild_of};
use crate::serve::{add_serve, serve_of};
use crate::verify::{add_verify, verify_of};
use clap::ArgMatches;
use std::alloc::{AllocError, Global};

// The version of the program: that of the newest heading of CHANGELOG.md, which `tools/test`
// compares.
const VERSION: &str = "0.1.0";

const ABOUT: &str = "A review office for container sandbox profiles";

const EXAMPLES: &str =
    "Without a command it is the trial desk: it answers the request lines of standard input, one answer
to a line, with an office in memory.

Statuses: 0, it was done; 1, it was refused or failed, which standard error says as `office: WORDS`;
2, the words are no command line. `compare` has statuses of its own.

Examples:
  office check examples/web.json
  office execve examples/web.json --file-permitted CAP_NET_RAW --file-effective
  office init team.db root office $(printf abc | sha256sum | cut -c 1-64) --journal team.journal
  office desk team.db --journal team.journal < requests.jsonl
  office serve team.db --journal team.journal --port 8080 --requests 1000
  office < examples/first-path.jsonl";

// The commands, in the order of the help.
fn commands_of<'a>(alloc: Global) -> Result<Vec<clap::Command<'a>>, AllocError>
    ensures { IfOk result (λ made. AreCommands commands made.items) }
{
    let mut commands = Vec::new(alloc);
    add_check(alloc, &mut commands)?;
    add_execve(alloc, &mut commands)?;
    add_compare(alloc, &mut commands)?;
    add_init(alloc, &mut commands)?;
    add_desk(alloc, &mut commands)?;
    add_serve(alloc, &mut commands)?;
    add_migrate(alloc, &mut commands)?;
    add_verify(alloc, &mut commands)?;
    add_rebuild(alloc, &mut commands)?;
    add_history(alloc, &mut commands)?;
    add_evidence(alloc, &mut commands)?;
    Ok(commands)
}

// The program and its commands.
fn office_command<'a>(alloc: Global) -> Result<clap::Command<'a>, AllocError>
    ensures { IfOk result (λ c. app_of c ≡ office_app) }
{
    let commands = commands_of(alloc)?;
    let office = clap::Command::new(alloc, "office")
        .version(VERSION)
        .about(ABOUT)
        .after_help(EXAMPLES);
    office.subcommands(commands)?.bin_name("office")
}

// What `clap` makes of the words.
fn matches_of<'w>(alloc: Global, words: &'w [String]) -> Result<ArgMatches<'w>, clap::Error>
    ensures rows { IfOk result (λ m. subcommand_rows_of m ≡ found_in words.entry.now) }
    ensures kinds { FailsBy (faults_in words.entry.now) result }
{
    let command = office_command(alloc)?;
    command.try_get_matches_from(words)
}

// What the command of this name asks for with these values; none without what it needs.
fn command_of<'w>(
    alloc: Global,
    name: &str,
    given: &ArgMatches<'w>,
) -> Result<Option<Command<'w>>, AllocError>
    ensures command { IfOk result (λ asked.
        IfSome asked (AsksFor name.now (values_of given.now))) }
    ensures none { IfOk result (λ asked.
        IfNone asked (NoneAskedFor name.now (values_of given.now))) }
{
    match name {
        "check" => Ok(check_of(given)),
        "execve" => Ok(execve_of(given)),
        "compare" => Ok(compare_of(given)),
        "init" => init_of(alloc, given),
        "desk" => Ok(desk_of(given)),
        "serve" => Ok(serve_of(given)),
        "migrate" => Ok(migrate_of(given)),
        "verify" => Ok(verify_of(given)),
        "rebuild" => Ok(rebuild_of(given)),
        "history" => Ok(history_of(given)),
        "evidence" => Ok(evidence_of(given)),
        _ => Ok(None),
    }
}

// What is said of values that ask for no command. `clap` has seen to all but that N:HEX is of its
// form, that there is at most one of `--journal` and `--without-journal`, and just one of
// `--requests` and `--until-stopped`.
fn refusal_of(alloc: Global, given: &ArgMatches<'_>) -> Result<String, AllocError> {
    if let Some(text) = given.get_str("seal") {
        return format!(in alloc;
            "error: invalid value '{text}' for '--seal <N:HEX>'\n\nFor more information, try '--help'.\n"
        );
    }
    let what = match journal_of(given) {
        Some(_) => "just one of '--requests <N>' and '--until-stopped' has to be there",
        None => "the argument '--journal <FILE>' cannot be used with '--without-journal'",
    };
    format!(in alloc; "error: {what}\n\nFor more information, try '--help'.\n")
}

// What was found asks for; a refusal where it is no command.
fn asked_for<'w>(alloc: Global, matches: &ArgMatches<'w>) -> Result<Command<'w>, WordsFault>
    ensures command { IfOk result (IsCommand (subcommand_rows_of matches.now)) }
    ensures none { IfErr result (IsRefused [] (subcommand_rows_of matches.now)) }
{
    let Some((name, given)) = matches.subcommand() else {
        return Ok(Command::Trial);
    };
    match command_of(alloc, name, given)? {
        Some(command) => Ok(command),
        None => {
            let text = refusal_of(alloc, given)?;
            Err(WordsFault::Refused(text))
        }
    }
}

/// What the words of a command line ask for, the first of them being the program's name.
///
/// # Errors
///
/// Help, the version or a refusal, each where `clap` gives it. `NoMemory` may stand in place of any
/// answer: no contract can say that memory was refused.
pub fn read_words<'w>(alloc: Global, words: &'w [String]) -> Result<Command<'w>, WordsFault>
    ensures command { IfOk result (AskFor words.entry.now) }
    ensures refused { IfErr result (AskForNone words.entry.now) }
{
    match matches_of(alloc, words) {
        Ok(matches) => asked_for(alloc, &matches),
        Err(error) => Err(WordsFault::of_error(alloc, &error)),
    }
}
