//! The command `serve`.

ghost use Rattle.std.specs.Prelude.{◌≡◌, ℕ, IfOk, IfSome, IfNone, codes};
ghost use Rattle.command_line.specs.Commands.{serve_app};
ghost use Rattle.command_line.specs.Meaning.{AreRequests, AsksFor, IsNumberIn};
ghost use Rattle.command_line.specs.Meaning.{value_of, values_of};
ghost use Rattle.command_line.specs.Parts.{AddsCommand};
ghost use Rattle.command_line.specs.Refusals.{NoNumberIn, NoRequests, NoneAskedFor};

use crate::command::{Command, Requests, ServeWords};
use crate::journal::{is_set, journal_of};
use crate::parts::{Form, Parameter, add_command};
use clap::ArgMatches;
use std::alloc::{AllocError, Global};

// The most exchanges that `--requests` asks for.
const MOST_REQUESTS: u32 = 1_000_000;

const ABOUT: &str = "Answers HTTP requests with the office in a file";

const EXAMPLES: &str =
    "It listens on 127.0.0.1, serves N exchanges, and ends; or with `--until-stopped` it serves until a
signal ends it, as systemd does. Just one of the two has to be there. At port 0 the system picks a free
port.

It prints `listening 127.0.0.1:PORT` first, and then a line for each exchange: the status of its answer,
or `fault WORD` where it failed. With `--journal`, what happens is written to FILE first, which
`init --journal` began. An office that has a journal goes on without it only with `--without-journal`:
what happens then isn't in the journal, and the two go on together no more.

Statuses: 0, N exchanges are over; 1, it was refused or failed, which standard error says as
`office: WORDS`.

Examples:
  office serve team.db --journal team.journal --port 8080 --requests 1000
  office serve team.db --journal team.journal --port 8080 --until-stopped";

/// Adds `serve DB [--port P] (--requests N | --until-stopped) [--journal FILE |
/// --without-journal]`.
pub(crate) fn add_serve<'a>(
    alloc: Global,
    commands: &mut Vec<clap::Command<'a>>,
) -> Result<(), AllocError>
    ensures { IfOk result (λ _. AddsCommand serve_app commands.old.items commands.new.items) }
{
    let parameters = [
        Parameter {
            id: "database",
            form: Form::Needed("DB"),
            help: "The file of the office",
        },
        Parameter {
            id: "port",
            form: Form::NumberOr {
                shown: "P",
                low: 0,
                high: 65535,
                default: "0",
            },
            help: "The port, from 0 to 65535",
        },
        Parameter {
            id: "requests",
            form: Form::Number {
                shown: "N",
                low: 1,
                high: MOST_REQUESTS as u64,
            },
            help: "How many exchanges, from 1 to 1000000",
        },
        Parameter {
            id: "until-stopped",
            form: Form::Flag,
            help: "Exchanges without an end, in place of --requests",
        },
        Parameter {
            id: "journal",
            form: Form::Valued("FILE"),
            help: "The journal of the office, which goes on",
        },
        Parameter {
            id: "without-journal",
            form: Form::Flag,
            help: "Goes on without the journal that the office has, which then tells it no more",
        },
    ];
    add_command(alloc, commands, "serve", ABOUT, EXAMPLES, &parameters)
}

// P, or its default.
fn port_of(given: &ArgMatches<'_>) -> Option<u16>
    ensures number { IfSome result (λ n. IsNumberIn 0 65535 n (value_of (codes "port") given.now)) }
    ensures lacking { IfNone result (NoNumberIn 0 65535 (value_of (codes "port") given.now)) }
{
    given.get_one::<u16>("port")
}

// N. `clap` takes it within these limits only, and here the value itself is known to lie within
// them.
fn count_of(given: &ArgMatches<'_>) -> Option<u32>
    ensures number { IfSome result (λ n.
        IsNumberIn 1 1000000 n (value_of (codes "requests") given.now)) }
    ensures lacking { IfNone result (NoNumberIn 1 1000000 (value_of (codes "requests") given.now)) }
{
    let requests = given.get_one::<u32>("requests")?;
    if 1 <= requests && requests <= MOST_REQUESTS {
        Some(requests)
    } else {
        None
    }
}

// One of the two; none where there is neither, or both.
fn requests_of(given: &ArgMatches<'_>) -> Option<Requests>
    ensures asked { IfSome result (AreRequests (values_of given.now)) }
    ensures lacking { IfNone result (NoRequests (values_of given.now)) }
{
    if is_set(given, "until-stopped") {
        match given.get_str("requests") {
            Some(_) => None,
            None => Some(Requests::UntilStopped),
        }
    } else {
        match count_of(given) {
            Some(count) => Some(Requests::Count(count)),
            None => None,
        }
    }
}

/// What `serve` asks for with these values; none without DB, P, and just one of N and
/// `--until-stopped`, the numbers within their limits, or with both `--journal` and
/// `--without-journal`.
pub(crate) fn serve_of<'w>(given: &ArgMatches<'w>) -> Option<Command<'w>>
    ensures command { IfSome result (AsksFor (codes "serve") (values_of given.now)) }
    ensures lacking { IfNone result (NoneAskedFor (codes "serve") (values_of given.now)) }
{
    let database = given.get_str("database")?;
    let port = port_of(given)?;
    let requests = requests_of(given)?;
    let journal = journal_of(given)?;
    Some(Command::Serve(ServeWords {
        database,
        port,
        requests,
        journal,
    }))
}
