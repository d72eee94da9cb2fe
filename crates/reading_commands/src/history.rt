//! `history`: what a journal tells, a line an event.

ghost use Rattle.std.specs.Prelude.{◌≡◌, IfErr, IfOk};
ghost use Rattle.sqlite.specs.Held.{Held, state};
ghost use Rattle.office_store.specs.Shown.{IsIdle};
ghost use Rattle.review_office.specs.Meant.{meaning_over};
ghost use Rattle.journal_reports.specs.History.{IsUnwritten, IsWritten};
ghost use Rattle.reading_commands.specs.Reports.{HasNames, IsUntoldAt, NamesNone, WasToldAt};
ghost use Rattle.reading_commands.specs.Reports.{asked_of};

use crate::name::name_of;
use command_host::{CommandFault, PassFiles, text_at, told_of_text};
use command_line::HistoryWords;
use journal_faults::Unwritten;
use journal_reports::{Filter, write_history};
use memory_database::open_in_memory;
use office_words::Word;
use sqlite::{Alter, Connection};
use std::alloc::Global;
use std::io::{BufRead, Write};
use streams::Counted;

// The names that words give.
#[derive(Drop)]
struct Names {
    team: Option<Word>,
    profile: Option<Word>,
    user: Option<Word>,
}

// The names of a team, a profile and a user that words give; `NotAWord` where one is none.
fn names_of(alloc: Global, words: &HistoryWords<'_>) -> Result<Names, CommandFault>
    ensures names { IfOk result (HasNames words.now) }
    ensures none { IfErr result (NamesNone words.now) }
{
    let team = name_of(alloc, words.team)?;
    let profile = name_of(alloc, words.profile)?;
    let user = name_of(alloc, words.user)?;
    Ok(Names {
        team,
        profile,
        user,
    })
}

// Which events words ask for, by the names that they give.
fn filter_of<'n>(names: &'n Names, words: &HistoryWords<'_>) -> Filter<'n>
    requires { HasNames words.now names.now }
    ensures { result ≡ asked_of words.now }
{
    Filter {
        team: names.team.as_ref(),
        profile: names.profile.as_ref(),
        user: names.user.as_ref(),
        since: words.since,
        json: words.json,
    }
}

// Writes the history of a journal over a connection to an empty store, which is let go of.
fn write_over<S: Alter + Drop, R: BufRead + Drop, W: Write>(
    alloc: Global,
    conn: Connection<S>,
    journal: R,
    filter: &Filter<'_>,
    output: &mut Counted<W>,
) -> Result<(), Unwritten>
    requires { IsIdle (state S.Store conn) }
    ensures written { IfOk result (λ _. (left : Held S) × IsWritten (R.remaining journal) filter.now
        (W.contents output.old.inner) (W.contents output.new.inner) (meaning_over S.Store) left) }
    ensures unwritten { IfErr result (λ why. (left : Held S) × IsUnwritten (R.remaining journal)
        filter.now (W.contents output.old.inner) (W.contents output.new.inner)
        S.Store conn left why) }
{
    match write_history(alloc, conn, journal, filter, output) {
        Ok(_) => Ok(()),
        Err((why, _)) => Err(why),
    }
}

/// `history`: prints a line for each event of a journal that the words ask for, and gives the status.
///
/// # Errors
///
/// `NotAWord` where T, P or U is none, before the journal is opened; and why not each line was
/// written. The lines of the events before were.
pub fn run_history<F: PassFiles, O: Write>(
    files: &F,
    alloc: Global,
    words: &HistoryWords<'_>,
    output: &mut Counted<O>,
) -> Result<u8, CommandFault>
    ensures done { IfOk result (λ status. WasToldAt (F.opens files.now) F.gives F.File.remaining
        O.contents output.old output.new words.now × (status ≡ 0)) }
    ensures failed { IfErr result (IsUntoldAt (F.opens files.now) F.gives F.File.remaining O.contents
        output.old output.new words.now) }
{
    let names = names_of(alloc, words)?;
    let mut text = text_at(files, alloc, words.journal)?;
    let conn = match open_in_memory(alloc) {
        Ok(conn) => conn,
        Err(refused) => return Err(CommandFault::NoMemory(refused.into())),
    };
    let filter = filter_of(&names, words);
    match write_over(alloc, conn, &mut text, &filter, output) {
        Ok(()) => Ok(0),
        Err(why) => Err(told_of_text(&text, CommandFault::Unwritten(why))),
    }
}
