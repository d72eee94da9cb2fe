//! `evidence`: on what a revision was issued, or how its sheet stood before an event.

ghost use Rattle.std.specs.Prelude.{◌≡◌, IfErr, IfOk};
ghost use Rattle.sqlite.specs.Held.{Held, state};
ghost use Rattle.office_store.specs.Shown.{IsIdle};
ghost use Rattle.review_office.specs.Meant.{meaning_over};
ghost use Rattle.journal_reports.specs.Evidence.{IsEvidence, IsNoEvidence};
ghost use Rattle.reading_commands.specs.Reports.{FailsToProve, HasProved, IsEvidenceAt};
ghost use Rattle.reading_commands.specs.Reports.{IsNoEvidenceAt, IsNoProfile};
ghost use Rattle.reading_commands.specs.Reports.{profile_of};

use crate::name::word_of;
use command_host::{CommandFault, PassFiles, print, text_at, told_of_text};
use command_line::EvidenceWords;
use journal_faults::NoEvidence;
use journal_reports::evidence;
use memory_database::open_in_memory;
use office_words::{ProfileName, Text};
use sqlite::{Alter, Connection};
use std::alloc::Global;
use std::io::{BufRead, Write};
use streams::Counted;

// The profile that words name.
fn profile_of(alloc: Global, words: &EvidenceWords<'_>) -> Result<ProfileName, CommandFault>
    ensures name { IfOk result (λ name. name ≡ profile_of words.now) }
    ensures none { IfErr result (IsNoProfile words.now) }
{
    let team = word_of(alloc, words.team)?;
    let profile = word_of(alloc, words.profile)?;
    Ok(ProfileName { team, profile })
}

// The evidence that a journal gives over a connection to an empty store, which is let go of.
fn evidence_over<S: Alter + Drop, R: BufRead + Drop>(
    alloc: Global,
    conn: Connection<S>,
    journal: R,
    name: &ProfileName,
    words: &EvidenceWords<'_>,
) -> Result<Text, NoEvidence>
    requires { IsIdle (state S.Store conn) }
    ensures evidence { IfOk result (λ text. (left : Held S) × IsEvidence (R.remaining journal)
        name.now words.now.revision words.now.line (meaning_over S.Store) left text) }
    ensures none { IfErr result (λ why. (left : Held S) × IsNoEvidence (R.remaining journal)
        name.now words.now.revision words.now.line S.Store conn left why) }
{
    match evidence(alloc, conn, journal, name, words.revision, words.line) {
        Ok((text, _)) => Ok(text),
        Err((why, _)) => Err(why),
    }
}

/// The evidence of the revision and the event that words name, of the journal that they name.
///
/// # Errors
///
/// `NotAWord` where TEAM or PROFILE is none, before the journal is opened; and why there is no
/// evidence.
pub(crate) fn evidence_at<F: PassFiles>(
    files: &F,
    alloc: Global,
    words: &EvidenceWords<'_>,
) -> Result<Text, CommandFault>
    ensures evidence { IfOk result (IsEvidenceAt (F.opens files.now) F.gives F.File.remaining words.now) }
    ensures none { IfErr result (IsNoEvidenceAt (F.opens files.now) F.gives F.File.remaining words.now) }
{
    let name = profile_of(alloc, words)?;
    let mut text = text_at(files, alloc, words.journal)?;
    let conn = match open_in_memory(alloc) {
        Ok(conn) => conn,
        Err(refused) => return Err(CommandFault::NoMemory(refused.into())),
    };
    match evidence_over(alloc, conn, &mut text, &name, words) {
        Ok(text) => Ok(text),
        Err(why) => Err(told_of_text(&text, CommandFault::NoEvidence(why))),
    }
}

/// `evidence`: prints the evidence of an event.
///
/// # Errors
///
/// As of `evidence_at`; and `Write` where it was cut.
pub fn run_evidence<F: PassFiles, O: Write>(
    files: &F,
    alloc: Global,
    words: &EvidenceWords<'_>,
    output: &mut Counted<O>,
) -> Result<u8, CommandFault>
    ensures done { IfOk result (λ status. HasProved (F.opens files.now) F.gives F.File.remaining
        O.contents output.old output.new words.now × (status ≡ 0)) }
    ensures failed { IfErr result (FailsToProve (F.opens files.now) F.gives F.File.remaining O.contents
        output.old output.new words.now) }
{
    let text = evidence_at(files, alloc, words)?;
    print(output, text.as_str())?;
    Ok(0)
}
