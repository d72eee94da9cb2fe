//! `verify`: whether an office in files is the one that a journal tells.

ghost use Rattle.std.specs.Prelude.{◌≡◌, IfErr, IfOk};
ghost use Rattle.std.specs.Io.Buffered.{reader_remaining};
ghost use Rattle.reading_commands.specs.Moments.{HasCompared, MayHaveNoted};
ghost use Rattle.reading_commands.specs.Verifications.{FailsToVerify, HasVerified, IsNotOf};
ghost use Rattle.reading_commands.specs.Verifications.{IsUnverifiedAt, kept_of, WasVerified};
ghost use Rattle.reading_commands.specs.Verifications.{WasVerifiedIn};

use crate::copied::{bytes_at, office_in_copy};
use crate::moment::{moment_of, note_change};
use crate::place::{Place, place_at};
use command_host::{
    CommandFault, JournalText, PassFiles, least_lines, print_bytes, seal_line, text_at,
    told_of_text,
};
use command_line::VerifyWords;
use database_files::user_version;
use journal_verification::{KeptSeal, Verified, verify};
use std::alloc::Global;
use std::io::Write;
use streams::Counted;

// The seal that was kept, as the comparison takes it.
fn kept_of(kept: Option<command_line::KeptSeal>) -> Option<KeptSeal>
    ensures { result ≡ kept_of kept }
{
    match kept {
        Some(kept) => {
            let seal = kept.seal;
            Some(KeptSeal {
                line: kept.line,
                seal,
            })
        }
        None => None,
    }
}

// Compares the office in a copy of the two files that lie there with the one that a journal tells, which
// has to have the seal that was kept, and as many lines as the database is marked with.
fn verify_in<F: PassFiles>(
    files: &F,
    alloc: Global,
    place: &Place,
    text: &mut JournalText<'_, F>,
    kept: Option<command_line::KeptSeal>,
) -> Result<Verified, CommandFault>
    ensures verified { IfOk result (WasVerifiedIn (F.opens files.now) F.File.remaining place.now
        (reader_remaining (λ noted. F.File.remaining noted.file) text.old) kept) }
    ensures failed { IfErr result (IsNotOf (F.opens files.now) F.gives F.File.remaining place.now
        (reader_remaining (λ noted. F.File.remaining noted.file) text.old) kept) }
{
    let given = bytes_at(files, alloc, place)?;
    let mark = least_lines(user_version(&given.database));
    let mut conn = office_in_copy(alloc, given)?;
    match verify(alloc, &mut *text, &mut conn, kept_of(kept), mark) {
        Ok(verified) => Ok(verified),
        Err(why) => Err(told_of_text(text, CommandFault::Unverified(why))),
    }
}

// The same of the database and the journal that words name. Where one of their files changed meanwhile,
// that is said.
fn verify_at<F: PassFiles, E: Write>(
    files: &F,
    alloc: Global,
    words: &VerifyWords<'_>,
    errors: &mut Counted<E>,
) -> Result<Verified, CommandFault>
    ensures verified { IfOk result (WasVerified (F.opens files.now) (F.places files.now)
        F.File.remaining words.now.journal.now words.now.database.now words.now.seal) }
    ensures failed { IfErr result (IsUnverifiedAt (F.opens files.now) (F.places files.now) F.gives
        F.File.remaining words.now.journal.now words.now.database.now words.now.seal) }
    ensures compared { IfOk result (λ _. HasCompared E.contents errors.old errors.new
        (F.places files.now words.now.database.now) (F.stamps files.now) words.now.journal.now) }
    ensures noted { MayHaveNoted E.contents errors.old errors.new
        (F.places files.now words.now.database.now) (F.stamps files.now) words.now.journal.now }
{
    let mut text = text_at(files, alloc, words.journal)?;
    let place = place_at(files, alloc, words.database)?;
    let before = moment_of(files, &place, words.journal);
    let verified = verify_in(files, alloc, &place, &mut text, words.seal);
    note_change(before, moment_of(files, &place, words.journal), errors);
    verified
}

/// `verify`: compares the office in a database with the one that a journal tells, and prints the
/// number of its events and the last seal. The files are read, and the office is looked at in a copy
/// of them in memory: nothing is written to them. Where one of them changed meanwhile, that is said on
/// standard error.
///
/// # Errors
///
/// `Open` where the journal can't be opened; `Store`, `TooLarge` or `Opening` where there is no office
/// at the path; `Unverified` why the office isn't that of the journal, or why that hasn't the seal that the
/// words give; `NoMemory` or `Write` where the line wasn't printed.
pub fn run_verify<F: PassFiles, O: Write, E: Write>(
    files: &F,
    alloc: Global,
    words: &VerifyWords<'_>,
    output: &mut Counted<O>,
    errors: &mut Counted<E>,
) -> Result<u8, CommandFault>
    ensures done { IfOk result (λ status. HasVerified (F.opens files.now) (F.places files.now)
        F.File.remaining words.now.journal.now words.now.database.now words.now.seal
        O.contents output.old output.new × (status ≡ 0)) }
    ensures failed { IfErr result (FailsToVerify (F.opens files.now) (F.places files.now) F.gives
        F.File.remaining words.now.journal.now words.now.database.now words.now.seal
        O.contents output.old output.new) }
    ensures compared { IfOk result (λ _. HasCompared E.contents errors.old errors.new
        (F.places files.now words.now.database.now) (F.stamps files.now) words.now.journal.now) }
    ensures noted { MayHaveNoted E.contents errors.old errors.new
        (F.places files.now words.now.database.now) (F.stamps files.now) words.now.journal.now }
{
    let verified = verify_at(files, alloc, words, errors)?;
    let line = match seal_line(alloc, "verified", verified.events, &verified.seal) {
        Ok(line) => line,
        Err(refused) => return Err(CommandFault::NoMemory(refused.into())),
    };
    print_bytes(output, &line)?;
    Ok(0)
}
