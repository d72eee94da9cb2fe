//! The commands of the program.

ghost use Rattle.std.specs.Prelude.{◌≡◌, IfErr, IfOk, MatchResult, Some, option_copied};
ghost use Rattle.command_host.specs.Outside.{known};
ghost use Rattle.command_host.specs.Said.{IsRefusal};
ghost use Rattle.office_commands.specs.Apart.{HasCarriedOut, HasFailedApart, HasRunApart};
ghost use Rattle.office_commands.specs.Commands.{ended_well, failed_status, HasRun, HasTold};
ghost use Rattle.office_commands.specs.Commands.{HasVerifiedAll, IsPrinted};
ghost use Rattle.office_commands.specs.Failing.{FailsToVerifyAll, HasFailed};
ghost use Rattle.office_commands.specs.Notes.{goes_without, is_without, HasNoted, HasNotedAll};
ghost use Rattle.office_commands.specs.Notes.{HasNotedAllWell, HasNotedWell, SaysIf};
ghost use Rattle.office_commands.specs.Subjects.{subject_of};
ghost use Rattle.reading_commands.specs.Moments.{HasCompared, MayHaveNoted};
ghost use Rattle.streams.specs.CallsLeft.{HasCallsLeft, HasFaultsLeft};

use crate::ended::Ended;
use crate::same_file::see_apart;
use crate::subject::subject_of;
use changing_commands::{
    found_at, mark_stored, migrate_at, run_rebuild, serve_http, serve_stored, serve_trial,
};
use command_host::{CommandFault, Host, Outside, print, refuse, say, say_lines};
use command_line::{Command, JournalWords, VerifyWords, WordsFault, read_words};
use reading_commands::{run_check, run_compare, run_evidence, run_execve, run_history, run_verify};
use std::alloc::Global;
use std::io::{Read, Write};
use streams::Counted;

// The status that the program ends with where the command is refused or fails.
fn failed_status(command: &Command<'_>) -> u8
    ensures { result ≡ failed_status command.now }
{
    match command {
        Command::Compare { .. } => 2,
        _ => 1,
    }
}

// Compares the office in a database with the one that a journal tells, and then marks it, where the
// words say so.
fn verify_and_mark<H: Host, O: Write, E: Write>(
    host: &Outside<'_, H>,
    alloc: Global,
    words: &VerifyWords<'_>,
    output: &mut Counted<O>,
    errors: &mut Counted<E>,
) -> Result<u8, CommandFault>
    ensures done { IfOk result (λ status. HasVerifiedAll (known host.now) O.contents
        output.old output.new words.now × (status ≡ 0)) }
    ensures failed { IfErr result (FailsToVerifyAll (known host.now) O.contents
        output.old output.new words.now) }
    ensures compared { IfOk result (λ _. HasCompared E.contents errors.old errors.new
        ((known host.now).places words.now.database.now) (known host.now).stamps
        words.now.journal.now) }
    ensures noted { MayHaveNoted E.contents errors.old errors.new
        ((known host.now).places words.now.database.now) (known host.now).stamps
        words.now.journal.now }
{
    let status = run_verify(host.files, alloc, words, output, errors)?;
    if words.mark {
        mark_stored(host, alloc, words.database, words.journal)?;
    }
    Ok(status)
}

// Carries a command out, and says with which status that ends the program.
fn run<H: Host, I: Read, O: Write, E: Write>(
    host: &Outside<'_, H>,
    alloc: Global,
    command: &Command<'_>,
    input: &mut Counted<I>,
    output: &mut Counted<O>,
    errors: &mut Counted<E>,
) -> Result<u8, CommandFault>
    requires reads { HasCallsLeft input.old }
    requires writes { HasFaultsLeft output.old }
    ensures done { IfOk result (HasRun (known host.now) O.contents E.contents errors.old errors.new
        command.now (I.remaining input.old.inner) (I.remaining input.new.inner)
        output.old output.new) }
    ensures failed { IfErr result (HasFailed (known host.now) O.contents
        E.contents errors.old errors.new command.now
        (I.remaining input.old.inner) (I.remaining input.new.inner) output.old output.new) }
    ensures noted_well { IfOk result (λ _. HasNotedWell (known host.now) E.contents
        errors.old errors.new command.now) }
    ensures noted { HasNoted (known host.now) E.contents errors.old errors.new command.now }
{
    match command {
        Command::Trial => {
            serve_trial(alloc, input, output, errors).ended?;
            Ok(0)
        }
        Command::Check { file } => run_check(host.files, alloc, file, output),
        Command::Execve(words) => run_execve(host.files, alloc, words, output),
        Command::Init(words) => {
            found_at(host, alloc, words)?;
            print(output, "founded\n")?;
            say_if(words.journal.is_none(), NEVER, errors);
            Ok(0)
        }
        Command::Serve(words) => {
            serve_http(host, alloc, words, output)?;
            Ok(0)
        }
        Command::Migrate {
            database,
            without_journal,
        } => {
            migrate_at(host.databases, database, *without_journal)?;
            print(output, "migrated\n")?;
            Ok(0)
        }
        Command::Desk { database, journal } => {
            serve_stored(host, alloc, database, *journal, input, output, errors).ended?;
            Ok(0)
        }
        Command::Compare { base, new } => run_compare(host.files, alloc, base, new, output),
        Command::Verify(words) => verify_and_mark(host, alloc, words, output, errors),
        Command::Rebuild { database, journal } => {
            run_rebuild(host.files, host.databases, alloc, database, journal, output)
        }
        Command::History(words) => run_history(host.files, alloc, words, output),
        Command::Evidence(words) => run_evidence(host.files, alloc, words, output),
    }
}

// The line that says that an office was founded without a journal.
const NEVER: &str = "office: without a journal, which this office will never have\n";

// The line that says that an office goes on without its journal.
const WITHOUT: &str =
    "office: without its journal, which tells nothing of what happens from now on\n";

// Whether words say so.
fn is_without(journal: JournalWords<'_>) -> bool
    ensures { result ≡ is_without journal.entry }
{
    match journal {
        JournalWords::Without => true,
        _ => false,
    }
}

// Whether a command says so.
fn goes_without(command: &Command<'_>) -> bool
    ensures { result ≡ goes_without command.now }
{
    match command {
        Command::Desk { journal, .. } => is_without(*journal),
        Command::Serve(words) => is_without(words.journal),
        Command::Migrate {
            without_journal,
            ..
        } => *without_journal,
        _ => false,
    }
}

// Says a line, where it is to be said.
fn say_if<E: Write>(is_said: bool, line: &str, errors: &mut Counted<E>)
    ensures { SaysIf E.contents errors.old errors.new is_said line.now }
{
    if is_said {
        say(errors, line);
    }
}

// The same, where the journal that the command names and its database are apart. Else that is told, and
// nothing is opened.
fn run_apart<H: Host, I: Read, O: Write, E: Write>(
    host: &Outside<'_, H>,
    alloc: Global,
    command: &Command<'_>,
    input: &mut Counted<I>,
    output: &mut Counted<O>,
    errors: &mut Counted<E>,
) -> Result<u8, CommandFault>
    requires reads { HasCallsLeft input.old }
    requires writes { HasFaultsLeft output.old }
    ensures done { IfOk result (HasRunApart (known host.now) O.contents
        (I.remaining input.old.inner) (I.remaining input.new.inner)
        output.old output.new E.contents errors.old command.now errors.new) }
    ensures failed { IfErr result (HasFailedApart (known host.now) O.contents
        (I.remaining input.old.inner) (I.remaining input.new.inner)
        output.old output.new E.contents errors.old command.now errors.new) }
    ensures noted_well { IfOk result (λ _. HasNotedAllWell (known host.now) E.contents
        errors.old errors.new command.now) }
    ensures noted { HasNotedAll (known host.now) E.contents errors.old errors.new command.now }
{
    see_apart(host.journals, command)?;
    say_if(goes_without(command), WITHOUT, errors);
    run(host, alloc, command, input, output, errors)
}

// Says why a command was refused or failed, or a text wasn't printed; and what that is about, where that
// is given. The program ends with this status then.
fn ended_by<E: Write>(
    alloc: Global,
    errors: &mut Counted<E>,
    status: u8,
    why: CommandFault,
    subject: Option<&str>,
) -> Ended
    ensures status { result.status ≡ status }
    ensures why { result.why ≡ Some why }
    ensures said { IsRefusal E.contents errors.old errors.new why (option_copied subject.entry)
        result.witness }
{
    let witness = refuse(alloc, errors, &why, subject);
    Ended {
        status,
        why: Some(why),
        witness,
    }
}

// Prints a text, or says that it couldn't be printed.
fn print_or_refuse<O: Write, E: Write>(
    alloc: Global,
    text: &str,
    output: &mut Counted<O>,
    errors: &mut Counted<E>,
) -> Ended
    ensures { IsPrinted E.contents errors.old errors.new O.contents output.old output.new
        text.now result }
{
    match print(output, text) {
        Ok(()) => Ended::well(0),
        Err(fault) => ended_by(alloc, errors, 1, fault, None),
    }
}

// Tells why words ask for no command: help and the version on standard output, and all else on
// standard error.
fn tell<O: Write, E: Write>(
    alloc: Global,
    fault: &WordsFault,
    output: &mut Counted<O>,
    errors: &mut Counted<E>,
) -> Ended
    ensures { HasTold E.contents errors.old errors.new O.contents output.old output.new
        fault.now result }
{
    match fault {
        WordsFault::Help(text) => print_or_refuse(alloc, text.as_str(), output, errors),
        WordsFault::Version(text) => print_or_refuse(alloc, text.as_str(), output, errors),
        WordsFault::Refused(text) => Ended {
            status: 2,
            why: None,
            witness: say_lines(alloc, errors, text.as_str()),
        },
        WordsFault::NoMemory(witness) => {
            ended_by(alloc, errors, 1, CommandFault::NoMemory(*witness), None)
        }
    }
}

// How the program ends. Where a command was refused or failed, that is said, with what it is about.
fn ended_of<E: Write>(
    alloc: Global,
    errors: &mut Counted<E>,
    command: &Command<'_>,
    came: Result<u8, CommandFault>,
) -> Ended
    ensures { MatchResult came
        (λ status. (result ≡ ended_well status) × (errors.new ≡ errors.old))
        (λ why. (result.status ≡ failed_status command.now) × (result.why ≡ Some why)
        × IsRefusal E.contents errors.old errors.new why (subject_of command.now why)
        result.witness) }
{
    match came {
        Ok(status) => Ended::well(status),
        Err(fault) => {
            let subject = subject_of(alloc, command, &fault);
            ended_by(alloc, errors, failed_status(command), fault, subject)
        }
    }
}

/// Carries out what the words of a command line ask for, the first of them being the program's
/// name. Gives the status that the program ends with: 0, or 1 where the command was refused or
/// failed, or 2 where the words were refused. That of `compare` is 1 where it printed findings, and
/// 2 where it was refused or failed. It gives too why that was so.
pub fn run_words<H: Host, I: Read, O: Write, E: Write>(
    host: &Outside<'_, H>,
    alloc: Global,
    words: &[String],
    input: &mut Counted<I>,
    output: &mut Counted<O>,
    errors: &mut Counted<E>,
) -> Ended
    requires reads { HasCallsLeft input.old }
    requires writes { HasFaultsLeft output.old }
    ensures { HasCarriedOut (known host.now) O.contents
        (I.remaining input.old.inner) (I.remaining input.new.inner) output.old output.new
        E.contents errors.old errors.new words.entry.now result }
{
    match read_words(alloc, words) {
        Ok(command) => {
            let came = run_apart(host, alloc, &command, input, output, errors);
            ended_of(alloc, errors, &command, came)
        }
        Err(fault) => tell(alloc, &fault, output, errors),
    }
}
