//! Which argument of a command a refusal is about.

ghost use Rattle.std.specs.Prelude.{◌≡◌, option_copied, option_map};
ghost use Rattle.command_host.specs.Arguments.{subject_of_evidence, subject_of_execve, subject_of_init};
ghost use Rattle.command_host.specs.Arguments.{subject_of_history, is_given_word, shown};
ghost use Rattle.command_host.specs.Arguments.{wrong_of_evidence, wrong_of_history, wrong_of_init};
ghost use Rattle.office_words.specs.Words.{is_word};

use crate::fault::CommandFault;
use crate::founding_fault::FoundingWordsFault;
use crate::unread::unread_at;
use command_line::{EvidenceWords, ExecveWords, HistoryWords, InitWords};
use office_words::{Word, WordFault};
use profile_commands::{ExecutionFault, unknown_name, unknown_of};
use std::alloc::Global;

// A word of a command line as it is shown: as a shell writes it where it is empty.
fn shown(word: &str) -> &str
    ensures { result.now ≡ shown word.now }
{
    if word.is_empty() { "''" } else { word }
}

// The same of one that may be given.
fn shown_of(word: Option<&str>) -> Option<&str>
    ensures { option_copied result ≡ option_map shown (option_copied word.entry) }
{
    match word {
        Some(word) => Some(shown(word)),
        None => None,
    }
}

// Whether a text is a word.
fn is_word(alloc: Global, text: &str) -> bool
    ensures { result ≡ is_word text.now }
{
    !matches!(Word::new(alloc, text), Err(WordFault::NotAWord))
}

// Whether a text is one, where it is given.
fn is_given_word(alloc: Global, text: Option<&str>) -> bool
    ensures { result ≡ is_given_word (option_copied text.entry) }
{
    match text {
        Some(text) => is_word(alloc, text),
        None => true,
    }
}

// Of the words of `init` the argument that isn't of its form, where one of them isn't.
fn wrong_of_init(alloc: Global, words: &InitWords<'_>) -> &'static str
    ensures { result.now ≡ wrong_of_init words.now }
{
    if !is_word(alloc, words.name) {
        "NAME"
    } else if !is_word(alloc, words.team) {
        "TEAM"
    } else {
        "DIGEST"
    }
}

// The same of those of `history`.
fn wrong_of_history(alloc: Global, words: &HistoryWords<'_>) -> &'static str
    ensures { result.now ≡ wrong_of_history words.now }
{
    if !is_given_word(alloc, words.team) {
        "--team"
    } else if !is_given_word(alloc, words.profile) {
        "--profile"
    } else {
        "--user"
    }
}

// The same of those of `evidence`.
fn wrong_of_evidence(alloc: Global, words: &EvidenceWords<'_>) -> &'static str
    ensures { result.now ≡ wrong_of_evidence words.now }
{
    if !is_word(alloc, words.team) {
        "TEAM"
    } else {
        "PROFILE"
    }
}

/// What a refusal of `init` is about: the name of the argument that isn't of its form, or the first CAP
/// that is the name of no capability.
pub fn subject_of_init<'w>(
    alloc: Global,
    words: &InitWords<'w>,
    fault: &CommandFault,
) -> Option<&'w str>
    ensures { option_copied result ≡ subject_of_init words.now fault.now }
{
    match fault {
        CommandFault::FoundingWords(FoundingWordsFault::BadWord) => {
            Some(wrong_of_init(alloc, words))
        }
        CommandFault::FoundingWords(FoundingWordsFault::UnknownCapability) => {
            shown_of(unknown_name(&words.capabilities))
        }
        _ => None,
    }
}

/// What one of `execve` is about: the first part of a LIST that is the name of no capability, or the
/// file that couldn't be read.
pub fn subject_of_execve<'w>(words: &ExecveWords<'w>, fault: &CommandFault) -> Option<&'w str>
    ensures { option_copied result ≡ subject_of_execve words.now fault.now }
{
    match fault {
        CommandFault::Execution(ExecutionFault::UnknownCapability) => shown_of(unknown_of(words)),
        why => unread_at(words.file, why),
    }
}

/// What one of `history` is about: the option whose value is no word, or the journal that couldn't be
/// read.
pub fn subject_of_history<'w>(
    alloc: Global,
    words: &HistoryWords<'w>,
    fault: &CommandFault,
) -> Option<&'w str>
    ensures { option_copied result ≡ subject_of_history words.now fault.now }
{
    match fault {
        CommandFault::NotAWord => Some(wrong_of_history(alloc, words)),
        why => unread_at(words.journal, why),
    }
}

/// What one of `evidence` is about: the argument that is no word, or the journal that couldn't be read.
pub fn subject_of_evidence<'w>(
    alloc: Global,
    words: &EvidenceWords<'w>,
    fault: &CommandFault,
) -> Option<&'w str>
    ensures { option_copied result ≡ subject_of_evidence words.now fault.now }
{
    match fault {
        CommandFault::NotAWord => Some(wrong_of_evidence(alloc, words)),
        why => unread_at(words.journal, why),
    }
}
