//! The names of teams and profiles that words give.

ghost use Rattle.std.specs.Prelude.{◌≡◌, IfErr, IfOk, option_copied};
ghost use Rattle.reading_commands.specs.Reports.{IsNoName, IsNoWord};

use command_host::CommandFault;
use office_words::{Word, WordFault};
use std::alloc::Global;

/// The word that a text is.
///
/// # Errors
///
/// `NotAWord` where it is none, and `NoMemory`.
pub(crate) fn word_of(alloc: Global, text: &str) -> Result<Word, CommandFault>
    ensures word { IfOk result (λ word. word ≡ text.now) }
    ensures none { IfErr result (IsNoWord text.now) }
{
    match Word::new(alloc, text) {
        Ok(word) => Ok(word),
        Err(WordFault::NotAWord) => Err(CommandFault::NotAWord),
        Err(WordFault::NoMemory(witness)) => Err(CommandFault::NoMemory(witness)),
    }
}

/// The same of a text that may be given.
///
/// # Errors
///
/// As of [`word_of`].
pub(crate) fn name_of(alloc: Global, given: Option<&str>) -> Result<Option<Word>, CommandFault>
    ensures name { IfOk result (λ name. name ≡ option_copied given.entry) }
    ensures none { IfErr result (IsNoName (option_copied given.entry)) }
{
    match given {
        Some(text) => Ok(Some(word_of(alloc, text)?)),
        None => Ok(None),
    }
}
