//! Words: the names of users, teams and profiles.

ghost use Rattle.std.specs.Prelude.{◌≡◌, ◌↔◌, true, false, Err, bytes_eq, string_bytes, IfOk, OnOk};
ghost use Rattle.office_words.specs.Words.{is_word, is_word_byte};
ghost use Rattle.std.specs.List.{list_all};

use no_memory::NoMemory;
use std::alloc::{AllocError, Global};
use std::marker::Model;
use thiserror::Error;

/// A name of a user, a team or a profile: 1 to 64 of a-z, 0-9 and the hyphen.
#[derive(Clone, Drop)]
pub struct Word {
    text: String,
}

impl Model for Word {
    ghost use Rattle.std.specs.Prelude.{◌≡◌, ℕ, List, true, string_bytes};
    ghost use Rattle.office_words.specs.Words.{is_word};

    ghost Value = { List ℕ };

    ghost view = { λ w. string_bytes w.text };

    ghost invariant = { λ w. is_word (string_bytes w.text) ≡ true };
}

/// Why a text is no word, or no token.
#[derive(Clone, Copy, Debug, Drop, Error)]
pub enum WordFault {
    /// The text isn't of the form.
    #[error("not-a-word")]
    NotAWord,
    /// There was no memory for it.
    #[error("memory")]
    NoMemory(NoMemory),
}

impl From<AllocError> for WordFault {
    ghost use Rattle.std.specs.Prelude.{◌≡◌};
    ghost use Rattle.office_words.specs.declared.word.WordFault.TheVariants.{NoMemory};
    ghost use Rattle.no_memory.specs.Witness.{witness};

    ghost from_gives = { λ _ e. e ≡ NoMemory witness };

    fn from(refused: AllocError) -> WordFault {
        WordFault::NoMemory(refused.into())
    }
}

impl Word {
    /// The word with this text.
    pub fn new(alloc: Global, text: &str) -> Result<Word, WordFault>
        ensures kept { IfOk result (λ word. word ≡ text.now) }
        ensures formed { OnOk result (is_word text.now ≡ true) }
        ensures refused { result ≡ Err WordFault.NotAWord ↔ is_word text.now ≡ false }
    {
        if !is_a_word(text) {
            return Err(WordFault::NotAWord);
        }
        let text = String::from_str(alloc, text)?;
        Ok(Word { text })
    }

    /// Its text.
    pub fn as_str(&self) -> &str
        ensures text { result.now ≡ self.now }
        ensures formed { is_word self.now ≡ true }
    {
        self.text.as_str()
    }

    /// Whether it is the same word.
    pub fn is(&self, other: &Word) -> bool
        ensures { result ≡ bytes_eq self.now other.now }
    {
        self.as_str() == other.as_str()
    }
}

// Whether a word may have this byte.
fn may_stand_in_word(byte: u8) -> bool
    ensures { result ≡ is_word_byte byte }
{
    byte.is_ascii_lowercase() || byte.is_ascii_digit() || byte == b'-'
}

// Whether each byte may stand in a word.
fn has_word_bytes(bytes: &[u8]) -> bool
    ensures { result ≡ list_all is_word_byte bytes.now }
{
    bytes.iter().all(|byte| may_stand_in_word(*byte))
}

// Whether the text is a word.
#[tactic(auto, unfolding(crate::specs::Words::is_word))]
fn is_a_word(text: &str) -> bool
    ensures { result ≡ is_word text.now }
{
    if text.is_empty() || text.len() > 64 {
        false
    } else {
        has_word_bytes(text.as_bytes())
    }
}
