//! Tokens: what a caller shows to be known.

ghost use Rattle.std.specs.Prelude.{◌≡◌, ◌↔◌, true, false, Err, string_bytes, IfOk, OnOk};
ghost use Rattle.office_words.specs.Words.{is_token, is_token_byte};
ghost use Rattle.std.specs.List.{list_all};

use crate::word::WordFault;
use std::alloc::Global;
use std::marker::Model;

/// What a caller shows to be known: 1 to 128 bytes from 0x21 to 0x7E.
#[derive(Drop)]
pub struct Token {
    text: String,
}

impl Model for Token {
    ghost use Rattle.std.specs.Prelude.{◌≡◌, ℕ, List, true, string_bytes};
    ghost use Rattle.office_words.specs.Words.{is_token};

    ghost Value = { List ℕ };

    ghost view = { λ t. string_bytes t.text };

    ghost invariant = { λ t. is_token (string_bytes t.text) ≡ true };
}

impl Token {
    /// The token with this text.
    pub fn new(alloc: Global, text: &str) -> Result<Token, WordFault>
        ensures kept { IfOk result (λ token. token ≡ text.now) }
        ensures formed { OnOk result (is_token text.now ≡ true) }
        ensures refused { result ≡ Err WordFault.NotAWord ↔ is_token text.now ≡ false }
    {
        if !is_a_token(text) {
            return Err(WordFault::NotAWord);
        }
        let text = String::from_str(alloc, text)?;
        Ok(Token { text })
    }

    /// Its text.
    pub fn as_str(&self) -> &str
        ensures text { result.now ≡ self.now }
        ensures formed { is_token self.now ≡ true }
    {
        self.text.as_str()
    }
}

// Whether a token may have this byte.
fn may_stand_in_token(byte: u8) -> bool
    ensures { result ≡ is_token_byte byte }
{
    byte >= 0x21 && byte <= 0x7E
}

// Whether each byte may stand in a token.
fn has_token_bytes(bytes: &[u8]) -> bool
    ensures { result ≡ list_all is_token_byte bytes.now }
{
    bytes.iter().all(|byte| may_stand_in_token(*byte))
}

// Whether the text is a token.
#[tactic(auto, unfolding(crate::specs::Words::is_token))]
fn is_a_token(text: &str) -> bool
    ensures { result ≡ is_token text.now }
{
    if text.is_empty() || text.len() > 128 {
        false
    } else {
        has_token_bytes(text.as_bytes())
    }
}
