//! The token that a field `Authorization` shows.

ghost use Rattle.std.specs.Prelude.{◌≡◌, None, Some, IfOk, drop, if◌then◌else◌, option_map};
ghost use Rattle.office_words.specs.Words.{is_token};
ghost use Rattle.http_requests.specs.Fields.{is_bearer, token_in};

use crate::field::same_in_any_case;
use office_words::{Token, WordFault};
use std::alloc::{AllocError, Global};
use std::str;

// The token after the scheme `Bearer` and one space, or none where the value isn't of that form.
pub(crate) fn token_in(alloc: Global, value: &[u8]) -> Result<Option<Token>, AllocError>
    ensures { IfOk result (λ token. token ≡ token_in value.now) }
{
    match after_scheme(value) {
        Some(rest) => read_token(alloc, rest),
        None => Ok(None),
    }
}

// What stands after the scheme `Bearer`, in any case, and one space.
fn after_scheme(value: &[u8]) -> Option<&[u8]>
    ensures { option_map (λ rest. rest.now) result
        ≡ (if is_bearer value.now then Some (drop 7 value.now) else None) }
{
    if value.len() >= 7 && same_in_any_case(&value[..7], b"Bearer ") {
        Some(&value[7..])
    } else {
        None
    }
}

// The token that the bytes are, if they are one.
fn read_token(alloc: Global, bytes: &[u8]) -> Result<Option<Token>, AllocError>
    ensures { IfOk result (λ token. token ≡ (if is_token bytes.now then Some bytes.now else None)) }
{
    match str::from_utf8(bytes) {
        Ok(text) => token_of(alloc, text),
        Err(_) => Ok(None),
    }
}

// The token that the text is, if it is one.
fn token_of(alloc: Global, text: &str) -> Result<Option<Token>, AllocError>
    ensures { IfOk result (λ token. token ≡ (if is_token text.now then Some text.now else None)) }
{
    match Token::new(alloc, text) {
        Ok(token) => Ok(Some(token)),
        Err(WordFault::NotAWord) => Ok(None),
        Err(WordFault::NoMemory(witness)) => Err(witness.into()),
    }
}
