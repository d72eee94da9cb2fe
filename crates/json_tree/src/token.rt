//! The text of a token.

ghost use Rattle.std.specs.Prelude.{◌≡◌, ◌≤◌, ◌∷◌, ◌++◌, [], IfOk, cond, length, true};
ghost use Rattle.std.specs.Str.{IsUtf8};
ghost use Rattle.json.specs.Print.{IsPrintable, escape, separator, token_text};
ghost use Rattle.json.specs.Reads.{token_of};
ghost use Rattle.json_tree.specs.Grows.{Grows};
ghost use Rattle.json_tree.specs.Plain.{are_plain, quoted_in};

use crate::escape::{put_escaped, put_plain};
use crate::place::{place_byte, place_comma, place_quoted, place_text};
use crate::room::make_room;
use json::Token;
use std::alloc::AllocError;

/// Writes a token behind a text, and gives the place behind it. A comma stands before it where it
/// begins what comes after a value.
///
/// # Errors
///
/// Memory was refused.
#[inline(always)]
pub(crate) fn put_token(
    bytes: &mut Vec<u8>,
    at: usize,
    after_value: bool,
    token: Token<'_>,
) -> Result<usize, AllocError>
    requires within { at ≤ length bytes.old.items }
    requires printable { IsPrintable (token_of token) }
    ensures puts { IfOk result (Grows bytes.old.items at
        (separator after_value (token_of token.entry) ++ token_text (token_of token.entry))
        bytes.new.items) }
    ensures utf8 { IsUtf8 (token_text (token_of token.entry)) }
{
    match token {
        Token::BeginObject => put_mark(bytes, at, after_value, b'{'),
        Token::EndObject => put_mark(bytes, at, false, b'}'),
        Token::BeginArray => put_mark(bytes, at, after_value, b'['),
        Token::EndArray => put_mark(bytes, at, false, b']'),
        Token::Key(name) => put_quoted(bytes, at, after_value, name.as_bytes(), b"\":"),
        Token::String(text) => put_quoted(bytes, at, after_value, text.as_bytes(), b"\""),
        Token::Number(text) => put_word(bytes, at, after_value, text.as_bytes()),
        Token::Bool(true) => put_word(bytes, at, after_value, b"true"),
        Token::Bool(false) => put_word(bytes, at, after_value, b"false"),
        Token::Null => put_word(bytes, at, after_value, b"null"),
        Token::Bad => unreachable!(),
    }
}

/// The same of a token of which no byte needs an escape.
///
/// # Errors
///
/// Memory was refused.
#[inline(always)]
pub(crate) fn put_plain_token(
    bytes: &mut Vec<u8>,
    at: usize,
    after_value: bool,
    token: Token<'_>,
) -> Result<usize, AllocError>
    requires within { at ≤ length bytes.old.items }
    requires printable { IsPrintable (token_of token) }
    requires plain { are_plain (quoted_in (token_of token)) ≡ true }
    ensures puts { IfOk result (Grows bytes.old.items at
        (separator after_value (token_of token.entry) ++ token_text (token_of token.entry))
        bytes.new.items) }
    ensures utf8 { IsUtf8 (token_text (token_of token.entry)) }
{
    match token {
        Token::Key(name) => put_plain_quoted(bytes, at, after_value, name.as_bytes(), b"\":"),
        Token::String(text) => put_plain_quoted(bytes, at, after_value, text.as_bytes(), b"\""),
        _ => put_token(bytes, at, after_value, token),
    }
}

// Writes a bracket or a quote.
#[inline(always)]
fn put_mark(bytes: &mut Vec<u8>, at: usize, comma: bool, mark: u8) -> Result<usize, AllocError>
    requires { at ≤ length bytes.old.items }
    ensures { IfOk result (Grows bytes.old.items at (cond comma (44 ∷ []) [] ++ mark ∷ [])
        bytes.new.items) }
{
    make_room(bytes, at, 2)?;
    let at = place_comma(bytes, at, comma);
    Ok(place_byte(bytes, at, mark))
}

// Writes a text as it is.
#[inline(never)]
fn put_word(bytes: &mut Vec<u8>, at: usize, comma: bool, text: &[u8]) -> Result<usize, AllocError>
    requires { at ≤ length bytes.old.items }
    ensures { IfOk result (Grows bytes.old.items at (cond comma (44 ∷ []) [] ++ text.now)
        bytes.new.items) }
{
    make_room(bytes, at, text.len() + 1)?;
    let at = place_comma(bytes, at, comma);
    Ok(place_text(bytes, at, text))
}

// Writes a text of which no byte needs an escape, behind a quote, and what closes it.
#[inline(always)]
fn put_plain_quoted(
    bytes: &mut Vec<u8>,
    at: usize,
    comma: bool,
    text: &[u8],
    close: &[u8],
) -> Result<usize, AllocError>
    requires within { at ≤ length bytes.old.items }
    requires plain { are_plain text.now ≡ true }
    requires close { length close.now ≤ 2 }
    ensures { IfOk result (Grows bytes.old.items at
        (cond comma (44 ∷ []) [] ++ 34 ∷ (escape text.now ++ close.now)) bytes.new.items) }
{
    make_room(bytes, at, text.len() + close.len() + 2)?;
    Ok(place_quoted(bytes, at, comma, text, close))
}

// The same of any text.
#[inline(never)]
fn put_quoted(
    bytes: &mut Vec<u8>,
    at: usize,
    comma: bool,
    text: &[u8],
    close: &[u8],
) -> Result<usize, AllocError>
    requires { at ≤ length bytes.old.items }
    ensures { IfOk result (Grows bytes.old.items at
        (cond comma (44 ∷ []) [] ++ 34 ∷ (escape text.now ++ close.now)) bytes.new.items) }
{
    let at = put_mark(bytes, at, comma, b'"')?;
    let at = put_escaped(bytes, at, text)?;
    put_plain(bytes, at, close)
}
