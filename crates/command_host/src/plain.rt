//! Texts as they are said to people.

ghost use Rattle.std.specs.Prelude.{◌≡◌, ◌++◌, IfOk, OnOk, string_bytes};
ghost use Rattle.command_host.specs.Plain.{is_bidirectional, is_escaped, plain, plain_char};
ghost use Rattle.command_host.specs.Plain.{plain_lines, plain_or_end, IsPlain};

use std::alloc::{AllocError, Global};

// Whether a character sets the direction in which a text is shown, as RIGHT-TO-LEFT OVERRIDE.
fn is_bidirectional(c: char) -> bool
    ensures { result ≡ is_bidirectional c }
{
    matches!(c, '\u{202a}'..='\u{202e}' | '\u{2066}'..='\u{2069}')
}

// Whether a character stands as its escape.
fn is_escaped(c: char) -> bool
    ensures { result ≡ is_escaped c }
{
    c.is_control() || is_bidirectional(c)
}

// Adds a character to a text, or its escape where it controls a terminal or the direction of a text.
fn push_plain(alloc: Global, text: &mut String, c: char) -> Result<(), AllocError>
    ensures { OnOk result (string_bytes text.new ≡ string_bytes text.old ++ plain_char c) }
{
    if is_escaped(c) {
        let code = c as u32;
        let escape = format!(in alloc; "\\u{:02x}{:02x}", code / 256, code % 256)?;
        text.push_str(escape.as_str())
    } else {
        text.push(c)
    }
}

/// A text as it is said to people. What would control a terminal, or the direction of a text, stands as
/// `\u` and four hexadecimal digits, as `\u001b` for ESC.
pub fn plain_text(alloc: Global, text: &str) -> Result<String, AllocError>
    ensures bytes { IfOk result (λ said. string_bytes said ≡ plain text.now) }
    ensures plain { IfOk result (λ said. IsPlain (string_bytes said)) }
{
    let mut said = String::with_capacity(alloc, text.len())?;
    for c in text.chars() {
        push_plain(alloc, &mut said, c)?;
    }
    Ok(said)
}

// Adds a character of a text of lines.
fn push_in_lines(alloc: Global, text: &mut String, c: char) -> Result<(), AllocError>
    ensures { OnOk result (string_bytes text.new ≡ string_bytes text.old ++ plain_or_end c) }
{
    if c == '\n' {
        text.push(c)
    } else {
        push_plain(alloc, text, c)
    }
}

/// A text of lines as it is said to people: the line feeds that end them stay.
pub fn plain_lines(alloc: Global, text: &str) -> Result<String, AllocError>
    ensures { IfOk result (λ said. string_bytes said ≡ plain_lines text.now) }
{
    let mut said = String::with_capacity(alloc, text.len())?;
    for c in text.chars() {
        push_in_lines(alloc, &mut said, c)?;
    }
    Ok(said)
}
