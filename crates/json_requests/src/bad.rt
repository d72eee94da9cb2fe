//! The answers to lines that are no requests.

ghost use Rattle.std.specs.Prelude.{◌≡◌, IfOk, OnOk, string_bytes};
ghost use Rattle.json_tree.specs.Tokens.{Appends, tokens_of};
ghost use Rattle.json_requests.specs.Bad.{bad_data, bad_text, bad_word, bad_line};

use crate::write::write_text;
use json_tree::{Writer, written_text};
use std::alloc::{AllocError, Global};

/// Why a line is no request.
#[derive(Clone, Copy)]
pub enum BadLine {
    /// It is longer than a line may be.
    TooLong,
    /// It isn't JSON.
    NotJson,
    /// It is JSON, and not of the form of a request.
    NotARequest,
}

// The answer that names a word as bad.
fn write_bad(out: &mut Writer, word: &str) -> Result<(), AllocError>
    ensures { OnOk result (Appends out.old out.new (tokens_of (bad_data word.now))) }
{
    out.begin_object()?;
    write_text(out, "answer", "bad")?;
    write_text(out, "word", word)?;
    out.end_object()
}

/// The text of the answer that names a word as bad: JSON with no space, its members in byte order.
///
/// # Errors
///
/// Memory was refused. No contract can say when.
#[tactic(auto, unfolding(crate::specs::Bad::bad_text))]
pub fn bad_text(alloc: Global, word: &str) -> Result<String, AllocError>
    ensures { IfOk result (λ text. string_bytes text ≡ bad_text word.now) }
{
    let mut out = Writer::new(alloc);
    write_bad(&mut out, word)?;
    Ok(written_text(out))
}

impl BadLine {
    /// Its word, as answers name it.
    pub fn word(self) -> &'static str
        ensures { result.now ≡ bad_word self }
    {
        match self {
            BadLine::TooLong => "too-long",
            BadLine::NotJson => "not-json",
            BadLine::NotARequest => "not-a-request",
        }
    }

    /// The line that answers it, with its line feed.
    #[tactic(auto, unfolding(crate::specs::Bad::bad_line, crate::specs::Bad::bad_text, serde_json::proofs::OnLiterals::serde_json_on_literals))]
    pub fn line(self) -> &'static str
        ensures { result.now ≡ bad_line self }
    {
        match self {
            BadLine::TooLong => "{\"answer\":\"bad\",\"word\":\"too-long\"}\n",
            BadLine::NotJson => "{\"answer\":\"bad\",\"word\":\"not-json\"}\n",
            BadLine::NotARequest => "{\"answer\":\"bad\",\"word\":\"not-a-request\"}\n",
        }
    }
}
