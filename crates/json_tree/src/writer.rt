//! Texts that are written a token at a time.

ghost use Rattle.std.specs.Prelude.{◌≡◌, ◌∷◌, [], IfOk, OnOk, decimal, string_bytes, true};
ghost use Rattle.json.specs.Print.{IsPrintable, ends, print};
ghost use Rattle.json.specs.Reads.{token_of};
ghost use Rattle.json.specs.Token.{begin_array, begin_object, boolean, end_array, end_object};
ghost use Rattle.json.specs.Token.{key, number, string};
ghost use Rattle.json_tree.specs.Plain.{are_plain, quoted_in};
ghost use Rattle.json_tree.specs.Tokens.{Appends};

use crate::token::{put_plain_token, put_token};
use json::Token;
use std::alloc::{AllocError, Global};
use std::marker::Model;

/// A text of JSON with no space, and the tokens of it that were written. It places the commas and the
/// colons, and leaves the nesting to its caller. A call that fails leaves it empty.
#[derive(Drop)]
pub struct Writer {
    // The text, and room behind its end.
    bytes: Vec<u8>,
    end: usize,
    after_value: bool,
}

impl Model for Writer {
    ghost use Rattle.std.specs.Prelude.{List};
    ghost use Rattle.json.specs.Token.{Token, tokens_code};
    ghost use Rattle.json_tree.specs.Writer.{IsWriter, writer_view};

    ghost Value = { List Token };

    ghost coded = { tokens_code };

    ghost view = { writer_view };

    ghost invariant = { IsWriter };
}

impl Writer {
    /// No token.
    pub fn new(alloc: Global) -> Writer
        ensures { result ≡ [] }
    {
        Writer {
            bytes: Vec::new(alloc),
            end: 0,
            after_value: false,
        }
    }

    /// No token, and room for so many bytes before it grows.
    ///
    /// # Errors
    ///
    /// Memory was refused. No contract can say when.
    pub fn with_capacity(alloc: Global, room: usize) -> Result<Writer, AllocError>
        ensures { IfOk result (λ out. out ≡ []) }
    {
        let bytes = Vec::with_capacity(alloc, room)?;
        Ok(Writer {
            bytes,
            end: 0,
            after_value: false,
        })
    }

    // One token more.
    #[inline(always)]
    fn token(&mut self, token: Token<'_>) -> Result<(), AllocError>
        requires { IsPrintable (token_of token) }
        ensures { OnOk result (Appends self.old self.new (token_of token.entry ∷ [])) }
    {
        match put_token(&mut self.bytes, self.end, self.after_value, token) {
            Ok(end) => {
                self.end = end;
                self.after_value = ends_value(token);
                Ok(())
            }
            Err(error) => {
                self.end = 0;
                self.after_value = false;
                Err(error)
            }
        }
    }

    // One token more, of which no byte needs an escape.
    #[inline(always)]
    fn plain_token(&mut self, token: Token<'_>) -> Result<(), AllocError>
        requires printable { IsPrintable (token_of token) }
        requires plain { are_plain (quoted_in (token_of token)) ≡ true }
        ensures { OnOk result (Appends self.old self.new (token_of token.entry ∷ [])) }
    {
        match put_plain_token(&mut self.bytes, self.end, self.after_value, token) {
            Ok(end) => {
                self.end = end;
                self.after_value = ends_value(token);
                Ok(())
            }
            Err(error) => {
                self.end = 0;
                self.after_value = false;
                Err(error)
            }
        }
    }

    /// The beginning of an object.
    ///
    /// # Errors
    ///
    /// Memory was refused. No contract can say when.
    pub fn begin_object(&mut self) -> Result<(), AllocError>
        ensures { OnOk result (Appends self.old self.new (begin_object ∷ [])) }
    {
        self.token(Token::BeginObject)
    }

    /// The end of an object.
    ///
    /// # Errors
    ///
    /// Memory was refused. No contract can say when.
    pub fn end_object(&mut self) -> Result<(), AllocError>
        ensures { OnOk result (Appends self.old self.new (end_object ∷ [])) }
    {
        self.token(Token::EndObject)
    }

    /// The beginning of a list.
    ///
    /// # Errors
    ///
    /// Memory was refused. No contract can say when.
    pub fn begin_array(&mut self) -> Result<(), AllocError>
        ensures { OnOk result (Appends self.old self.new (begin_array ∷ [])) }
    {
        self.token(Token::BeginArray)
    }

    /// The end of a list.
    ///
    /// # Errors
    ///
    /// Memory was refused. No contract can say when.
    pub fn end_array(&mut self) -> Result<(), AllocError>
        ensures { OnOk result (Appends self.old self.new (end_array ∷ [])) }
    {
        self.token(Token::EndArray)
    }

    /// The name of a member.
    ///
    /// # Errors
    ///
    /// Memory was refused. No contract can say when.
    pub fn key(&mut self, name: &str) -> Result<(), AllocError>
        ensures { OnOk result (Appends self.old self.new (key name.now ∷ [])) }
    {
        self.token(Token::Key(name))
    }

    /// A text.
    ///
    /// # Errors
    ///
    /// Memory was refused. No contract can say when.
    pub fn string(&mut self, text: &str) -> Result<(), AllocError>
        ensures { OnOk result (Appends self.old self.new (string text.now ∷ [])) }
    {
        self.token(Token::String(text))
    }

    /// The name of a member, of which no byte needs an escape.
    ///
    /// # Errors
    ///
    /// Memory was refused. No contract can say when.
    #[inline(always)]
    pub fn plain_key(&mut self, name: &str) -> Result<(), AllocError>
        requires { are_plain name.now ≡ true }
        ensures { OnOk result (Appends self.old self.new (key name.now ∷ [])) }
    {
        self.plain_token(Token::Key(name))
    }

    /// A text of which no byte needs an escape.
    ///
    /// # Errors
    ///
    /// Memory was refused. No contract can say when.
    #[inline(always)]
    pub fn plain_string(&mut self, text: &str) -> Result<(), AllocError>
        requires { are_plain text.now ≡ true }
        ensures { OnOk result (Appends self.old self.new (string text.now ∷ [])) }
    {
        self.plain_token(Token::String(text))
    }

    /// A whole number.
    ///
    /// # Errors
    ///
    /// Memory was refused. No contract can say when.
    pub fn u64(&mut self, n: u64) -> Result<(), AllocError>
        ensures { OnOk result (Appends self.old self.new (number (decimal n) ∷ [])) }
    {
        let mut buffer = itoa::Buffer::new();
        self.token(Token::Number(buffer.format(n)))
    }

    /// Whether something holds: `true` or `false`.
    ///
    /// # Errors
    ///
    /// Memory was refused. No contract can say when.
    pub fn bool(&mut self, holds: bool) -> Result<(), AllocError>
        ensures { OnOk result (Appends self.old self.new (boolean holds ∷ [])) }
    {
        self.token(Token::Bool(holds))
    }
}

/// The text of what was written.
pub fn written_text(out: Writer) -> String
    ensures { string_bytes result ≡ print out }
{
    let Writer { mut bytes, end, .. } = out;
    bytes.truncate(end);
    // That the bytes are UTF-8, which the call requires, is proved and not looked at.
    unsafe { String::from_utf8_unchecked(bytes) }
}

// Whether a token is the last of a value.
#[inline(always)]
fn ends_value(token: Token<'_>) -> bool
    ensures { result ≡ ends (token_of token.entry) }
{
    !matches!(
        token,
        Token::BeginObject | Token::BeginArray | Token::Key(_)
    )
}
