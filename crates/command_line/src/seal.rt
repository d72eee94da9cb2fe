//! The seal that a line of a journal had, as N:HEX.

ghost use Rattle.std.specs.Prelude.{◌≡◌, IfNone, IfSome, Some};
ghost use Rattle.std.specs.List.{list_all};
ghost use Rattle.command_line.specs.Meaning.{IsKeptSeal, IsNumberIn, IsSealText, is_seal_digit};
ghost use Rattle.command_line.specs.Refusals.{NoKeptSeal, NoNumberIn};

use crate::command::KeptSeal;

// The number of a line, from 1.
fn line_of(text: &str) -> Option<u64>
    ensures number { IfSome result (λ n. IsNumberIn 1 18446744073709551615 n (Some text.now)) }
    ensures none { IfNone result (NoNumberIn 1 18446744073709551615 (Some text.now)) }
{
    match text.parse::<u64>() {
        Ok(0) => None,
        Ok(line) => Some(line),
        Err(_) => None,
    }
}

// Whether a byte is a lower-case hexadecimal digit.
fn is_seal_digit(byte: u8) -> bool
    ensures { result ≡ is_seal_digit byte }
{
    byte.is_ascii_digit() || (byte >= b'a' && byte <= b'f')
}

// Whether each byte is one.
fn has_seal_digits(bytes: &[u8]) -> bool
    ensures { result ≡ list_all is_seal_digit bytes.now }
{
    bytes.iter().all(|byte| is_seal_digit(*byte))
}

// The seal that 64 digits write.
fn seal_of(text: &str) -> Option<[u8; 64]>
    ensures seal { IfSome result (λ seal. (seal ≡ text.now) × IsSealText seal) }
    ensures none { IfNone result (¬ IsSealText text.now) }
{
    let bytes = text.as_bytes();
    if !has_seal_digits(bytes) {
        return None;
    }
    match <[u8; 64]>::try_from(bytes) {
        Ok(seal) => Some(seal),
        Err(_) => None,
    }
}

/// The line and the seal that a text names: a number, a colon, and 64 lower-case hexadecimal
/// digits.
pub(crate) fn kept_seal(text: &str) -> Option<KeptSeal>
    ensures seal { IfSome result (IsKeptSeal text.now) }
    ensures none { IfNone result (NoKeptSeal text.now) }
{
    let (line, seal) = text.split_once(':')?;
    let line = line_of(line)?;
    let seal = seal_of(seal)?;
    Some(KeptSeal { line, seal })
}
