//! Digests as requests and command lines write them.

ghost use Rattle.std.specs.Prelude.{◌≡◌};
ghost use Rattle.std.specs.List.{list_all};
ghost use Rattle.office_words.specs.Digests.{digest_from_hex, is_lower_digit};

use hex::FromHex;

// Whether a byte is a lower-case hexadecimal digit.
fn is_lower_digit(byte: u8) -> bool
    ensures { result ≡ is_lower_digit byte }
{
    byte.is_ascii_digit() || (byte >= b'a' && byte <= b'f')
}

// Whether each byte is one.
fn has_lower_digits(bytes: &[u8]) -> bool
    ensures { result ≡ list_all is_lower_digit bytes.now }
{
    bytes.iter().all(|byte| is_lower_digit(*byte))
}

/// The 32 bytes that 64 lower-case hexadecimal digits write; none where the text is anything else.
#[tactic(auto, unfolding(crate::specs::Digests::digest_from_hex))]
pub fn digest_from_hex(text: &str) -> Option<[u8; 32]>
    ensures { result ≡ digest_from_hex text.now }
{
    if has_lower_digits(text.as_bytes()) {
        <[u8; 32] as FromHex>::from_hex(text).ok()
    } else {
        None
    }
}
