//! Writing bytes at a place among others. A short text is two copies of a fixed size that overlap.

ghost use Rattle.std.specs.Prelude.{◌≡◌, ◌+◌, ◌<◌, ◌≤◌, [], ◌∷◌, ◌++◌, cond, length, take};
ghost use Rattle.json.specs.Filled.{Placed};

use std::simd::Simd;

/// Writes a byte, and gives the place behind it.
#[inline(always)]
pub(crate) fn place_byte(bytes: &mut [u8], at: usize, byte: u8) -> usize
    requires { at < length bytes.old }
    ensures { Placed bytes.old bytes.new at (byte ∷ []) result }
{
    bytes[at] = byte;
    at + 1
}

/// Writes a comma, which counts only where it is wanted, and gives the place behind it.
#[inline(always)]
pub(crate) fn place_comma(bytes: &mut [u8], at: usize, comma: bool) -> usize
    requires { at < length bytes.old }
    ensures { Placed bytes.old bytes.new at (cond comma (44 ∷ []) []) result }
{
    bytes[at] = b',';
    if comma { at + 1 } else { at }
}

/// Writes a text behind a quote, and what closes it, and gives the place behind all.
#[inline(always)]
pub(crate) fn place_quoted(
    bytes: &mut [u8],
    at: usize,
    comma: bool,
    text: &[u8],
    close: &[u8],
) -> usize
    requires { at + length text.now + length close.now + 2 ≤ length bytes.old }
    ensures { Placed bytes.old bytes.new at
        (cond comma (44 ∷ []) [] ++ 34 ∷ (text.now ++ close.now)) result }
{
    let at = place_comma(bytes, at, comma);
    let at = place_byte(bytes, at, b'"');
    let at = place_text(bytes, at, text);
    place_text(bytes, at, close)
}

/// Writes a text, and gives the place behind it.
#[inline(always)]
pub(crate) fn place_text(bytes: &mut [u8], at: usize, text: &[u8]) -> usize
    requires { at + length text.now ≤ length bytes.old }
    ensures { Placed bytes.old bytes.new at text.now result }
{
    let len = text.len();
    if len > 32 {
        place_slice(bytes, at, text)
    } else if len >= 16 {
        place_ends::<16>(bytes, at, text)
    } else if len >= 8 {
        place_ends::<8>(bytes, at, text)
    } else if len >= 4 {
        place_ends::<4>(bytes, at, text)
    } else if len >= 2 {
        place_ends::<2>(bytes, at, text)
    } else if len == 1 {
        place_byte(bytes, at, text[0])
    } else {
        at
    }
}

fn place_slice(bytes: &mut [u8], at: usize, text: &[u8]) -> usize
    requires { at + length text.now ≤ length bytes.old }
    ensures { Placed bytes.old bytes.new at text.now result }
{
    let end = at + text.len();
    bytes[at..end].copy_from_slice(text);
    end
}

// Writes the first and the last N bytes of a text, which are all of it.
#[inline(always)]
fn place_ends<const N: usize>(bytes: &mut [u8], at: usize, text: &[u8]) -> usize
    requires fits { at + length text.now ≤ length bytes.old }
    requires covers { (N ≤ length text.now) × (length text.now ≤ N + N) }
    ensures { Placed bytes.old bytes.new at text.now result }
{
    let last = text.len() - N;
    place_front::<N>(bytes, at, text);
    place_front::<N>(bytes, at + last, &text[last..])
}

// Writes the first N bytes of a text.
#[inline(always)]
fn place_front<const N: usize>(bytes: &mut [u8], at: usize, text: &[u8]) -> usize
    requires { (N ≤ length text.now) × (at + N ≤ length bytes.old) }
    ensures { Placed bytes.old bytes.new at (take N text.now) result }
{
    Simd::<u8, N>::from_slice(text).copy_to_slice(&mut bytes[at..]);
    at + N
}
