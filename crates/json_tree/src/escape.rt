//! What stands within the quotes of a string.

ghost use Rattle.std.specs.Prelude.{◌≡◌, ℕ, ◌+◌, ◌-◌, ◌<◌, ◌≤◌, ◌++◌, IfOk, MatchOption, drop, length};
ghost use Rattle.std.specs.Prelude.{map, take};
ghost use Rattle.std.specs.Char.{digit_char};
ghost use Rattle.std.specs.List.{prefix_len};
ghost use Rattle.std.specs.Simd.Lanes.{mask_l};
ghost use Rattle.json.specs.Print.{escape, escape_byte, escape_letter};
ghost use Rattle.json.specs.Run.{is_plain, is_stop};
ghost use Rattle.json_tree.specs.Grows.{Grows};

use crate::place::place_text;
use crate::room::make_room;
use std::alloc::AllocError;
use std::simd::prelude::*;

// How many bytes are looked at, and copied, at once.
const BLOCK: usize = 16;

// The room for a block's escape, and for a block that is copied behind it.
const ROOM: usize = 7 * BLOCK;

/// Writes a text behind another as it stands within quotes, and gives the place behind it.
///
/// # Errors
///
/// Memory was refused.
pub(crate) fn put_escaped(bytes: &mut Vec<u8>, at: usize, text: &[u8]) -> Result<usize, AllocError>
    requires { at ≤ length bytes.old.items }
    ensures { IfOk result (Grows bytes.old.items at (escape text.now) bytes.new.items) }
{
    if text.len() < BLOCK && at >= BLOCK {
        if let Some(end) = put_short(bytes, at, text)? {
            return Ok(end);
        }
    }
    put_blocks(bytes, at, text)
}

// The same, a block at a time.
#[inline(never)]
fn put_blocks(bytes: &mut Vec<u8>, start: usize, text: &[u8]) -> Result<usize, AllocError>
    requires { start ≤ length bytes.old.items }
    ensures { IfOk result (Grows bytes.old.items start (escape text.now) bytes.new.items) }
{
    let mut at = start;
    let mut done = 0;
    while text.len() - done >= 2 * BLOCK {
        at = put_block(bytes, at, text, done)?;
        done += BLOCK;
    }
    while done < text.len() {
        let stop = plain_end(text, done);
        at = put_plain(bytes, at, &text[done..stop])?;
        done = stop;
        if done < text.len() {
            at = put_byte(bytes, at, text[done])?;
            done += 1;
        }
    }
    Ok(at)
}

// Writes a text shorter than a block, if no byte of it needs an escape, and gives the place behind
// it. The bytes are looked at where they then stand, at the end of a whole block.
#[inline(always)]
fn put_short(bytes: &mut Vec<u8>, at: usize, text: &[u8]) -> Result<Option<usize>, AllocError>
    requires within { at ≤ length bytes.old.items }
    requires short { (length text.now < 16) × (16 ≤ at) }
    ensures put { IfOk result (λ put. MatchOption put
        ((take at bytes.new.items ≡ take at bytes.old.items) × (at ≤ length bytes.new.items))
        (Grows bytes.old.items at (escape text.now) bytes.new.items)) }
{
    make_room(bytes, at, text.len())?;
    let end = place_text(bytes, at, text);
    let found = stops(u8x16::from_slice(&bytes[end - BLOCK..]));
    if found >> (BLOCK - text.len()) == 0 {
        return Ok(Some(end));
    }
    Ok(None)
}

// Writes a text as it is.
#[inline(always)]
pub(crate) fn put_plain(bytes: &mut Vec<u8>, at: usize, text: &[u8]) -> Result<usize, AllocError>
    requires { at ≤ length bytes.old.items }
    ensures { IfOk result (Grows bytes.old.items at text.now bytes.new.items) }
{
    make_room(bytes, at, text.len())?;
    Ok(place_text(bytes, at, text))
}

// Where the bytes from a place on that need no escape end.
#[inline(always)]
fn plain_end(text: &[u8], at: usize) -> usize
    requires { at ≤ length text.now }
    ensures plain { escape (drop at text.now)
        ≡ take (result - at) (drop at text.now) ++ escape (drop result text.now) }
    ensures bounds { (at ≤ result) × (result ≤ length text.now) }
{
    let mut end = at + plain_block(text, at);
    while end < text.len() && is_plain(text[end]) {
        end += 1;
    }
    end
}

// The length of the block at a place if no byte of it needs an escape, and else 0.
#[inline(always)]
fn plain_block(text: &[u8], at: usize) -> usize
    requires { at ≤ length text.now }
    ensures plain { result ≡ prefix_len is_plain (take result (drop at text.now)) }
    ensures bound { at + result ≤ length text.now }
{
    if text.len() - at < BLOCK {
        return 0;
    }
    let found = stops(u8x16::from_slice(&text[at..]));
    if found == 0 { BLOCK } else { 0 }
}

// Whether a byte needs no escape.
#[inline(always)]
fn is_plain(byte: u8) -> bool
    ensures { result ≡ is_plain byte }
{
    !(byte == b'"' || byte == b'\\' || byte < 0x20)
}

// Writes the block from a place of the text on, given that a whole one follows it.
#[inline(always)]
fn put_block(bytes: &mut Vec<u8>, at: usize, text: &[u8], start: usize) -> Result<usize, AllocError>
    requires within { at ≤ length bytes.old.items }
    requires block { start + 32 ≤ length text.now }
    ensures escaped { IfOk result (λ end. take end bytes.new.items ++ escape (drop (start + 16) text.now)
        ≡ take at bytes.old.items ++ escape (drop start text.now)) }
    ensures within { IfOk result (λ end. end ≤ length bytes.new.items) }
{
    make_room(bytes, at, ROOM)?;
    let found = stops(u8x16::from_slice(&text[start..]));
    Ok(write_block(bytes, at, text, start, found))
}

// Writes such a block into room, and gives the place behind it.
#[inline(always)]
fn write_block(room: &mut [u8], at: usize, text: &[u8], start: usize, mut found: u64) -> usize
    requires block { start + 32 ≤ length text.now }
    requires stops { found ≡ mask_l (map is_stop (take 16 (drop start text.now))) }
    requires room { at + 112 ≤ length room.old }
    ensures escaped { take result room.new ++ escape (drop (start + 16) text.now)
        ≡ take at room.old ++ escape (drop start text.now) }
    ensures within { result ≤ length room.new }
{
    let stop = start + BLOCK;
    let mut from = start;
    let mut used = at;
    while found != 0 {
        let plain = found.trailing_zeros() as usize;
        copy_block(room, used, text, from);
        used += plain;
        used += write_byte(room, used, text[from + plain]);
        found >>= plain + 1;
        from += plain + 1;
    }
    copy_block(room, used, text, from);
    used + (stop - from)
}

// Copies a block, of which the first bytes may be kept.
#[inline(always)]
fn copy_block(room: &mut [u8], used: usize, text: &[u8], at: usize)
    requires block { at + 16 ≤ length text.now }
    requires room { used + 16 ≤ length room.old }
    ensures copied { (n : ℕ) → n ≤ 16
        → take (used + n) room.new ≡ take used room.old ++ take n (drop at text.now) }
    ensures len { length room.new ≡ length room.old }
{
    u8x16::from_slice(&text[at..]).copy_to_slice(&mut room[used..]);
}

// Writes what stands for a byte, and counts the bytes written.
#[inline(always)]
#[tactic(auto, unfolding(json::specs::Print::escape_byte))]
fn write_byte(room: &mut [u8], used: usize, byte: u8) -> usize
    requires { used + 6 ≤ length room.old }
    ensures written { take (used + result) room.new ≡ take used room.old ++ escape_byte byte }
    ensures len { length room.new ≡ length room.old }
    ensures few { result ≤ 6 }
    ensures within { used + result ≤ length room.new }
{
    // Most of what needs an escape is a quote.
    if byte == b'"' {
        return write(room, used, &[b'\\', byte]);
    }
    write_rare(room, used, byte)
}

// The same, for any byte.
#[cold]
#[inline(never)]
#[tactic(auto, unfolding(json::specs::Print::escape_byte))]
fn write_rare(room: &mut [u8], used: usize, byte: u8) -> usize
    requires { used + 6 ≤ length room.old }
    ensures written { take (used + result) room.new ≡ take used room.old ++ escape_byte byte }
    ensures len { length room.new ≡ length room.old }
    ensures few { result ≤ 6 }
    ensures within { used + result ≤ length room.new }
{
    let letter = letter(byte);
    if letter > 0 {
        return write(room, used, &[b'\\', letter]);
    }
    if byte < 0x20 {
        return write(
            room,
            used,
            &[b'\\', b'u', b'0', b'0', digit(byte / 16), digit(byte % 16)],
        );
    }
    write(room, used, &[byte])
}

// Writes bytes, and counts them.
#[inline(always)]
fn write(room: &mut [u8], used: usize, bytes: &[u8]) -> usize
    requires { used + length bytes.now ≤ length room.old }
    ensures written { take (used + length bytes.now) room.new ≡ take used room.old ++ bytes.now }
    ensures len { length room.new ≡ length room.old }
    ensures count { result ≡ length bytes.now }
{
    room[used..used + bytes.len()].copy_from_slice(bytes);
    bytes.len()
}

// A bit for each byte that needs an escape.
#[inline(always)]
fn stops(block: u8x16) -> u64
    ensures { result ≡ mask_l (map is_stop block) }
{
    (block.simd_eq(u8x16::splat(b'"'))
        | block.simd_eq(u8x16::splat(b'\\'))
        | block.simd_lt(u8x16::splat(0x20))).to_bitmask()
}

// Writes what stands for a byte, and gives the place behind it.
#[inline(always)]
fn put_byte(bytes: &mut Vec<u8>, at: usize, byte: u8) -> Result<usize, AllocError>
    requires { at ≤ length bytes.old.items }
    ensures { IfOk result (Grows bytes.old.items at (escape_byte byte) bytes.new.items) }
{
    make_room(bytes, at, 6)?;
    Ok(at + write_byte(bytes, at, byte))
}

// The letter of a byte's short escape, or 0.
#[inline(always)]
fn letter(byte: u8) -> u8
    ensures { result ≡ escape_letter byte }
{
    match byte {
        b'"' | b'\\' => byte,
        8 => b'b',
        12 => b'f',
        b'\n' => b'n',
        b'\r' => b'r',
        b'\t' => b't',
        _ => 0,
    }
}

// A hexadecimal digit.
fn digit(n: u8) -> u8
    requires { n < 16 }
    ensures { result ≡ digit_char n }
{
    if n < 10 { b'0' + n } else { b'a' - 10 + n }
}
