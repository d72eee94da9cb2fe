//! Room for a text that grows: bytes behind its end, which are written over.

ghost use Rattle.std.specs.Prelude.{◌≡◌, ◌+◌, ◌≤◌, OnOk, length, take};

use std::alloc::AllocError;

// What room is made of.
static ZEROS: [u8; 512] = [0; 512];

/// Makes room for so many bytes behind the end of a text.
///
/// # Errors
///
/// Memory was refused, and the text is as it was.
#[inline(always)]
pub(crate) fn make_room(bytes: &mut Vec<u8>, end: usize, more: usize) -> Result<(), AllocError>
    requires { end ≤ length bytes.old.items }
    ensures text { take end bytes.new.items ≡ take end bytes.old.items }
    ensures room { OnOk result (end + more ≤ length bytes.new.items) }
{
    if more <= bytes.len() - end {
        return Ok(());
    }
    grow(bytes, end, more)
}

// Adds bytes until there is room for so many.
#[cold]
#[inline(never)]
fn grow(bytes: &mut Vec<u8>, end: usize, more: usize) -> Result<(), AllocError>
    requires { end ≤ length bytes.old.items }
    ensures text { take end bytes.new.items ≡ take end bytes.old.items }
    ensures room { OnOk result (end + more ≤ length bytes.new.items) }
{
    while bytes.len() - end < more {
        bytes.extend_from_slice(&ZEROS)?;
    }
    Ok(())
}
