//! What a torn write may leave behind a journal.

use crate::left::{AllTold, Remains};
use crate::runs::{FOUNDING, Stopping, Third, founded, stop_once, whole_journal};
use std::alloc::Global;
use std::test::Fail;
use stopping_offices::course::requests_of;
use stopping_offices::files::ENDLESS;

// So many bytes without a pattern.
fn noise(alloc: Global, seed: u64, count: usize) -> Result<Vec<u8>, Fail> {
    let mut bytes = Vec::new(alloc);
    let mut state = seed;
    for _ in 0..count {
        state = state
            .wrapping_mul(6_364_136_223_846_793_005)
            .wrapping_add(1_442_695_040_888_963_407);
        bytes.push((state >> 56) as u8)?;
    }
    Ok(bytes)
}

// The line that stands in a journal behind these bytes, which it begins with; none where none does.
fn next_line<'a>(journal: &'a [u8], before: &[u8]) -> &'a [u8] {
    if !journal.starts_with(before) {
        return b"";
    }
    let rest = journal.get(before.len()..).unwrap_or(b"");
    match rest.iter().position(|byte| *byte == b'\n') {
        Some(end) => rest.get(..end.saturating_add(1)).unwrap_or(b""),
        None => b"",
    }
}

// What may stand behind a journal where the write of this line was torn: zeros, anything else, either half of it, and all of it but for
// a byte; and a line that is sealed elsewhere.
fn torn(alloc: Global, line: &[u8], seed: u64) -> Result<[Vec<u8>; 6], Fail> {
    let half = line.len() / 2;
    let (first, second) = line.split_at_checked(half).unwrap_or((b"", b""));
    let mut holed = vec![in alloc; 0; half]?;
    holed.extend_from_slice(second)?;
    let mut other = Vec::from_slice(alloc, line)?;
    if let Some(byte) = other.get_mut(half) {
        *byte ^= 1;
    }
    Ok([
        vec![in alloc; 0; 700]?,
        noise(alloc, seed, 900)?,
        Vec::from_slice(alloc, first)?,
        holed,
        other,
        Vec::from_slice(alloc, FOUNDING.as_bytes())?,
    ])
}

// Puts what a torn write may leave behind what is left of a journal, and looks that it is cut off. Gives how often.
fn tear(
    alloc: Global,
    told: &mut AllTold,
    remains: &Remains,
    journal: &[u8],
    seed: u64,
) -> Result<u64, Fail> {
    let at = remains.expect_told(alloc, told, b"")?;
    let mut tried = 0u64;
    for behind in torn(alloc, next_line(journal, &remains.journal), seed)? {
        if remains.expect_told(alloc, told, &behind)? != at {
            return Err(Fail::from((seed, behind)));
        }
        tried = tried.saturating_add(1);
    }
    Ok(tried)
}

/// Stops the journal before each of its calls in turn and after the last, while these lines are answered, and puts behind what is left
/// what a torn write may leave there; gives how often. It fails as [`stops`](crate::runs::stops) does, and where that isn't cut off.
pub fn torn_ends(alloc: Global, lines: &str) -> Result<u64, Fail> {
    let founded = founded(alloc, "")?;
    let requests = requests_of(alloc, lines)?;
    let journal = whole_journal(alloc, &founded, &requests)?;
    let mut told = AllTold::new(alloc);
    let mut tried = 0u64;
    for calls in 0..ENDLESS {
        let stopping = Stopping {
            file: Third::Journal,
            calls,
        };
        let (left, is_reached) = stop_once(alloc, &founded, stopping, &requests)?;
        if !is_reached {
            return Ok(tried);
        }
        for remains in left {
            let more = tear(alloc, &mut told, &remains, &journal, calls)?;
            tried = tried.saturating_add(more);
        }
    }
    Err(Fail::from("a run without a stop"))
}
