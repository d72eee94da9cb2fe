//! The forms of the parameters in a path.

ghost use Rattle.std.specs.Prelude.{◌≡◌, IfOk};
ghost use Rattle.http_requests.specs.Numbers.{revision_number_of};
ghost use Rattle.http_requests.specs.Targets.{name_of, word_of};

use crate::number::decimal;
use office_words::{MAX_REVISIONS, ProfileName, Word, WordFault};
use std::alloc::{AllocError, Global};
use std::str;

// The word that the part is, if it is one.
pub(crate) fn word(alloc: Global, part: &[u8]) -> Result<Option<Word>, AllocError>
    ensures { IfOk result (λ word. word ≡ word_of part.now) }
{
    match str::from_utf8(part) {
        Ok(text) => word_with(alloc, text),
        Err(_) => Ok(None),
    }
}

// The word with this text, if it is one.
fn word_with(alloc: Global, text: &str) -> Result<Option<Word>, AllocError>
    ensures { IfOk result (λ word. word ≡ word_of text.now) }
{
    match Word::new(alloc, text) {
        Ok(word) => Ok(Some(word)),
        Err(WordFault::NotAWord) => Ok(None),
        Err(WordFault::NoMemory(witness)) => Err(witness.into()),
    }
}

// The profile that two parts name, if both are words.
pub(crate) fn name(
    alloc: Global,
    team: &[u8],
    profile: &[u8],
) -> Result<Option<ProfileName>, AllocError>
    ensures { IfOk result (λ name. name ≡ name_of team.now profile.now) }
{
    let Some(team) = word(alloc, team)? else {
        return Ok(None);
    };
    let Some(profile) = word(alloc, profile)? else {
        return Ok(None);
    };
    Ok(Some(ProfileName { team, profile }))
}

// The number of a revision that the part writes: 1 to 9,999 without leading zeros.
pub(crate) fn revision_number(part: &[u8]) -> Option<u32>
    ensures { result ≡ revision_number_of part.now }
{
    if part.is_empty() || part[0] == b'0' {
        return None;
    }
    match decimal(part, MAX_REVISIONS + 1) {
        Some(n) if n <= MAX_REVISIONS => Some(n),
        _ => None,
    }
}
