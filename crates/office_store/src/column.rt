//! The columns of a row, read as what they stand for. A column that stands for nothing is
//! `NotAnOffice`.

ghost use Rattle.std.specs.Prelude.{◌≡◌, ◌≢◌, ◌<◌, ◌^◌, ℕ, Bool, List, true, pos, length};
ghost use Rattle.std.specs.Prelude.{string_bytes};
ghost use Rattle.std.specs.Prelude.{Err, IfOk, IfErr, IsUtf8};
ghost use Rattle.sqlite.specs.declared.types.Value.TheVariants.{Int, Text as SqlText, Blob};
ghost use Rattle.sqlite_value.specs.Order.{column};
ghost use Rattle.office_words.specs.Words.{is_word};
ghost use Rattle.office_words.specs.declared.revision.State.{State as StateValue};
ghost use Rattle.office_rows.specs.Told.{IsOfRow};
ghost use Rattle.office_store.specs.Entries.{bit, state_number};

use office_rows::fault_of_error;
use office_words::{Fault, Roles, State, Text, Word, WordFault};
use sqlite::Row;
use std::alloc::Global;

/// The text of a column.
pub(crate) fn text_at(row: &Row, at: usize) -> Result<String, Fault>
    ensures text { IfOk result (λ text.
        (at < length row.now) × (column row.now at ≡ SqlText (string_bytes text))) }
    ensures formed { (text : List ℕ) → at < length row.now
        → column row.now at ≡ SqlText text → IsUtf8 text
        → result ≢ Err Fault.NotAnOffice }
    ensures cause { IfErr result IsOfRow }
{
    row.get(at).map_err(fault_of_error)
}

/// The word of a column of this number, from 0.
///
/// # Errors
///
/// `NotAnOffice`: the column isn't there, or has something else. `NoMemory`.
#[tactic(auto, using(crate::proofs::Columns::word_is_utf8))]
pub fn word_at(alloc: Global, row: &Row, at: usize) -> Result<Word, Fault>
    ensures word { IfOk result (λ word.
        (at < length row.now) × (column row.now at ≡ SqlText word)) }
    ensures formed { (word : List ℕ) → at < length row.now
        → column row.now at ≡ SqlText word → is_word word ≡ true
        → result ≢ Err Fault.NotAnOffice }
    ensures cause { IfErr result IsOfRow }
{
    let text = text_at(row, at)?;
    match Word::new(alloc, text.as_str()) {
        Ok(word) => Ok(word),
        Err(WordFault::NotAWord) => Err(Fault::NotAnOffice),
        Err(WordFault::NoMemory(witness)) => Err(Fault::NoMemory(witness)),
    }
}

/// The number in a column of this number, from 0.
///
/// # Errors
///
/// `NotAnOffice`: the column isn't there, or has something else. `NoMemory`.
pub fn number_at(row: &Row, at: usize) -> Result<u32, Fault>
    ensures number { IfOk result (λ number.
        (at < length row.now) × (column row.now at ≡ Int (pos number))) }
    ensures formed { (number : ℕ) → at < length row.now
        → column row.now at ≡ Int (pos number) → number < 2 ^ 32
        → result ≢ Err Fault.NotAnOffice }
    ensures cause { IfErr result IsOfRow }
{
    row.get(at).map_err(fault_of_error)
}

/// The truth value of a column, which is 0 or 1.
pub(crate) fn flag_at(row: &Row, at: usize) -> Result<bool, Fault>
    ensures flag { IfOk result (λ flag.
        (at < length row.now) × (column row.now at ≡ Int (bit flag))) }
    ensures formed { (flag : Bool) → at < length row.now → column row.now at ≡ Int (bit flag)
        → result ≢ Err Fault.NotAnOffice }
    ensures cause { IfErr result IsOfRow }
{
    match number_at(row, at)? {
        0 => Ok(false),
        1 => Ok(true),
        _ => Err(Fault::NotAnOffice),
    }
}

/// The digest of a column.
pub(crate) fn digest_at(row: &Row, at: usize) -> Result<[u8; 32], Fault>
    ensures digest { IfOk result (λ digest.
        (at < length row.now) × (column row.now at ≡ Blob digest)) }
    ensures formed { (digest : List ℕ) → at < length row.now
        → column row.now at ≡ Blob digest → length digest ≡ 32
        → result ≢ Err Fault.NotAnOffice }
    ensures cause { IfErr result IsOfRow }
{
    let bytes: Vec<u8> = row.get(at).map_err(fault_of_error)?;
    match <[u8; 32]>::try_from(bytes.as_slice()) {
        Ok(digest) => Ok(digest),
        Err(_) => Err(Fault::NotAnOffice),
    }
}

/// The bytes of a digest.
pub fn bytes_of(digest: &[u8; 32]) -> &[u8]
    ensures same { result.now ≡ digest.now }
    ensures long { length digest.now ≡ 32 }
{
    digest.as_slice()
}

/// The roles of a column.
pub(crate) fn roles_at(row: &Row, at: usize) -> Result<Roles, Fault>
    ensures roles { IfOk result (λ roles.
        (at < length row.now) × (column row.now at ≡ Int (pos roles))) }
    ensures formed { (roles : ℕ) → at < length row.now
        → column row.now at ≡ Int (pos roles) → roles < 64
        → result ≢ Err Fault.NotAnOffice }
    ensures cause { IfErr result IsOfRow }
{
    let bits = number_at(row, at)?;
    if bits >= 64 {
        return Err(Fault::NotAnOffice);
    }
    match Roles::from_bits(bits as u8) {
        Some(roles) => Ok(roles),
        None => Err(Fault::NotAnOffice),
    }
}

/// The state of a column.
pub(crate) fn state_at(row: &Row, at: usize) -> Result<State, Fault>
    ensures state { IfOk result (λ state.
        (at < length row.now) × (column row.now at ≡ Int (pos (state_number state)))) }
    ensures formed { (state : StateValue) → at < length row.now
        → column row.now at ≡ Int (pos (state_number state))
        → result ≢ Err Fault.NotAnOffice }
    ensures cause { IfErr result IsOfRow }
{
    match number_at(row, at)? {
        0 => Ok(State::Open),
        1 => Ok(State::Closed),
        2 => Ok(State::Issued),
        3 => Ok(State::Replaced),
        4 => Ok(State::Withdrawn),
        _ => Err(Fault::NotAnOffice),
    }
}
