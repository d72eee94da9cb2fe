//! Which file something is, and where a name leads.

use no_memory::NoMemory;
use std::alloc::AllocError;
use std::fs;
use std::fs::Metadata;
use std::io::ErrorKind;
use std::os::unix::fs::MetadataExt;
use std::path::Path;

/// Which file something is, by whatever name: its device, and its number there.
#[derive(Clone, Copy, PartialEq)]
pub(crate) struct FileId {
    device: u64,
    number: u64,
}

/// Which file this is of.
pub(crate) fn id_of(found: &Metadata) -> FileId {
    FileId {
        device: found.dev(),
        number: found.ino(),
    }
}

// Where a name leads.
#[derive(Clone, Copy)]
enum Place<'n> {
    // To this file.
    There(FileId),
    // To nothing: what is made there stands in this folder, under this last part of the name.
    Free(FileId, &'n str),
    // That can't be seen, so nothing can be made there.
    Unseen,
}

/// The folder that a name stands in.
pub(crate) fn folder_of(name: &str) -> &str {
    match Path::new(name).parent() {
        Some(folder) if !folder.as_str().is_empty() => folder.as_str(),
        _ => ".",
    }
}

fn place_of<'n>(rt: &HostRuntime, name: &'n str) -> Place<'n> {
    if let Ok(found) = fs::metadata(rt, name) {
        return Place::There(id_of(&found));
    }
    match (
        fs::metadata(rt, folder_of(name)),
        Path::new(name).file_name(),
    ) {
        (Ok(folder), Some(last)) => Place::Free(id_of(&folder), last),
        _ => Place::Unseen,
    }
}

// Whether two names lead, or would lead, to one file.
fn is_one(one: Place<'_>, other: Place<'_>) -> bool {
    match (one, other) {
        (Place::There(one), Place::There(other)) => one == other,
        (Place::Free(one, name), Place::Free(other, also)) => one == other && name == also,
        _ => false,
    }
}

// What SQLite, or the office, makes beside a file.
const BESIDE: [&str; 4] = ["", "-wal", "-journal", "-shm"];

// The name without a link in it; the name itself where nothing is there.
fn real_name(rt: &HostRuntime, name: &str) -> Result<String, AllocError> {
    match fs::canonicalize(rt, name) {
        Ok(real) => String::from_str(rt.alloc(), real.as_str()),
        Err(error) if error.kind() == ErrorKind::OutOfMemory => Err(NoMemory::told().into()),
        Err(_) => String::from_str(rt.alloc(), name),
    }
}

// Whether a name leads where a file is, or what is made beside it.
fn is_at(rt: &HostRuntime, place: Place<'_>, file: &str) -> Result<bool, AllocError> {
    for ending in BESIDE {
        let name = format!(in rt.alloc(); "{file}{ending}")?;
        if is_one(place, place_of(rt, name.as_str())) {
            return Ok(true);
        }
    }
    Ok(false)
}

/// Whether two files are one, or one of them is what is made beside the other, by whatever names. A
/// name that nothing has yet counts as the file that would be made.
///
/// # Errors
///
/// Only where there is no memory.
pub(crate) fn is_one_file(rt: &HostRuntime, one: &str, other: &str) -> Result<bool, AllocError> {
    let one = real_name(rt, one)?;
    let other = real_name(rt, other)?;
    for ending in BESIDE {
        let name = format!(in rt.alloc(); "{one}{ending}")?;
        if is_at(rt, place_of(rt, name.as_str()), other.as_str())? {
            return Ok(true);
        }
    }
    Ok(false)
}
