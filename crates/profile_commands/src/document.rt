//! The document that bytes are.

ghost use Rattle.std.specs.Prelude.{IfOk};
ghost use Rattle.profile_text.specs.Reading.{HasItsText};
ghost use Rattle.profile_commands.specs.Refusal.{IsOfNoJson, IsReadAs};

use crate::fault::FileFault;
use crate::json_place::json_place;
use profile_text::{DocFault, Document, read_with_text};
use std::alloc::Global;

/// How many bytes of a file are read at most: one more than a document may have. Of a longer file
/// these say what all of it would.
pub const MOST_BYTES: usize = 262_145;

// Why bytes that are no JSON text are no document, with the place where it is found.
fn no_json(alloc: Global, bytes: &[u8]) -> FileFault
    ensures { IsOfNoJson result }
{
    match json_place(alloc, bytes) {
        Some(place) => FileFault::NotJson(place),
        None => FileFault::Document(DocFault::NotJson),
    }
}

/// The document that the bytes of a file are: its profile, and its canonical text.
///
/// # Errors
///
/// `NotJson` or `Document` with the first fault of what is no document; `Unread` with `NoMemory`.
pub fn read_document(alloc: Global, bytes: &[u8]) -> Result<Document, FileFault>
    ensures document { IsReadAs bytes.now result }
    ensures text { IfOk result HasItsText }
{
    match read_with_text(alloc, bytes) {
        Ok(document) => Ok(document),
        Err(DocFault::NotJson) => Err(no_json(alloc, bytes)),
        Err(fault) => Err(FileFault::from(fault)),
    }
}
