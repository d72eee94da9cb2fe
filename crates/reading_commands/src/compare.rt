//! `compare`: what one document permits more than another.

ghost use Rattle.std.specs.Prelude.{IfErr, IfOk};
ghost use Rattle.reading_commands.specs.Documents.{file_of, IsDocumentIn, WereCompared};
ghost use Rattle.reading_commands.specs.DocumentFailures.{HasNoDocument, IsUncompared};

use crate::document_bytes::document_bytes;
use command_host::PassFiles;
use profile_commands::{ComparedFault, FileFault, compare_profiles, read_document};
use profile_text::Document;
use std::alloc::Global;

// The document in the file that a word names.
fn document_at<F: PassFiles>(files: &F, alloc: Global, word: &str) -> Result<Document, FileFault>
    ensures document { IfOk result (λ document.
        IsDocumentIn (F.opens files.now (file_of word.now)) F.File.remaining document.profile) }
    ensures none { IfErr result (HasNoDocument (F.opens files.now (file_of word.now)) F.gives
        F.File.remaining) }
{
    let bytes = document_bytes(files, alloc, word)?;
    read_document(alloc, &bytes)
}

/// What the document in the file that `new` names permits more than that in the file that `base` names,
/// a line for each finding. BASE is read first, and NEW isn't where BASE is refused.
pub(crate) fn compare_files<F: PassFiles>(
    files: &F,
    alloc: Global,
    base: &str,
    new: &str,
) -> Result<String, ComparedFault>
    ensures compared { IfOk result (WereCompared (F.opens files.now) F.File.remaining
        base.now new.now) }
    ensures failed { IfErr result (IsUncompared (F.opens files.now) F.gives F.File.remaining
        base.now new.now) }
{
    let base = match document_at(files, alloc, base) {
        Ok(document) => document,
        Err(fault) => return Err(ComparedFault::of_base(fault)),
    };
    let new = match document_at(files, alloc, new) {
        Ok(document) => document,
        Err(fault) => return Err(ComparedFault::of_new(fault)),
    };
    let text = compare_profiles(alloc, &base.profile, &new.profile)?;
    Ok(text)
}
