//! What documents say.

use profile_text::{Document, Profile, fault_text, read, read_with_text};
use review_sheet::findings_text;
use std::alloc::{AllocError, Global};
use std::process::Abort;
use std::test::Fail;
use widening::findings;

/// The canonical text of what a document reads as, or the text of its fault.
pub(crate) fn told(alloc: Global, document: &[u8]) -> Result<String, AllocError> {
    match read_with_text(alloc, document) {
        Ok(Document { text, .. }) => Ok(text),
        Err(fault) => fault_text(alloc, &fault),
    }
}

/// What a document reads as.
pub(crate) fn profile_of(alloc: Global, document: &str) -> Result<Profile, Fail> {
    match read(alloc, document.as_bytes()) {
        Ok(profile) => Ok(profile),
        Err(fault) => Err(Fail::from(fault_text(alloc, &fault)?)),
    }
}

// What a new profile permits more than a baseline, a line each.
fn found(alloc: Global, base: &Profile, new: &Profile) -> Result<String, AllocError> {
    let found = findings(alloc, base, new)?;
    findings_text(alloc, found.as_slice())
}

// The same of documents.
fn found_between(alloc: Global, base: &str, new: &str) -> Result<String, Fail> {
    let base = profile_of(alloc, base)?;
    let new = profile_of(alloc, new)?;
    Ok(found(alloc, &base, &new)?)
}

/// These are the findings of a new document against a baseline, and there are none against itself.
pub(crate) fn assert_found(
    rt: &impl Abort,
    alloc: Global,
    base: &str,
    new: &str,
    text: &str,
) -> Result<(), Fail> {
    assert_eq!(rt; found_between(alloc, base, new)?.as_str(), text);
    assert_eq!(rt; found_between(alloc, new, new)?.as_str(), "");
    Ok(())
}
