//! The reader of documents.

ghost use Rattle.std.specs.Prelude.{◌≡◌, ◌<◌, [], length, Err, IfOk};
ghost use Rattle.json_tree.specs.View.{members_view, view};
ghost use Rattle.profile_text.specs.Document.{document_faults, document_rows};
ghost use Rattle.profile_text.specs.Reading.{Gives, GivesAs, HasItsText, if_short, most_bytes};
ghost use Rattle.profile_text.specs.Reading.{profile_of, reading_of, stored_reading_of};
ghost use Rattle.profile_text.specs.Reading.{unless_faulty};
ghost use Rattle.profile_text.specs.Reads.{Reads};
ghost use Rattle.profile_text.specs.Parts.{document_parts, found_in, parts_of};
ghost use Rattle.profile_text.specs.Shape.{object_faults};

use crate::canonical::print;
use crate::capabilities::capabilities_of;
use crate::fault::{DocFault, Path};
use crate::filter::{filter_of, seccomp_of};
use crate::members::{FromMembers, with_members};
use crate::place::Place;
use crate::profile::Profile;
use crate::sets::Sets;
use json_tree::{ReadFault, Scratch, Tree};
use seccomp_doc::FilterParts;
use std::alloc::Global;

// How many bytes a document may have, and its canonical text.
const MOST_BYTES: usize = 262_144;

/// A document that was read.
#[derive(Drop)]
pub struct Document {
    /// What it stands for.
    pub profile: Profile,
    /// The canonical text of the profile, as `print` writes it.
    pub text: String,
}

// What the members of a document give, where they are there.
#[derive(Drop)]
pub(crate) struct Found {
    sets: Option<Sets>,
    filter: Option<FilterParts>,
}

// What a document names: five sets, and the parts of a filter, where it has one.
#[derive(Drop)]
pub(crate) struct Parts {
    sets: Sets,
    filter: Option<FilterParts>,
}

impl FromMembers for Found {
    ghost use Rattle.std.specs.Prelude.{[]};
    ghost use Rattle.profile_text.specs.declared.document.Found.{Found};
    ghost use Rattle.profile_text.specs.Document.{document_rows};
    ghost use Rattle.profile_text.specs.Parts.{found_with};

    type At = ();

    ghost Seen = { Found };

    ghost seen = { λ found. found };

    ghost path = { λ _. [] };

    ghost rows = { document_rows };

    ghost with_member = { found_with };

    fn take_member(
        &mut self,
        alloc: Global,
        _document: (),
        name: &str,
        value: &Tree<'_>,
    ) -> Result<(), DocFault> {
        if name == "capabilities" {
            let sets = capabilities_of(alloc, value)?;
            self.sets = Some(sets);
            Ok(())
        } else if name == "seccomp" {
            let filter = seccomp_of(alloc, value)?;
            self.filter = filter;
            Ok(())
        } else {
            Err(DocFault::UnknownMember(Path::of_member(alloc, Place::Document, name)?))
        }
    }
}

// The parts of the members, of which `capabilities` is required.
fn parts_in(alloc: Global, members: &[(&str, Tree<'_>)]) -> Result<Parts, DocFault>
    ensures { Gives result (unless_faulty
        (object_faults document_rows [] (members_view members.now))
        (parts_of (found_in (members_view members.now)))) }
{
    let start = Found {
        sets: None,
        filter: None,
    };
    let Found { sets, filter } = with_members(alloc, (), start, members)?;
    match sets {
        Some(sets) => Ok(Parts { sets, filter }),
        None => Err(DocFault::WrongShape(Path::of(alloc, Place::Capabilities)?)),
    }
}

// The parts of a document.
#[tactic(auto, unfolding(crate::specs::Document::document_faults, crate::specs::Parts::document_parts))]
fn parts_of(alloc: Global, value: &Tree<'_>) -> Result<Parts, DocFault>
    ensures { Gives result (unless_faulty
        (document_faults (view value.now))
        (document_parts (view value.now))) }
{
    match value {
        Tree::Object(members) => parts_in(alloc, members),
        _ => Err(DocFault::WrongShape(Path::new(alloc, "/")?)),
    }
}

// A profile with its canonical text, where that is short enough.
fn with_text(alloc: Global, profile: Profile) -> Result<Document, DocFault>
    ensures reading { GivesAs (λ document. document.profile) result (if_short profile) }
    ensures text { IfOk result HasItsText }
{
    let text = print(alloc, &profile)?;
    if text.len() > MOST_BYTES {
        return Err(DocFault::TextTooLong);
    }
    Ok(Document { profile, text })
}

// The profile of a JSON value.
#[tactic(auto, unfolding(crate::specs::Reading::profile_of))]
fn profile_of(alloc: Global, value: &Tree<'_>) -> Result<Profile, DocFault>
    ensures { Gives result (profile_of (view value.now)) }
{
    let Parts { sets, filter } = parts_of(alloc, value)?;
    match sets.state() {
        Ok(caps) => {
            let filter = filter_of(alloc, filter)?;
            Ok(Profile::new(caps, filter))
        }
        Err(fault) => Err(DocFault::Caps(fault)),
    }
}

/// Reads a canonical text that was kept since its document was read: its profile, or its first
/// fault in the order of `DocFault`. It prints nothing, so it never answers `TextTooLong`.
///
/// # Errors
///
/// Each other fault of `DocFault`; `NoMemory` is answered where memory is refused, and never for
/// `TooLong`.
pub fn read_stored(alloc: Global, bytes: &[u8]) -> Result<Profile, DocFault>
    ensures reading { Gives result (stored_reading_of bytes.now) }
    ensures too_long { most_bytes < length bytes.now → result ≡ Err DocFault.TooLong }
{
    if bytes.len() > MOST_BYTES {
        return Err(DocFault::TooLong);
    }
    let mut scratch = Scratch::new(alloc);
    match Tree::from_slice(alloc, bytes, &mut scratch) {
        Ok(value) => profile_of(alloc, &value),
        Err(ReadFault::NotJson) => Err(DocFault::NotJson),
        Err(ReadFault::NoMemory(witness)) => Err(DocFault::NoMemory(witness)),
    }
}

/// Reads a document: its profile with its canonical text, or its first fault in the order of
/// `DocFault`.
///
/// # Errors
///
/// Each fault of `DocFault`; `NoMemory` is answered where memory is refused, and never for `TooLong`.
#[tactic(auto, unfolding(crate::specs::Reading::reading_of))]
pub fn read_with_text(alloc: Global, bytes: &[u8]) -> Result<Document, DocFault>
    ensures reading { GivesAs (λ document. document.profile) result (reading_of bytes.now) }
    ensures stands { IfOk result (λ document. Reads bytes.now document.profile) }
    ensures text { IfOk result HasItsText }
    ensures too_long { most_bytes < length bytes.now → result ≡ Err DocFault.TooLong }
{
    let profile = read_stored(alloc, bytes)?;
    with_text(alloc, profile)
}

/// Reads a document: its profile, or its first fault in the order of `DocFault`.
///
/// # Errors
///
/// Each fault of `DocFault`; `NoMemory` is answered where memory is refused, and never for `TooLong`.
pub fn read(alloc: Global, bytes: &[u8]) -> Result<Profile, DocFault>
    ensures reading { Gives result (reading_of bytes.now) }
    ensures stands { IfOk result (Reads bytes.now) }
    ensures too_long { most_bytes < length bytes.now → result ≡ Err DocFault.TooLong }
{
    read_with_text(alloc, bytes).map(|document| document.profile)
}
