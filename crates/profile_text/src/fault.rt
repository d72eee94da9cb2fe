//! Why bytes are no document.

ghost use Rattle.std.specs.Prelude.{◌≡◌, IfOk, string_bytes};
ghost use Rattle.profile_text.specs.FaultText.{fault_text_of};

use crate::place::Place;
use cap_sets::CapFault;
use no_memory::NoMemory;
use seccomp_doc::FilterFault;
use std::alloc::{AllocError, Global};
use std::error::Error;
use std::fmt;
use std::marker::Model;

/// Where in a document a fault stands: a slash and the name of a member or the position of an item,
/// from 0, again and again. Names stand as they are. The whole document is `/`.
#[derive(Debug, Drop)]
pub struct Path {
    text: String,
}

impl Model for Path {
    ghost use Rattle.std.specs.Prelude.{List, ℕ, string_bytes};

    ghost Value = { List ℕ };

    ghost view = { λ path. string_bytes path.text };
}

impl Path {
    ghost use Rattle.std.specs.Prelude.{decimal};
    ghost use Rattle.profile_text.specs.Place.{path_of};
    ghost use Rattle.profile_text.specs.Shape.{below};

    /// The path of this text.
    pub(crate) fn new(alloc: Global, text: &str) -> Result<Path, AllocError>
        ensures { IfOk result (λ path. path ≡ text.now) }
    {
        let text = String::from_str(alloc, text)?;
        Ok(Path { text })
    }

    /// The path of an object.
    pub(crate) fn of(alloc: Global, place: Place) -> Result<Path, AllocError>
        ensures { IfOk result (λ path. path ≡ path_of place) }
    {
        let text = format!(in alloc; "{place}")?;
        Ok(Path { text })
    }

    /// The path of the member of this name.
    pub(crate) fn of_member(alloc: Global, place: Place, name: &str) -> Result<Path, AllocError>
        ensures { IfOk result (λ path. path ≡ below (path_of place) name.now) }
    {
        let text = format!(in alloc; "{place}/{name}")?;
        Ok(Path { text })
    }

    /// The path of the item at this position, in the list that is the member of this name.
    pub(crate) fn of_item(
        alloc: Global,
        place: Place,
        name: &str,
        position: usize,
    ) -> Result<Path, AllocError>
        ensures { IfOk result
            (λ path. path ≡ below (below (path_of place) name.now) (decimal position)) }
    {
        let text = format!(in alloc; "{place}/{name}/{position}")?;
        Ok(Path { text })
    }

    /// Its text.
    pub fn as_str(&self) -> &str
        ensures { result.now ≡ self.now }
    {
        self.text.as_str()
    }
}

/// Why bytes are no document. A document has the first fault in this order: it is too long, it
/// isn't JSON, the first fault of a walk over its values, the fault of its capability sets, that of
/// its filter, its canonical text is too long. Memory may be refused in place of any but the first.
#[derive(Debug, Drop)]
pub enum DocFault {
    /// There are more than 262,144 bytes.
    TooLong,
    /// The bytes are no JSON text: bytes that aren't UTF-8, or lists and objects that nest more
    /// than 127 deep, are none.
    NotJson,
    /// A value is of another kind than its place asks for, or a member that is required isn't
    /// there.
    WrongShape(Path),
    /// The object that it stands in has no such member.
    UnknownMember(Path),
    /// A text is none of the words of its place.
    UnknownWord(Path),
    /// A part of the OCI Runtime Specification that documents here don't have.
    NotInProfile(Path),
    /// A number isn't a whole number from 0 to 2^64 - 1.
    BadNumber(Path),
    /// The five capability sets are no lawful state.
    Caps(CapFault),
    /// The parts of `seccomp` are no filter.
    Filter(FilterFault),
    /// Memory was refused, and never inside `Filter`.
    NoMemory(NoMemory),
    /// The canonical text has more than 262,144 bytes.
    TextTooLong,
}

impl From<AllocError> for DocFault {
    ghost use Rattle.std.specs.Prelude.{◌≡◌};
    ghost use Rattle.profile_text.specs.declared.fault.DocFault.TheVariants.{NoMemory};
    ghost use Rattle.no_memory.specs.Witness.{witness};

    ghost from_gives = { λ _ fault. fault ≡ NoMemory witness };

    fn from(refused: AllocError) -> DocFault {
        DocFault::NoMemory(refused.into())
    }
}

/// The fault's word and what goes with it, as `unknown-member /capabilities/x`.
impl fmt::Display for DocFault {
    ghost use Rattle.std.specs.Prelude.{Some};
    ghost use Rattle.profile_text.specs.FaultText.{fault_text_of};

    ghost output = { λ fault. Some (fault_text_of fault) };

    fn fmt<W: fmt::Write>(&self, f: &mut fmt::Formatter<W>) -> fmt::Result {
        match self {
            DocFault::TooLong => write!(f, "too-long"),
            DocFault::NotJson => write!(f, "not-json"),
            DocFault::WrongShape(path) => write!(f, "wrong-shape {}", path.as_str()),
            DocFault::UnknownMember(path) => write!(f, "unknown-member {}", path.as_str()),
            DocFault::UnknownWord(path) => write!(f, "unknown-word {}", path.as_str()),
            DocFault::NotInProfile(path) => write!(f, "not-in-profile {}", path.as_str()),
            DocFault::BadNumber(path) => write!(f, "bad-number {}", path.as_str()),
            DocFault::Caps(fault) => write!(f, "{fault}"),
            DocFault::Filter(fault) => write!(f, "{fault}"),
            DocFault::NoMemory(_) => write!(f, "memory"),
            DocFault::TextTooLong => write!(f, "text-too-long"),
        }
    }
}

impl Error for DocFault {}

/// The text of a fault: its word and what goes with it, as `unknown-member /capabilities/x`; for
/// `NoMemory` it is `memory`.
pub fn fault_text(alloc: Global, fault: &DocFault) -> Result<String, AllocError>
    ensures { IfOk result (λ text. string_bytes text ≡ fault_text_of fault.now) }
{
    format!(in alloc; "{fault}")
}
