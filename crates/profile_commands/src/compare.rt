//! The command `compare`.

ghost use Rattle.std.specs.Prelude.{◌≡◌, IfOk, string_bytes};
ghost use Rattle.review_sheet.specs.Review.{findings_text};
ghost use Rattle.widening.specs.Findings.{findings_of};

use crate::fault::FileFault;
use no_memory::NoMemory;
use profile_text::Profile;
use review_sheet::findings_text;
use std::alloc::{AllocError, Global};
use std::fmt;
use streams::Unread;
use widening::findings;

/// Why two documents weren't compared, with the words that the program says on standard error.
#[derive(Drop)]
pub enum ComparedFault {
    /// BASE wasn't read, or is no document: why, which is never out of memory.
    Base(FileFault),
    /// NEW wasn't read, or is no document: why, which is never out of memory.
    New(FileFault),
    /// Memory was refused.
    NoMemory(NoMemory),
}

/// The fault's words behind `base: ` or `new: `, the document that they are of.
impl fmt::Display for ComparedFault {
    ghost use Rattle.std.specs.Prelude.{Some};
    ghost use Rattle.profile_commands.specs.FaultTexts.{compared_fault_text};

    ghost output = { λ fault. Some (compared_fault_text fault) };

    fn fmt<W: fmt::Write>(&self, f: &mut fmt::Formatter<W>) -> fmt::Result {
        match self {
            ComparedFault::Base(fault) => write!(f, "base: {fault}"),
            ComparedFault::New(fault) => write!(f, "new: {fault}"),
            ComparedFault::NoMemory(_) => f.write_str("memory"),
        }
    }
}

impl From<AllocError> for ComparedFault {
    ghost use Rattle.std.specs.Prelude.{◌≡◌};
    ghost use Rattle.profile_commands.specs.declared.compare.ComparedFault.TheVariants.{NoMemory};
    ghost use Rattle.no_memory.specs.Witness.{witness};

    ghost from_gives = { λ _ fault. fault ≡ NoMemory witness };

    fn from(refused: AllocError) -> ComparedFault {
        ComparedFault::NoMemory(refused.into())
    }
}

impl ComparedFault {
    ghost use Rattle.profile_commands.specs.Comparing.{IsToldOfBase, IsToldOfNew};

    /// What is reported where BASE wasn't read.
    pub fn of_base(fault: FileFault) -> ComparedFault
        ensures { IsToldOfBase fault result }
    {
        match fault {
            FileFault::Unread(Unread::NoMemory(witness)) => ComparedFault::NoMemory(witness),
            fault => ComparedFault::Base(fault),
        }
    }

    /// What is reported where NEW wasn't read.
    pub fn of_new(fault: FileFault) -> ComparedFault
        ensures { IsToldOfNew fault result }
    {
        match fault {
            FileFault::Unread(Unread::NoMemory(witness)) => ComparedFault::NoMemory(witness),
            fault => ComparedFault::New(fault),
        }
    }
}

/// What a profile permits more than another, `base`: a line for each finding, in order, in the words
/// of a review sheet. The text is empty where nothing is more permissive.
pub fn compare_profiles(alloc: Global, base: &Profile, new: &Profile) -> Result<String, AllocError>
    ensures { IfOk result (λ text.
        string_bytes text ≡ findings_text (findings_of base.now new.now)) }
{
    let found = findings(alloc, base, new)?;
    findings_text(alloc, found.as_slice())
}
