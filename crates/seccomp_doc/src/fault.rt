//! Why parts are no filter.

use crate::call_name::CallName;
use no_memory::NoMemory;
use std::alloc::AllocError;
use std::error::Error;
use std::fmt;

/// Why parts are no filter.
#[derive(Debug, Drop)]
pub enum FilterFault {
    /// An entry has no name.
    NoNames,
    /// A name isn't 1 to 64 of a-z, 0-9 and underscore.
    BadCallName,
    /// An index is above 5.
    BadIndex,
    /// An index stands twice in one entry.
    IndexTwice,
    /// An error number stands with an action that takes none.
    ErrnoNotTaken,
    /// An error number is above 65,535.
    ErrnoTooLarge,
    /// Two entries have this name under different actions.
    TwoActions(CallName),
    /// A count is above its limit.
    TooMany,
    /// Memory was refused.
    NoMemory(NoMemory),
}

impl From<AllocError> for FilterFault {
    ghost use Rattle.std.specs.Prelude.{◌≡◌};
    ghost use Rattle.seccomp_doc.specs.declared.fault.FilterFault.TheVariants.{NoMemory};
    ghost use Rattle.no_memory.specs.Witness.{witness};

    ghost from_gives = { λ _ e. e ≡ NoMemory witness };

    fn from(refused: AllocError) -> FilterFault {
        FilterFault::NoMemory(refused.into())
    }
}

/// The fault's word, and the call that has two actions, as `two-actions read`.
impl fmt::Display for FilterFault {
    ghost use Rattle.std.specs.Prelude.{Some};
    ghost use Rattle.seccomp_doc.specs.FaultText.{filter_fault_text};

    ghost output = { λ fault. Some (filter_fault_text fault) };

    fn fmt<W: fmt::Write>(&self, f: &mut fmt::Formatter<W>) -> fmt::Result {
        match self {
            FilterFault::NoNames => write!(f, "no-names"),
            FilterFault::BadCallName => write!(f, "bad-call-name"),
            FilterFault::BadIndex => write!(f, "bad-index"),
            FilterFault::IndexTwice => write!(f, "index-twice"),
            FilterFault::ErrnoNotTaken => write!(f, "errno-not-taken"),
            FilterFault::ErrnoTooLarge => write!(f, "errno-too-large"),
            FilterFault::TwoActions(name) => write!(f, "two-actions {name}"),
            FilterFault::TooMany => write!(f, "too-many"),
            FilterFault::NoMemory(_) => write!(f, "memory"),
        }
    }
}

impl Error for FilterFault {}
