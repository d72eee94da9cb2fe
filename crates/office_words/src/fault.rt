//! What fails.

ghost use Rattle.std.specs.Prelude.{◌≡◌, ◌∷◌, [], codes, map};
ghost use Rattle.office_words.specs.WordTables.{fault_word};
ghost use Rattle.office_words.specs.declared.fault.Fault.TheVariants as faults;
ghost use Rattle.no_memory.specs.Witness.{witness};

use no_memory::NoMemory;
use std::alloc::AllocError;
use std::error::Error;
use std::fmt;

/// What failed, so that a store gives no answer, or a request wasn't done. Where the store is still
/// open, its tables are as they were. Its text is one word.
#[derive(Clone, Copy, Debug, Drop)]
pub enum Fault {
    /// There was no memory.
    NoMemory(NoMemory),
    /// The disk failed, or the store refused a call for another cause, as a second row under one
    /// key.
    Disk,
    /// The disk is full, or a value is too big for it.
    Full,
    /// A table or a row isn't of an office's form.
    NotAnOffice,
}

impl Fault {
    /// Its word, as answers name it.
    pub fn word(self) -> &'static str
        ensures { result.now ≡ fault_word self }
    {
        match self {
            Fault::NoMemory(_) => "memory",
            Fault::Disk => "disk",
            Fault::Full => "full",
            Fault::NotAnOffice => "not-an-office",
        }
    }
}

impl fmt::Display for Fault {
    ghost use Rattle.std.specs.Prelude.{Some};
    ghost use Rattle.office_words.specs.WordTables.{fault_word};

    ghost output = { λ fault. Some (fault_word fault) };

    fn fmt<W: fmt::Write>(&self, f: &mut fmt::Formatter<W>) -> fmt::Result {
        f.write_str(self.word())
    }
}

impl Error for Fault {}

impl From<AllocError> for Fault {
    ghost use Rattle.std.specs.Prelude.{◌≡◌};
    ghost use Rattle.office_words.specs.declared.fault.Fault.TheVariants.{NoMemory};
    ghost use Rattle.no_memory.specs.Witness.{witness};

    ghost from_gives = { λ _ e. e ≡ NoMemory witness };

    fn from(refused: AllocError) -> Fault {
        Fault::NoMemory(refused.into())
    }
}

/// The word of each fault.
pub fn each_fault_has_its_word()
    ensures { map fault_word ((faults.NoMemory witness) ∷ faults.Disk ∷ faults.Full ∷ faults.NotAnOffice ∷ [])
        ≡ codes "memory" ∷ codes "disk" ∷ codes "full" ∷ codes "not-an-office" ∷ [] }
{}
