//! Why the desk stopped.

ghost use Rattle.std.specs.Prelude.{◌≡◌, ◌∷◌, [], ℕ, codes, map};
ghost use Rattle.desk_lines.specs.Faults.{desk_fault_word};
ghost use Rattle.desk_lines.specs.declared.fault.DeskFault.TheVariants as fault;
ghost use Rattle.no_memory.specs.Witness.{witness};

use no_memory::NoMemory;
use std::error::Error;
use std::fmt;

/// Why the desk stopped before each line was answered. Lines are numbered from 1. Its text is one
/// word.
#[derive(Clone, Copy, Debug, Drop, PartialEq)]
pub enum DeskFault {
    /// The reader failed in this line. The lines before it are answered, and nothing of it was
    /// handled.
    Read { line: u64 },
    /// The writer failed in the answer to this line. It was handled, as were the lines before it,
    /// and of its answer only a front part was written.
    Write { line: u64 },
    /// As often as is allowed the reader was called, without an end or a fault. The lines before
    /// this one are answered, and nothing of it was handled.
    TooManyReads { line: u64 },
    /// There was no memory for the answer to this line, of which nothing was written. It was
    /// handled, as were the lines before it.
    NoMemory { line: u64, witness: NoMemory },
    /// There was no memory to begin. Nothing was read, handled or written.
    Unbegun(NoMemory),
}

impl fmt::Display for DeskFault {
    ghost use Rattle.std.specs.Prelude.{Some};
    ghost use Rattle.desk_lines.specs.Faults.{desk_fault_word};

    ghost output = { λ fault. Some (desk_fault_word fault) };

    fn fmt<W: fmt::Write>(&self, f: &mut fmt::Formatter<W>) -> fmt::Result {
        f.write_str(match self {
            DeskFault::Read { line: _ } => "read",
            DeskFault::Write { line: _ } => "write",
            DeskFault::TooManyReads { line: _ } => "too-many-reads",
            DeskFault::NoMemory {
                line: _,
                witness: _,
            }
            | DeskFault::Unbegun(_) => "memory",
        })
    }
}

impl Error for DeskFault {}

/// The word of each fault, whatever its line.
pub fn each_fault_has_its_word()
    ensures { (line : ℕ) → map desk_fault_word
        (fault.Read line ∷ fault.Write line ∷ fault.TooManyReads line ∷ fault.NoMemory line witness
        ∷ fault.Unbegun witness ∷ [])
        ≡ codes "read" ∷ codes "write" ∷ codes "too-many-reads" ∷ codes "memory"
        ∷ codes "memory" ∷ [] }
{}
