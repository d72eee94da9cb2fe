//! Why no office is founded, why none is opened, and why one isn't migrated.

use office_words::Fault;
use std::error::Error;
use std::fmt;

/// Why no office is founded. Where the store is still open, it is as it was. Its text is one word.
#[derive(Clone, Copy, Debug, Drop)]
pub enum FoundingFault {
    /// One of the tables of an office is there.
    AlreadyFounded,
    /// The store failed, or something else is there: `NotAnOffice`.
    Store(Fault),
}

impl fmt::Display for FoundingFault {
    ghost use Rattle.std.specs.Prelude.{Some};
    ghost use Rattle.office_founding.specs.Faults.{founding_fault_word};

    ghost output = { λ fault. Some (founding_fault_word fault) };

    fn fmt<W: fmt::Write>(&self, f: &mut fmt::Formatter<W>) -> fmt::Result {
        match self {
            FoundingFault::AlreadyFounded => f.write_str("already-founded"),
            FoundingFault::Store(fault) => write!(f, "{fault}"),
        }
    }
}

impl Error for FoundingFault {}

/// Why a store isn't opened as an office. Where it is still open, it is as it was. Its text is one
/// word.
#[derive(Clone, Copy, Debug, Drop)]
pub enum OpeningFault {
    /// The office is of schema 1, and `migrate` makes it one of schema 2.
    OldSchema,
    /// The office is of schema 2, and one of the two indexes of its revisions isn't there.
    NoIndex,
    /// The store failed, or is no office of schema 1 or 2: `NotAnOffice`.
    Store(Fault),
}

impl fmt::Display for OpeningFault {
    ghost use Rattle.std.specs.Prelude.{Some};
    ghost use Rattle.office_founding.specs.Faults.{opening_fault_word};

    ghost output = { λ fault. Some (opening_fault_word fault) };

    fn fmt<W: fmt::Write>(&self, f: &mut fmt::Formatter<W>) -> fmt::Result {
        match self {
            OpeningFault::OldSchema => f.write_str("old-schema"),
            OpeningFault::NoIndex => f.write_str("no-index"),
            OpeningFault::Store(fault) => write!(f, "{fault}"),
        }
    }
}

impl Error for OpeningFault {}

/// Why an office of schema 1 isn't made one of schema 2. Where the store is still open, it is as it
/// was. Its text is one word.
#[derive(Clone, Copy, Debug, Drop)]
pub enum MigrationFault {
    /// The office is of schema 2.
    AlreadyMigrated,
    /// The store failed, or is no office of schema 1 or 2: `NotAnOffice`.
    Store(Fault),
}

impl fmt::Display for MigrationFault {
    ghost use Rattle.std.specs.Prelude.{Some};
    ghost use Rattle.office_founding.specs.Faults.{migration_fault_word};

    ghost output = { λ fault. Some (migration_fault_word fault) };

    fn fmt<W: fmt::Write>(&self, f: &mut fmt::Formatter<W>) -> fmt::Result {
        match self {
            MigrationFault::AlreadyMigrated => f.write_str("already-migrated"),
            MigrationFault::Store(fault) => write!(f, "{fault}"),
        }
    }
}

impl Error for MigrationFault {}
