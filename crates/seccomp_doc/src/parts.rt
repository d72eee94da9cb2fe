//! The parts that a filter is made of, as a document has them.

use crate::action::ActionWord;
use crate::arch::Arch;
use crate::compare::Op;
use crate::flag::ScmpFlag;
use crate::short::Text;
use smallvec::SmallVec;
use std::marker::Model;

/// A comparison as a document has it.
#[derive(Clone, Copy, Default)]
pub struct ArgParts {
    /// Which argument, from 0.
    pub index: u64,
    /// How it is compared.
    pub op: Op,
    /// What it is compared with, or the mask.
    pub value: u64,
    /// The second value, 0 where there is none.
    pub value_two: u64,
}

/// An entry as a document has it.
#[derive(Drop)]
pub struct EntryParts {
    /// The names of calls.
    pub names: Vec<Text>,
    /// The name of the action.
    pub word: ActionWord,
    /// The number of the action, if one stands there.
    pub errno: Option<u64>,
    /// The comparisons. A single one takes no memory of its own.
    pub args: SmallVec<ArgParts, 1>,
}

impl Model for EntryParts {
    ghost use Rattle.seccomp_doc.specs.Parts.{EntryPartsValue};

    ghost Value = { EntryPartsValue };

    ghost view = { λ e. record {
      names = e.names.items;
      word = e.word;
      errno = e.errno;
      args = e.args.items;
    } };
}

/// A filter as a document has it.
#[derive(Drop)]
pub struct FilterParts {
    /// The name of the action of a call that no entry matches.
    pub default: ActionWord,
    /// The number of that action, if one stands there.
    pub default_errno: Option<u64>,
    /// The architectures.
    pub architectures: Vec<Arch>,
    /// The flags.
    pub flags: Vec<ScmpFlag>,
    /// The entries.
    pub entries: Vec<EntryParts>,
}

impl Model for FilterParts {
    ghost use Rattle.seccomp_doc.specs.Parts.{FilterPartsValue};

    ghost Value = { FilterPartsValue };

    ghost view = { λ f. record {
      default = f.default;
      default_errno = f.default_errno;
      architectures = f.architectures.items;
      flags = f.flags.items;
      entries = f.entries.items;
    } };
}
