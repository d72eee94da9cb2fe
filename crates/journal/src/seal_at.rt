//! The seal that a journal has at a line, as it is read.

ghost use Rattle.std.specs.Prelude.{◌≡◌};
ghost use Rattle.sealed_log.specs.Sealed.{no_seal};
ghost use Rattle.journal.specs.SealsAt.{Finds, Sees};

use sealed_log::{Seal, no_seal};

/// The seal of the first so many lines of a journal, which is known once they were taken.
#[derive(Clone, Copy, Drop)]
pub(crate) struct SealAt {
    line: u64,
    seal: Seal,
}

impl SealAt {
    /// Before the first line.
    pub(crate) fn new(line: u64) -> SealAt
        ensures { result ≡ record { line = line; seal = no_seal } }
    {
        SealAt {
            line,
            seal: no_seal(),
        }
    }

    /// So many lines were taken, which have this seal.
    pub(crate) fn see(&mut self, taken: u64, seal: Seal)
        ensures { Sees self.old self.new taken seal }
    {
        if taken == self.line {
            self.seal = seal;
        }
    }

    /// The seal, where so many lines were taken. `None` where they are too few.
    pub(crate) fn find(&self, taken: u64) -> Option<Seal>
        ensures { Finds self.now taken result }
    {
        if self.line <= taken {
            Some(self.seal)
        } else {
            None
        }
    }
}
