//! What the line says.

use std::fmt;

/// How much of a file has been read, in bytes. Its text has both numbers in whole megabytes, of
/// 1,000,000 bytes each, rounded down; a file that grew as it was read counts as read whole.
#[derive(Clone, Copy)]
pub(crate) struct ReadSoFar {
    pub done: u64,
    pub whole: u64,
}

const MEGABYTE: u64 = 1_000_000;

impl fmt::Display for ReadSoFar {
    ghost use Rattle.std.specs.Prelude.{Some};
    ghost use Rattle.office_program.specs.Lines.{so_far_text};

    ghost output = { λ so_far. Some (so_far_text so_far) };

    fn fmt<W: fmt::Write>(&self, f: &mut fmt::Formatter<W>) -> fmt::Result {
        let done = self.done / MEGABYTE;
        let whole = self.done.max(self.whole) / MEGABYTE;
        write!(f, "office: read {done} of {whole} MB")
    }
}
