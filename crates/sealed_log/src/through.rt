//! What a log was found to tell.

ghost use Rattle.std.specs.Prelude.{◌≤◌, ◌<◌, ◌^◌};

use crate::lines::LONGEST;
use crate::seals::Seal;

/// What a log was found to tell.
#[derive(Drop)]
pub struct Through {
    // How long the file is, where what is sealed ends, its seal, and how many lines it has.
    len: usize,
    at: usize,
    seal: Seal,
    lines: u64,
    ghost within: { at ≤ len },
    ghost small: { len < 2 ^ 64 },
    ghost counted: { lines < 2 ^ 64 },
}

impl Through {
    ghost use Rattle.std.specs.Prelude.{◌≡◌, ◌≤◌, ◌<◌, ◌+◌, ◌↔◌, IsTrue};
    ghost use Rattle.sealed_log.specs.Sealed.{longest};

    // What a reader found that stands at `at` of a file of so many bytes.
    pub(crate) fn new(len: usize, at: usize, seal: Seal, lines: u64) -> Through
        requires { at ≤ len }
        ensures len { result.len ≡ len }
        ensures at { result.at ≡ at }
        ensures seal { result.seal ≡ seal }
        ensures lines { result.lines ≡ lines }
    {
        Through {
            len,
            at,
            seal,
            lines,
        }
    }

    /// Where what is sealed ends.
    pub fn at(&self) -> usize
        ensures { result ≡ self.now.at }
    {
        self.at
    }

    /// Its seal.
    pub fn seal(&self) -> Seal
        ensures { result ≡ self.now.seal }
    {
        self.seal
    }

    /// How many lines it has.
    pub fn lines(&self) -> u64
        ensures { result ≡ self.now.lines }
    {
        self.lines
    }

    /// Whether more stands behind it than the longest line, which no crash leaves.
    pub fn has_more(&self) -> bool
        ensures { IsTrue result ↔ self.now.at + longest < self.now.len }
    {
        self.len - self.at > LONGEST
    }
}
