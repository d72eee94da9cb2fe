//! What a journal is written to.

ghost use Rattle.std.specs.Prelude.{◌≡◌, [], ◌∷◌};
ghost use Rattle.sealed_log.specs.Sealed.{IsBody};
ghost use Rattle.journal.specs.Writing.{IsAppended, Writing};

use office_words::Fault;
use std::alloc::Global;

/// What the lines of a journal are written to, each sealed.
pub trait Journal {
    /// What was written to it, and what a crash may leave of that.
    ghost writing: { Writing Self };

    /// Whether no call has left a part of a line.
    fn takes_lines(&self) -> bool
        ensures { result ≡ writing.is_open self.now };

    /// How many lines it has, up to the greatest u64.
    fn lines(&self) -> u64
        ensures { result ≡ writing.lines self.now };

    /// Writes the line of a body behind all that is there, so that a crash leaves all of it.
    ///
    /// # Errors
    ///
    /// The fault that was met. A journal that is still open has what it had.
    fn append(&mut self, alloc: Global, body: &[u8]) -> Result<(), Fault>
        requires { IsBody body.now }
        ensures { IsAppended writing self.old self.new [] body.now result };

    /// Writes the lines of two bodies behind all that is there by one write, so that a crash leaves all
    /// of it.
    ///
    /// # Errors
    ///
    /// The fault that was met. A journal that is still open has what it had.
    fn append_both(&mut self, alloc: Global, first: &[u8], body: &[u8]) -> Result<(), Fault>
        requires first { IsBody first.now }
        requires body { IsBody body.now }
        ensures { IsAppended writing self.old self.new (first.now ∷ []) body.now result };
}
