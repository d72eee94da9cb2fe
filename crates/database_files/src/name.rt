//! The name of a file.

ghost use Rattle.std.specs.Prelude.{ℕ, Bool, Option};

/// A name by which a file was opened. Of `leads` nothing is known but that a call meets it, so that
/// who promises it has asked, and has what came of that.
pub trait Name {
    /// What came of asking whether it leads to the file; and, where that is asked too, whether that has
    /// so many bytes.
    ghost leads: { Self → Option ℕ → Bool → Type 0 };

    /// Whether it still leads to the file, which has so many bytes where a length is given.
    fn leads_to_file(&self, len: Option<usize>) -> bool
        ensures { leads self.now len result };
}
