//! Databases at paths.

ghost use Rattle.std.specs.Prelude.{ℕ, List, Option, Result, Bool, ⊤, IfErr, IfOk};
ghost use Rattle.std.specs.declared.io.Error.{Error as IoError};
ghost use Rattle.sqlite.specs.declared.error.Error.{Error};

use sqlite::Error;
use std::io;

/// The databases of SQLite at paths, so that a test can stand in for files. Of `sees`, `marked`,
/// `refused` and `ended` nothing is known but that a call meets them, so that who promises them has
/// called with just this path or database, and has what came of that.
pub trait Databases {
    /// A connection to one.
    type Database: Drop;

    /// What one that was closed stands in.
    type Closed: Drop;

    /// What came of looking whether something is at a path.
    ghost sees: { List ℕ → Result Bool IoError → Type 0 } = { λ _ _. ⊤ };

    /// Whether something is at a path.
    fn is_there(&self, path: &str) -> io::Result<bool>
        ensures { sees path.now result };

    /// What came of reading the mark of the database at a path.
    ghost marked: { List ℕ → Result ℕ IoError → Type 0 } = { λ _ _. ⊤ };

    /// The mark of the database at a path, which isn't opened: the number of lines that the journal of
    /// its office had. 0 where it has no mark, and where no database is.
    fn mark_at(&self, path: &str) -> io::Result<u32>
        ensures { marked path.now result };

    /// What is known of the database that was opened at a path.
    ghost opened: { List ℕ → Self.Database → Type 0 } = { λ _ _. ⊤ };

    /// Why none was opened at a path.
    ghost refused: { List ℕ → Error → Type 0 } = { λ _ _. ⊤ };

    /// Opens the database at a path. Where nothing is there, an empty one is made, which its owner
    /// alone may read and write.
    fn open(&self, path: &str) -> Result<Self::Database, Error>
        ensures opened { IfOk result (λ database. opened path.now database) }
        ensures refused { IfErr result (λ error. refused path.now error) };

    /// What is known of the database that was closed, with a mark or as it was marked, and of what it
    /// stands in.
    ghost closed: { Self.Database → Option ℕ → Self.Closed → Type 0 } = { λ _ _ _. ⊤ };

    /// What came of closing a database so.
    ghost ended: { Self.Database → Option ℕ → Result Self.Closed Error → Type 0 } = { λ _ _ _. ⊤ };

    /// Closes a database, so that all of it stands in the one file at its path, and has this mark;
    /// without one it keeps the one that it has. Gives what it stands in.
    fn close(&self, database: Self::Database, mark: Option<u32>) -> Result<Self::Closed, Error>
        ensures closed { IfOk result (closed database mark) }
        ensures ended { ended database mark result };
}
