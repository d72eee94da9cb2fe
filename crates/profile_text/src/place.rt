//! Where the objects of a document stand.

use std::fmt;

/// An object of a document. Its path is written only where a fault is told.
#[derive(Clone, Copy)]
pub(crate) enum Place {
    /// The whole document.
    Document,
    /// The five capability sets.
    Capabilities,
    /// The filter.
    Filter,
    /// The entry at a position, from 0.
    Entry(usize),
    /// The argument at a position in the entry at a position, each from 0.
    Argument { entry: usize, position: usize },
}

/// Its path, which members stand below.
impl fmt::Display for Place {
    ghost use Rattle.std.specs.Prelude.{Some};
    ghost use Rattle.profile_text.specs.Place.{path_of};

    ghost output = { λ place. Some (path_of place) };

    fn fmt<W: fmt::Write>(&self, f: &mut fmt::Formatter<W>) -> fmt::Result {
        match self {
            Place::Document => Ok(()),
            Place::Capabilities => write!(f, "/capabilities"),
            Place::Filter => write!(f, "/seccomp"),
            Place::Entry(position) => write!(f, "/seccomp/syscalls/{position}"),
            Place::Argument { entry, position } => {
                write!(f, "/seccomp/syscalls/{entry}/args/{position}")
            }
        }
    }
}
