//! Texts of which most are short.

ghost use Rattle.std.specs.Prelude.{◌≡◌, IfOk};

use arrayvec::ArrayString;
use std::alloc::{AllocError, Global};
use std::marker::Model;

// How many bytes lie in a text itself.
const MOST_SHORT: usize = 24;

// What a text is kept as.
#[derive(Debug, Drop)]
pub(crate) enum Kept {
    Short(ArrayString<MOST_SHORT>),
    Long(String),
}

/// A text, which contracts see as its bytes. One of at most 24 bytes takes no memory of its own.
#[derive(Debug, Drop)]
pub struct Text {
    kept: Kept,
}

impl Model for Text {
    ghost use Rattle.std.specs.Prelude.{List, ℕ};
    ghost use Rattle.seccomp_doc.specs.Kept.{kept_bytes};

    ghost Value = { List ℕ };

    ghost view = { λ text. kept_bytes text.kept };
}

impl Text {
    /// A copy of a text.
    ///
    /// # Errors
    ///
    /// Memory was refused, for more than 24 bytes.
    pub fn new(alloc: Global, text: &str) -> Result<Text, AllocError>
        ensures { IfOk result (λ kept. kept ≡ text.now) }
    {
        let kept = match ArrayString::from(text) {
            Ok(short) => Kept::Short(short),
            Err(_) => Kept::Long(String::from_str(alloc, text)?),
        };
        Ok(Text { kept })
    }

    /// Its characters.
    pub fn as_str(&self) -> &str
        ensures { result.now ≡ self.now }
    {
        match &self.kept {
            Kept::Short(text) => text.as_str(),
            Kept::Long(text) => text.as_str(),
        }
    }
}

impl Clone for Text {
    ghost use Rattle.std.specs.Prelude.{◌≡◌};

    ghost is_clone = { λ text copy. copy ≡ text };

    fn clone(&self) -> Result<Text, AllocError> {
        let kept = match &self.kept {
            Kept::Short(text) => Kept::Short(*text),
            Kept::Long(text) => Kept::Long(text.clone()?),
        };
        Ok(Text { kept })
    }
}
