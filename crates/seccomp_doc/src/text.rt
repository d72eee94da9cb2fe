//! Texts of a form.

ghost use Rattle.std.specs.Prelude.{◌≡◌, true, if◌then◌else◌, Some, None};
ghost use Rattle.seccomp_doc.specs.Word.{Reads};

use crate::short::Text;
use crate::word::NameFault;
use std::alloc::Global;
use std::fmt;
use std::marker::{Model, PhantomData};

/// A form that a text may have.
pub trait Form {
    ghost use Rattle.std.specs.Prelude.{◌≡◌, ℕ, List, Bool};

    /// Whether a text has the form.
    ghost is_form: { List ℕ → Bool };

    /// Whether a text has the form.
    fn is_form(text: &str) -> bool
        ensures { result ≡ is_form text.now };
}

/// A text of a form, which contracts see as its bytes.
#[derive(Clone, Debug, Drop)]
pub struct Formed<F: Form> {
    text: Text,
    form: PhantomData<F>,
}

impl<F: Form> Model for Formed<F> {
    ghost use Rattle.std.specs.Prelude.{◌≡◌, List, ℕ, true};

    ghost Value = { List ℕ };

    ghost view = { λ a. a.text };

    ghost invariant = { λ a. F.is_form a.text ≡ true };
}

impl<F: Form> Formed<F> {
    /// The text, where it is of the form.
    ///
    /// # Errors
    ///
    /// `NotAWord` where it is of another form; `NoMemory` where it is out of memory.
    pub fn read(alloc: Global, text: &str) -> Result<Formed<F>, NameFault>
        ensures { Reads F.is_form text.now result }
    {
        if !F::is_form(text) {
            return Err(NameFault::NotAWord);
        }
        Ok(Formed {
            text: Text::new(alloc, text)?,
            form: PhantomData,
        })
    }

    // The text itself, where it is of the form. It takes no more memory.
    pub(crate) fn from_text(text: Text) -> Option<Formed<F>>
        ensures { result ≡ (if F.is_form text then Some text else None) }
    {
        if F::is_form(text.as_str()) {
            Some(Formed {
                text,
                form: PhantomData,
            })
        } else {
            None
        }
    }

    /// Its characters.
    pub fn as_str(&self) -> &str
        ensures text { result.now ≡ self.now }
        ensures form { F.is_form self.now ≡ true }
    {
        self.text.as_str()
    }
}

/// Its characters.
impl<F: Form> fmt::Display for Formed<F> {
    ghost use Rattle.std.specs.Prelude.{Some};

    ghost output = { λ text. Some text };

    fn fmt<W: fmt::Write>(&self, f: &mut fmt::Formatter<W>) -> fmt::Result {
        f.write_str(self.as_str())
    }
}
