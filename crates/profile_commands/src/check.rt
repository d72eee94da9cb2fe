//! The command `check`.

ghost use Rattle.std.specs.Prelude.{◌≡◌, ◌++◌, ◌∷◌, [], IfOk, string_bytes};
ghost use Rattle.profile_commands.specs.Refusal.{IsChecked};

use crate::document::read_document;
use crate::fault::FileFault;
use std::alloc::{AllocError, Global};

// A text and a line feed.
fn line_of(text: String) -> Result<String, AllocError>
    ensures { IfOk result (λ line. string_bytes line ≡ string_bytes text ++ 10 ∷ []) }
{
    let mut line = text;
    line.push('\n')?;
    Ok(line)
}

/// The canonical text of the document that the bytes of a file are, and a line feed.
///
/// # Errors
///
/// Those of `read_document`.
pub fn check_document(alloc: Global, bytes: &[u8]) -> Result<String, FileFault>
    ensures { IsChecked bytes.now result }
{
    let document = read_document(alloc, bytes)?;
    let text = line_of(document.text)?;
    Ok(text)
}
