//! Where bytes stop being JSON.

ghost use Rattle.std.specs.Prelude.{◌≡◌};
ghost use Rattle.profile_commands.specs.Places.{end_of};

use serde_json::{Category, Value};
use std::alloc::Global;

/// A place in a text: a line, from 1, and how many bytes of it there are up to there.
#[derive(Clone, Copy)]
pub struct JsonPlace {
    pub line: usize,
    pub column: usize,
}

// Where a text ends.
fn end_of(text: &str) -> JsonPlace
    ensures { result ≡ end_of text.now }
{
    let last = text.split('\n').last().unwrap_or("");
    JsonPlace {
        line: text.split('\n').count(),
        column: last.len(),
    }
}

/// Where bytes that are no JSON text stop being one: of a text that is cut short its end. Else it is
/// where the reader of `serde_json` stands: where the first part that doesn't fit begins, or where what
/// follows that part does. None where memory was refused to that reader.
pub(crate) fn json_place(alloc: Global, bytes: &[u8]) -> Option<JsonPlace> {
    let fault = Value::from_slice(alloc, bytes).err()?;
    match (fault.classify(), std::str::from_utf8(bytes)) {
        (Category::Memory, _) => None,
        (Category::Eof, Ok(text)) => Some(end_of(text)),
        _ => Some(JsonPlace {
            line: fault.line(),
            column: fault.column(),
        }),
    }
}
