//! Members of JSON, written a token at a time.

ghost use Rattle.std.specs.Prelude.{OnOk};
ghost use Rattle.serde_json.specs.Data.{member, no_members, number, string, unsigned};
ghost use Rattle.json_tree.specs.Tokens.{Appends, open_tokens};
ghost use Rattle.json_requests.specs.Answers.{digest_member};

use json_tree::Writer;
use std::alloc::{AllocError, Global};

/// A member that is a text.
///
/// # Errors
///
/// Memory was refused. No contract can say when.
pub fn write_text(out: &mut Writer, name: &str, text: &str) -> Result<(), AllocError>
    ensures { OnOk result (Appends out.old out.new
        (open_tokens (member name.now (string text.now) no_members))) }
{
    out.key(name)?;
    out.string(text)
}

/// A member that is a number.
///
/// # Errors
///
/// Memory was refused. No contract can say when.
pub fn write_number(out: &mut Writer, name: &str, n: u64) -> Result<(), AllocError>
    ensures { OnOk result (Appends out.old out.new
        (open_tokens (member name.now (number (unsigned n)) no_members))) }
{
    out.key(name)?;
    out.u64(n)
}

/// A digest, as 64 lower-case hexadecimal digits.
///
/// # Errors
///
/// Memory was refused. No contract can say when.
pub fn write_digest(out: &mut Writer, alloc: Global, digest: &[u8; 32]) -> Result<(), AllocError>
    ensures { OnOk result (Appends out.old out.new
        (open_tokens (digest_member digest.now no_members))) }
{
    let text = hex::encode(alloc, digest.as_slice())?;
    write_text(out, "digest", text.as_str())
}
