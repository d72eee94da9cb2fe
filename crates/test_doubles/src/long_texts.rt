//! A document whose canonical text has as many bytes as are allowed.

use std::alloc::{AllocError, Global};

/// SHA-256 of it.
pub const DIGEST: &str = "778956101017cbe0f2eb4a572b6fc140d0fc60da5fc5f33c745b9b8eec7eedd8";

const START: &str =
    r#"{"capabilities":{"ambient":[],"bounding":[],"effective":[],"inheritable":[],"permitted":[]},"seccomp":{"defaultAction":"SCMP_ACT_LOG","syscalls":[{"action":"SCMP_ACT_ALLOW","names":[""#;

const NEXT_ENTRY: &str = r#""]},{"action":"SCMP_ACT_ALLOW","names":[""#;

const END: &str = r#"aaaaa"]}]}}"#;

/// Five entries of a name of 61 bytes, 818 times each, and one of a name of five: 262,144 bytes,
/// which are their own canonical text.
pub fn longest_text(alloc: Global) -> Result<String, AllocError> {
    let name = "a".repeat(alloc, 61)?;
    let mut text = String::from_str(alloc, START)?;
    for _ in 0..5 {
        for i in 0..818 {
            if i > 0 {
                text.push_str(r#"",""#)?;
            }
            text.push_str(name.as_str())?;
        }
        text.push_str(NEXT_ENTRY)?;
    }
    text.push_str(END)?;
    Ok(text)
}

/// The same in a JSON text.
pub fn longest_escaped(alloc: Global) -> Result<String, AllocError> {
    longest_text(alloc)?.as_str().replace(alloc, "\"", "\\\"")
}
