//! Architectures.

ghost use Rattle.std.specs.Prelude.{◌≡◌};
ghost use Rattle.std.specs.List.{list_all};
ghost use Rattle.seccomp_doc.specs.Word.{is_arch_byte};

use crate::text::{Form, Formed};
use crate::word::is_of_length;

/// The form of an architecture: `SCMP_ARCH_` and 1 to 32 of A-Z, 0-9 and underscore.
#[derive(Clone, Copy)]
pub struct ArchForm;

/// An architecture.
pub type Arch = Formed<ArchForm>;

impl Form for ArchForm {
    ghost use Rattle.seccomp_doc.specs.Word.{is_arch};

    ghost is_form = { is_arch };

    #[tactic(auto, unfolding(crate::specs::Word::is_arch))]
    fn is_form(text: &str) -> bool {
        match text.as_bytes().strip_prefix(b"SCMP_ARCH_") {
            Some(rest) => is_of_length(rest, 32) && are_arch_bytes(rest),
            None => false,
        }
    }
}

fn are_arch_bytes(bytes: &[u8]) -> bool
    ensures { result ≡ list_all is_arch_byte bytes.now }
{
    bytes.iter().all(|byte| byte.is_ascii_uppercase() || byte.is_ascii_digit() || *byte == b'_')
}
