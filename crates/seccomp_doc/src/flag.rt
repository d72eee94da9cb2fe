//! Flags.

ghost use Rattle.std.specs.Prelude.{◌≡◌};
ghost use Rattle.std.specs.List.{list_all};
ghost use Rattle.seccomp_doc.specs.Word.{is_flag_byte};

use crate::text::{Form, Formed};
use crate::word::is_of_length;

/// The form of a flag: `SECCOMP_FILTER_FLAG_` and 1 to 32 of A-Z and underscore.
#[derive(Clone, Copy)]
pub struct FlagForm;

/// A flag.
pub type ScmpFlag = Formed<FlagForm>;

impl Form for FlagForm {
    ghost use Rattle.seccomp_doc.specs.Word.{is_flag};

    ghost is_form = { is_flag };

    #[tactic(auto, unfolding(crate::specs::Word::is_flag))]
    fn is_form(text: &str) -> bool {
        match text.as_bytes().strip_prefix(b"SECCOMP_FILTER_FLAG_") {
            Some(rest) => is_of_length(rest, 32) && are_flag_bytes(rest),
            None => false,
        }
    }
}

fn are_flag_bytes(bytes: &[u8]) -> bool
    ensures { result ≡ list_all is_flag_byte bytes.now }
{
    bytes
        .iter()
        .all(|byte| byte.is_ascii_uppercase() || *byte == b'_')
}
