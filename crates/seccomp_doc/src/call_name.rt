//! Names of system calls.

ghost use Rattle.std.specs.Prelude.{◌≡◌};
ghost use Rattle.std.specs.List.{list_all};
ghost use Rattle.seccomp_doc.specs.Word.{is_call_byte};

use crate::text::{Form, Formed};
use crate::word::is_of_length;

/// The form of the name of a system call: 1 to 64 of a-z, 0-9 and underscore. No table of calls is
/// looked at.
#[derive(Clone, Copy, Debug)]
pub struct CallForm;

/// The name of a system call.
pub type CallName = Formed<CallForm>;

impl Form for CallForm {
    ghost use Rattle.seccomp_doc.specs.Word.{is_call_name};

    ghost is_form = { is_call_name };

    #[tactic(auto, unfolding(crate::specs::Word::is_call_name))]
    fn is_form(text: &str) -> bool {
        is_of_length(text.as_bytes(), 64) && are_call_bytes(text.as_bytes())
    }
}

fn are_call_bytes(bytes: &[u8]) -> bool
    ensures { result ≡ list_all is_call_byte bytes.now }
{
    bytes.iter().all(|byte| is_call_byte(*byte))
}

// Each byte that the name of a call may have stands at its own place, and a comma at every other.
static CALL_BYTES: [u8; 256] = *b"\
    ,,,,,,,,,,,,,,,,,,,,,,,,,,,,,,,,\
    ,,,,,,,,,,,,,,,,0123456789,,,,,,\
    ,,,,,,,,,,,,,,,,,,,,,,,,,,,,,,,_\
    ,abcdefghijklmnopqrstuvwxyz,,,,,\
    ,,,,,,,,,,,,,,,,,,,,,,,,,,,,,,,,\
    ,,,,,,,,,,,,,,,,,,,,,,,,,,,,,,,,\
    ,,,,,,,,,,,,,,,,,,,,,,,,,,,,,,,,\
    ,,,,,,,,,,,,,,,,,,,,,,,,,,,,,,,,";

fn is_call_byte(byte: u8) -> bool
    ensures { result ≡ is_call_byte byte }
{
    CALL_BYTES[usize::from(byte)] != b','
}
