//! Findings.

use profile_text::CapSet;
use seccomp_doc::{Arch, CallName, ScmpFlag};

/// Something that a new profile permits, or may permit, and its baseline doesn't.
#[derive(Drop)]
pub enum Finding {
    /// The set has the capability of this number, 0 to 40 as in `linux/capability.h`, and the
    /// baseline's hasn't.
    Cap(CapSet, u8),
    /// The baseline has a filter, and the new profile has none: every call is allowed.
    NoSeccomp,
    /// The new filter lists no architecture, which stands for any, and the baseline's lists some.
    AnyArch,
    /// The new filter lists an architecture that the baseline's doesn't.
    Arch(Arch),
    /// The new filter has a flag that the baseline's hasn't.
    Flag(ScmpFlag),
    /// The new filter may permit a call of this name more than the baseline's does.
    Call(CallName),
    /// The new filter's default is more permissive than the baseline's.
    Default,
}
