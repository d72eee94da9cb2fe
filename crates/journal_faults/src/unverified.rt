//! Why an office isn't the one of its journal.

use crate::difference::Difference;
use crate::refused::Refused;
use office_words::Fault;

/// Why an office isn't verified.
#[derive(Drop)]
pub enum Unverified {
    /// No office is built anew from the journal.
    Refused(Refused),
    /// The journal hasn't the seal that was kept, or has fewer lines.
    OtherSeal,
    /// The office differs from the one of the journal.
    Differs(Difference),
    /// One of the two can't be read, or there is no memory.
    Fault(Fault),
}
