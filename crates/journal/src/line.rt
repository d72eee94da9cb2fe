//! The lines of a journal.

use office_policy::Event;

/// A line of a journal.
#[derive(Drop)]
pub enum Line {
    /// This happened.
    Event(Event),
    /// The event of the line before didn't happen, and is struck out.
    Strike,
    /// The event of the line before, which has this number, is carried out. It stands from then on.
    Done { of: u64 },
}
