//! What happens in an office, as values of a program.

use crate::deed::Deed;
use cap_sets::Caps;
use office_words::Word;

/// What happened in an office: its founding, and what users did. Digests are of SHA-256.
#[derive(Drop)]
pub enum Event {
    /// The office was founded, with its first user, the digest of that user's token, and the
    /// listed capabilities.
    Founded {
        user: Word,
        team: Word,
        digest: [u8; 32],
        listed: Caps,
    },
    /// The user of this name did this.
    Did {
        caller: Word,
        deed: Deed,
    },
}
