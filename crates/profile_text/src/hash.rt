//! The digest of a text.

ghost use Rattle.std.specs.Prelude.{◌≡◌};
ghost use Rattle.profile_text.specs.Digest.{digest_of};

use sha2::{Digest, Sha256};

/// SHA-256 (FIPS 180-4) of the bytes. It takes no memory.
#[tactic(auto, unfolding(crate::specs::Digest::digest_of))]
pub fn digest(bytes: &[u8]) -> [u8; 32]
    ensures { result ≡ digest_of bytes.now }
{
    Sha256::digest(bytes)
}
