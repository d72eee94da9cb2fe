//! The founding that words describe.

ghost use Rattle.std.specs.Prelude.{map};
ghost use Rattle.changing_commands.specs.Foundings.{founding_of, Gives};

use cap_sets::Caps;
use command_host::FoundingWordsFault;
use office_words::{Word, digest_from_hex};
use std::alloc::Global;

/// Whom an office is founded with, and what it lists.
#[derive(Drop)]
pub struct Founding {
    /// The name of its first user, a registrar.
    pub name: Word,
    /// The team of that user.
    pub team: Word,
    /// The SHA-256 of the token that the user shows.
    pub digest: [u8; 32],
    /// The listed capabilities: a document that holds one of them needs two approvals.
    pub listed: Caps,
}

/// The founding that the words NAME, TEAM, DIGEST and the CAPs describe: NAME and TEAM are words,
/// DIGEST is 64 lower-case hexadecimal digits, and each CAP is a capability's name, as `CAP_CHOWN`;
/// one that stands twice counts once.
///
/// # Errors
///
/// `BadWord`, and then `UnknownCapability`.
pub fn founding_of(
    alloc: Global,
    name: &str,
    team: &str,
    digest: &str,
    capabilities: &[&str],
) -> Result<Founding, FoundingWordsFault>
    ensures { Gives result (founding_of name.now team.now digest.now
        (map (λ capability. capability.now) capabilities.now)) }
{
    let name = Word::new(alloc, name)?;
    let team = Word::new(alloc, team)?;
    let Some(digest) = digest_from_hex(digest) else {
        return Err(FoundingWordsFault::BadWord);
    };
    match Caps::from_names(capabilities) {
        Some(listed) => Ok(Founding {
            name,
            team,
            digest,
            listed,
        }),
        None => Err(FoundingWordsFault::UnknownCapability),
    }
}
