//! The name of a profile.

use crate::word::Word;

/// A profile, by its team and its own name.
#[derive(Clone, Drop)]
pub struct ProfileName {
    /// The team that the profile is of.
    pub team: Word,
    /// Its name within the team.
    pub profile: Word,
}
