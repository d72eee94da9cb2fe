//! Profiles.

ghost use Rattle.std.specs.Prelude.{◌≡◌};

use cap_sets::{CapState, Caps};
use seccomp_doc::{Action, Filter};
use std::alloc::Global;

/// What a container may do: its capability sets, and its filter of system calls, where it has one.
/// Without a filter every call is allowed.
#[derive(Drop)]
pub struct Profile {
    pub caps: CapState,
    pub filter: Option<Filter>,
}

impl Profile {
    ghost use Rattle.profile_text.specs.Profile.{closed_profile, holds_listed, listed_in};

    /// The profile with these capability sets and this filter.
    pub fn new(caps: CapState, filter: Option<Filter>) -> Profile
        ensures caps { result.caps ≡ caps }
        ensures filter { result.filter ≡ filter }
    {
        Profile { caps, filter }
    }

    /// The profile that permits nothing: no capabilities, and a filter whose default is to end the
    /// process. It takes no memory.
    pub fn closed(alloc: Global) -> Profile
        ensures { result ≡ closed_profile }
    {
        let none = Caps::empty();
        Profile {
            caps: CapState {
                effective: none,
                permitted: none,
                inheritable: none,
                bounding: none,
                ambient: none,
            },
            filter: Some(Filter::only_default(alloc, Action::KillProcess)),
        }
    }

    /// Those of the listed capabilities that it has in any of its five sets.
    pub fn listed_in(&self, listed: Caps) -> Caps
        ensures { result ≡ listed_in listed self.now }
    {
        let caps = &self.caps;
        let kept = caps.inheritable.union(caps.bounding.union(caps.ambient));
        let held = caps.effective.union(caps.permitted.union(kept));
        match Caps::from_bits(listed.bits() & held.bits()) {
            Some(caps) => caps,
            None => Caps::empty(),
        }
    }

    /// Whether it has a listed capability in any of its five sets.
    pub fn holds_listed(&self, listed: Caps) -> bool
        ensures { result ≡ holds_listed listed self.now }
    {
        self.listed_in(listed).bits() != 0
    }
}
