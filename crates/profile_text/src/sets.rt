//! The five capability sets of a document.

ghost use Rattle.std.specs.Prelude.{◌≡◌};
ghost use Rattle.profile_text.specs.Sets.{no_sets, set_name, set_named, with_set};
ghost use Rattle.profile_text.specs.State.{state_of};

use cap_sets::{CapFault, CapState, Caps};

/// One of the five capability sets of a process.
#[derive(Clone, Copy)]
pub enum CapSet {
    Ambient,
    Bounding,
    Effective,
    Inheritable,
    Permitted,
}

impl CapSet {
    /// The set whose member of `capabilities` has this name.
    #[tactic(auto, unfolding(crate::specs::Sets::set_named))]
    pub fn from_name(name: &str) -> Option<CapSet>
        ensures { result ≡ set_named name.now }
    {
        match name {
            "ambient" => Some(CapSet::Ambient),
            "bounding" => Some(CapSet::Bounding),
            "effective" => Some(CapSet::Effective),
            "inheritable" => Some(CapSet::Inheritable),
            "permitted" => Some(CapSet::Permitted),
            _ => None,
        }
    }

    /// The name of its member of `capabilities`.
    pub fn name(self) -> &'static str
        ensures { result.now ≡ set_name self }
    {
        match self {
            CapSet::Ambient => "ambient",
            CapSet::Bounding => "bounding",
            CapSet::Effective => "effective",
            CapSet::Inheritable => "inheritable",
            CapSet::Permitted => "permitted",
        }
    }
}

/// Five sets as a document names them, lawful or not.
#[derive(Clone, Copy)]
pub(crate) struct Sets {
    pub(crate) ambient: Caps,
    pub(crate) bounding: Caps,
    pub(crate) effective: Caps,
    pub(crate) inheritable: Caps,
    pub(crate) permitted: Caps,
}

impl Sets {
    /// Five empty sets.
    pub(crate) fn empty() -> Sets
        ensures { result ≡ no_sets }
    {
        let none = Caps::empty();
        Sets {
            ambient: none,
            bounding: none,
            effective: none,
            inheritable: none,
            permitted: none,
        }
    }

    /// The state of the sets, or the first fault of sets that are no lawful state.
    pub(crate) fn state(self) -> Result<CapState, CapFault>
        ensures { result ≡ state_of self }
    {
        CapState::new(
            self.effective,
            self.permitted,
            self.inheritable,
            self.bounding,
            self.ambient,
        )
    }

    /// The same sets but for one.
    pub(crate) fn with(self, set: CapSet, caps: Caps) -> Sets
        ensures { result ≡ with_set set caps self }
    {
        let mut sets = self;
        match set {
            CapSet::Ambient => sets.ambient = caps,
            CapSet::Bounding => sets.bounding = caps,
            CapSet::Effective => sets.effective = caps,
            CapSet::Inheritable => sets.inheritable = caps,
            CapSet::Permitted => sets.permitted = caps,
        }
        sets
    }
}
