//! What is kept of bodies while they are read.

ghost use Rattle.std.specs.Prelude.{◌≡◌, ℕ, List, ◌∷◌, ◌++◌, [], length};
ghost use Rattle.sealed_log.specs.Sealed.{IsBody};

use std::alloc::Global;

/// What is kept of the bodies of a log while they are read.
pub trait Keeps {
    /// It is what is kept of these bodies, in their order.
    ghost is_of: { List (List ℕ) → Self → Type 0 };

    /// Sees one body more, behind so many.
    fn see(&mut self, alloc: Global, before: u64, body: &[u8])
        ensures { (bodies : List (List ℕ)) → length bodies ≡ before → IsBody body.now
            → is_of bodies self.old → is_of (bodies ++ body.now ∷ []) self.new };
}

/// Nothing is kept.
#[derive(Clone, Copy)]
pub struct Nothing;

impl Keeps for Nothing {
    ghost is_of = { λ _ _. Unit {0} };

    fn see(&mut self, _alloc: Global, _before: u64, _body: &[u8]) {}
}
