//! Who sees the events of a journal, one after the other.

ghost use Rattle.std.specs.Prelude.{◌≡◌, None, IfErr, IfNone, IfOk, MatchOption};
ghost use Rattle.journal.specs.Told.{placed_meant};
ghost use Rattle.journal_office.specs.declared.replay.Replay.{Replay};
ghost use Rattle.journal_office.specs.Visits.{HasEnded, HasStopped, HasTaken};

use crate::replay::Replay;
use journal::Placed;
use journal_faults::Refused;
use sqlite::Alter;
use std::alloc::Global;
use std::io::BufRead;

/// Who sees the events of a journal, one after the other, each before it has happened again. That the
/// office is that of the events before is for `is_at` to say.
pub trait Visitor<S: Alter, R: BufRead> {
    /// What comes of it all.
    type End;

    /// What the visitor and the replay are between two events, of what they were when they began.
    ghost is_at: { Self → Replay S R → Self → Replay S R → Type 0 };

    /// What they are at the end, and what comes of it all.
    ghost ends: { Self → Replay S R → Self → Replay S R → Self.End → Type 0 };

    /// Sees the next event, and may have it happen again. Or this is the last that is seen, with what
    /// comes of it all.
    fn see(&mut self, alloc: Global, replay: &mut Replay<S, R>, placed: Placed) -> Option<Self::End>
        ensures events { IfNone result (replay.new.events ≡ replay.old.events) }
        ensures count { IfNone result (replay.new.count ≡ replay.old.count) }
        ensures seen { (begun : Self) (from before : Replay S R)
            → is_at begun from self.old before
            → HasTaken R.remaining before replay.old (placed_meant placed)
            → MatchOption result (is_at begun from self.new replay.new)
            (ends begun from self.new replay.new) };

    /// What comes of it all where the journal can't be read on.
    fn stop(&mut self, alloc: Global, replay: &mut Replay<S, R>, refused: Refused) -> Self::End
        ensures { (begun : Self) (from before : Replay S R) → is_at begun from self.old before
            → HasStopped R.remaining before replay.old refused
            → ends begun from self.new replay.new result };

    /// What comes of it all at the end of the journal.
    fn end(&mut self, alloc: Global, replay: &mut Replay<S, R>) -> Self::End
        ensures { (begun : Self) (from before : Replay S R) → is_at begun from self.old before
            → HasEnded R.remaining before replay.old
            → ends begun from self.new replay.new result };
}

// The next event; or what comes of it all where there is none.
fn next_or_end<S: Alter, R: BufRead, V: Visitor<S, R>>(
    alloc: Global,
    replay: &mut Replay<S, R>,
    visitor: &mut V,
) -> Result<Placed, V::End>
    requires { replay.old.events.fault ≡ None }
    ensures taken { IfOk result (λ placed.
        HasTaken R.remaining replay.old replay.new (placed_meant placed)) }
    ensures visitor { IfOk result (λ _. visitor.new ≡ visitor.old) }
    ensures ends { (begun : V) (from : Replay S R)
        → V.is_at begun from visitor.old replay.old
        → IfErr result (V.ends begun from visitor.new replay.new) }
{
    match replay.next(alloc) {
        Ok(Some(placed)) => Ok(placed),
        Ok(None) => Err(visitor.end(alloc, replay)),
        Err(refused) => Err(visitor.stop(alloc, replay, refused)),
    }
}

/// Has a visitor see each further event, up to the one by which it ends, or as far as the journal can
/// be read. What comes of it all.
pub fn visit<S: Alter, R: BufRead, V: Visitor<S, R>>(
    alloc: Global,
    replay: &mut Replay<S, R>,
    visitor: &mut V,
) -> V::End
    requires fault { replay.old.events.fault ≡ None }
    requires begun { V.is_at visitor.old replay.old visitor.old replay.old }
    ensures { V.ends visitor.old replay.old visitor.new replay.new result }
{
    'events: loop {
        match next_or_end(alloc, replay, visitor) {
            Ok(placed) => match visitor.see(alloc, replay, placed) {
                None => {}
                Some(end) => return end,
            },
            Err(end) => return end,
        }
    }
}
