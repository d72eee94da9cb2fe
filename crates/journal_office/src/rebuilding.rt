//! An office, built anew over a store as far as its journal can be read.

ghost use Rattle.std.specs.Prelude.{◌≡◌, ◌-◌, ◌^◌, ℕ, List, Option, None, IfErr, IfOk, OnOk};
ghost use Rattle.sqlite.specs.Held.{state};
ghost use Rattle.sqlite.specs.State.{HasCleanDisk};
ghost use Rattle.office_store.specs.Schema.{no_schema};
ghost use Rattle.office_store.specs.Shown.{IsIdle};
ghost use Rattle.office_policy.specs.History.{Event as TheEvent};
ghost use Rattle.review_office.specs.Meant.{meaning_over};
ghost use Rattle.journal.specs.Told.{place};
ghost use Rattle.journal_office.specs.Steps.{HasBegun, Stops};
ghost use Rattle.journal_office.specs.Rebuilding.{BuildsOn, IsBuilt, IsHalted, IsUnbuilt};
ghost use Rattle.journal_office.specs.Rebuilding.{ends_there};

use crate::office::{Rebuilt, replay_rest};
use crate::replay::Replay;
use journal_faults::{Refused, Why};
use sealed_log::Unreadable;
use sqlite::{Alter, Connection};
use std::alloc::Global;
use std::io::BufRead;

// Whether the journal ends before the line: the input and memory didn't fail, of which it may be one
// that strikes out.
fn ends_there(why: &Why) -> bool
    ensures { result ≡ ends_there why.now }
{
    match why {
        Why::Unread(Unreadable::Read) => false,
        Why::Unread(Unreadable::NoMemory(_)) => false,
        Why::Unread(_) => true,
        _ => false,
    }
}

// Of a journal that can't be read on, has the event that is held back happen again, where one is that
// can't be struck out any more. Why no more does.
fn replay_last<S: Alter, R: BufRead>(
    alloc: Global,
    replay: &mut Replay<S, R>,
    refused: Refused,
) -> Refused
    ensures halted { (bytes : Option (List ℕ))
        → Stops (meaning_over S.Store) bytes replay.old.office
        (place R.remaining replay.old.events) refused
        → IsHalted bytes (meaning_over S.Store) replay.new.office result.line result.why }
    ensures clean { HasCleanDisk (state S.Store replay.new.office)
        → HasCleanDisk (state S.Store replay.old.office) }
{
    if !ends_there(&refused.why) {
        return refused;
    }
    match replay.held_back() {
        Some(placed) => match replay.happen(alloc, placed) {
            Ok(()) => refused,
            Err(kept_out) => kept_out,
        },
        None => refused,
    }
}

// Has each further event happen again, as far as the journal can be read.
fn replay_as_read<S: Alter, R: BufRead>(
    alloc: Global,
    replay: &mut Replay<S, R>,
    halt: Option<Refused>,
) -> Result<(), Refused>
    requires { halt ≡ None → replay.old.events.fault ≡ None }
    ensures built { (bytes : Option (List ℕ)) (first : ℕ × TheEvent)
        → HasBegun (meaning_over S.Store) bytes replay.old.office
        (place R.remaining replay.old.events) first halt
        → replay.old.count ≡ 1
        → BuildsOn bytes (meaning_over S.Store) replay.new.office replay.new.count
        (place R.remaining replay.new.events) result }
    ensures clean { HasCleanDisk (state S.Store replay.new.office)
        → HasCleanDisk (state S.Store replay.old.office) }
{
    match replay_rest(alloc, replay, halt) {
        Ok(()) => Ok(()),
        Err(refused) => Err(replay_last(alloc, replay, refused)),
    }
}

/// Builds an office anew over a connection to an empty store, as far as a journal can be read: the
/// first event founds it, and each later one happens again in it, where the policy allows it to the
/// caller that it names. The number of events is that of the office, or the greatest u64.
///
/// # Errors
///
/// The first line by which that can't go on, and why. The connection is handed back, with all that
/// happened before. Where the journal ends within that line, or isn't sealed on, that is the event of
/// the last line too, which no line behind it can strike out any more; but where the input or memory
/// failed, only that of a founding.
pub fn rebuild_as_read<S: Alter, R: BufRead + Drop>(
    alloc: Global,
    conn: Connection<S>,
    journal: R,
) -> Result<Rebuilt<S>, (Refused, Connection<S>)>
    requires { IsIdle (state S.Store conn) }
    ensures built { IfOk result (λ built. IsBuilt (R.remaining journal) (meaning_over S.Store)
        built.office built.events built.seal built.lines) }
    ensures at { IfOk result (λ built. built.at ≡ None) }
    ensures unbuilt { IfErr result (λ refusal. IsUnbuilt (R.remaining journal)
        S.Store conn refusal.1 refusal.0) }
    ensures empty { OnOk result ((state S.Store conn).now.schema ≡ no_schema) }
    ensures clean { IfOk result (λ built. HasCleanDisk (state S.Store built.office)
        → HasCleanDisk (state S.Store conn)) }
    ensures idle { IfErr result (λ refusal. IsIdle (state S.Store refusal.1)) }
{
    let (mut replay, first, halt) = Replay::begin(alloc, conn, journal, 0)?;
    drop(first);
    let rebuilt = replay_as_read(alloc, &mut replay, halt);
    let events = replay.count();
    let seal = replay.seal();
    let lines = replay.taken();
    let office = replay.into_office();
    match rebuilt {
        Ok(()) => Ok(Rebuilt {
            office,
            events,
            seal,
            lines,
            at: None,
        }),
        Err(refused) => Err((refused, office.into_connection())),
    }
}
