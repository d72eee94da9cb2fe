//! An office, built anew from its journal.

ghost use Rattle.std.specs.Prelude.{◌≡◌, ◌-◌, ◌^◌, [], ℕ, List, Option, None, Some, IfErr, IfOk};
ghost use Rattle.std.specs.Prelude.{IfSome, OnOk};
ghost use Rattle.sqlite.specs.Held.{state};
ghost use Rattle.sqlite.specs.State.{HasCleanDisk};
ghost use Rattle.office_store.specs.Schema.{no_schema};
ghost use Rattle.office_store.specs.Shown.{IsIdle};
ghost use Rattle.office_policy.specs.History.{Event as TheEvent};
ghost use Rattle.sealed_log.specs.Told.{told};
ghost use Rattle.journal.specs.SealsAt.{IsFound, IsSealAsked, IsSeen};
ghost use Rattle.journal.specs.Told.{place};
ghost use Rattle.review_office.specs.Meant.{meaning_over};
ghost use Rattle.journal_office.specs.Rebuilt.{Rebuilds, Refutes};
ghost use Rattle.journal_office.specs.Replaying.{HasGoneOn, IsReplaying};
ghost use Rattle.journal_office.specs.Steps.{Continues, HasBegun};

use crate::replay::Replay;
use crate::visitor::{Visitor, visit};
use journal::Placed;
use journal_faults::Refused;
use review_office::Office;
use sealed_log::Seal;
use sqlite::{Alter, Connection};
use std::alloc::Global;
use std::io::BufRead;

// Who has each event happen again.
#[derive(Drop)]
struct Again;

impl<S: Alter, R: BufRead> Visitor<S, R> for Again {
    type End = Result<(), Refused>;

    ghost is_at = { λ begun from again now. IsReplaying S.Store R.remaining from now };

    ghost ends = { λ begun from again now replayed.
        HasGoneOn S.Store R.remaining from now replayed };

    fn see(
        &mut self,
        alloc: Global,
        replay: &mut Replay<S, R>,
        placed: Placed,
    ) -> Option<Result<(), Refused>> {
        match replay.happen(alloc, placed) {
            Ok(()) => None,
            Err(refused) => Some(Err(refused)),
        }
    }

    fn stop(
        &mut self,
        _alloc: Global,
        _replay: &mut Replay<S, R>,
        refused: Refused,
    ) -> Result<(), Refused> {
        Err(refused)
    }

    fn end(&mut self, _alloc: Global, _replay: &mut Replay<S, R>) -> Result<(), Refused> {
        Ok(())
    }
}

// Has each further event happen again, where the journal could be read on behind the first. Where and
// why no more does.
pub(crate) fn replay_rest<S: Alter, R: BufRead>(
    alloc: Global,
    replay: &mut Replay<S, R>,
    halt: Option<Refused>,
) -> Result<(), Refused>
    requires { halt ≡ None → replay.old.events.fault ≡ None }
    ensures replayed { (bytes : Option (List ℕ)) (first : ℕ × TheEvent)
        → HasBegun (meaning_over S.Store) bytes replay.old.office
        (place R.remaining replay.old.events) first halt
        → replay.old.count ≡ 1
        → Continues (meaning_over S.Store) bytes replay.new.office replay.new.count
        (place R.remaining replay.new.events) result }
    ensures read { IfOk result (λ _. halt ≡ None) }
    ensures seen { (bytes : Option (List ℕ))
        → IsSeen bytes (place R.remaining replay.old.events) replay.old.events.at → IfOk result
        (λ _. IsSeen bytes (place R.remaining replay.new.events) replay.new.events.at
        × IfSome bytes (λ _. (place R.remaining replay.new.events).left ≡ Some [])) }
    ensures line { replay.new.events.at.line ≡ replay.old.events.at.line }
    ensures clean { HasCleanDisk (state S.Store replay.new.office)
        → HasCleanDisk (state S.Store replay.old.office) }
{
    if let Some(refused) = halt {
        return Err(refused);
    }
    let mut again = Again;
    visit(alloc, replay, &mut again)
}

/// An office that was built anew from its journal.
#[derive(Drop)]
pub struct Rebuilt<S: Alter> {
    pub office: Office<S>,
    /// How many events stand.
    pub events: u64,
    /// The seal of the journal, which names all of it.
    pub seal: Seal,
    /// How many lines the journal has.
    pub lines: u64,
    /// The seal of the first so many lines as were asked for; `None` where it has fewer, or it wasn't
    /// asked for.
    pub at: Option<Seal>,
}

// The number of lines of which the seal is kept.
fn kept_lines(line: Option<u64>) -> u64
    ensures { IfSome line (λ n. result ≡ n) }
{
    match line {
        Some(line) => line,
        None => 0,
    }
}

// The seal of these lines, where it is asked for.
fn seal_asked<S: Alter, R: BufRead>(replay: &Replay<S, R>, line: Option<u64>) -> Option<Seal>
    ensures { IsFound line replay.now.events.at
        (place R.remaining replay.now.events).taken result }
{
    match line {
        Some(_) => replay.seal_at(),
        None => None,
    }
}

/// Builds an office anew over a connection to an empty store: the first event of a journal founds
/// it, and each later one happens again in it, where the policy allows it to the caller that it
/// names. The seal of the first so many lines is given, where it is asked for.
///
/// # Errors
///
/// The first line by which that can't go on, and why; no lawful history has the journal then,
/// unless the input, memory or the store has a fault, or no office is founded over the connection.
/// That is handed back, as the last event left it.
pub fn rebuild<S: Alter, R: BufRead + Drop>(
    alloc: Global,
    conn: Connection<S>,
    journal: R,
    line: Option<u64>,
) -> Result<Rebuilt<S>, (Refused, Connection<S>)>
    requires { IsIdle (state S.Store conn) }
    ensures rebuilt { Rebuilds (R.remaining journal) S.Store conn result }
    ensures at { IfOk result (λ built. IfSome (R.remaining journal)
        (λ text. IsSealAsked line (told text) built.at)) }
    ensures unlawful { IfErr result (λ refusal. Refutes (R.remaining journal)
        (HasCleanDisk (state S.Store refusal.1)) refusal.0.why) }
    ensures empty { OnOk result ((state S.Store conn).now.schema ≡ no_schema) }
    ensures idle { IfErr result (λ refusal. IsIdle (state S.Store refusal.1)) }
{
    let (mut replay, first, halt) = Replay::begin(alloc, conn, journal, kept_lines(line))?;
    drop(first);
    let replayed = replay_rest(alloc, &mut replay, halt);
    let events = replay.count();
    let seal = replay.seal();
    let lines = replay.taken();
    let at = seal_asked(&replay, line);
    let office = replay.into_office();
    match replayed {
        Ok(()) => Ok(Rebuilt {
            office,
            events,
            seal,
            lines,
            at,
        }),
        Err(refused) => Err((refused, office.into_connection())),
    }
}
