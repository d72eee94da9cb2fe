//! What happened in an office, let happen again event by event.

ghost use Rattle.std.specs.Prelude.{◌≡◌, [], ◌∷◌, ◌+◌, ◌-◌, ◌^◌, ◌<◌, ℕ, List, Option, None, IfErr};
ghost use Rattle.std.specs.Prelude.{IfOk, OnOk, option_map};
ghost use Rattle.sqlite.specs.Held.{state};
ghost use Rattle.sqlite.specs.State.{HasCleanDisk};
ghost use Rattle.office_store.specs.Schema.{no_schema};
ghost use Rattle.office_store.specs.Shown.{IsIdle};
ghost use Rattle.office_policy.specs.Handled.{Stands, Survives};
ghost use Rattle.office_policy.specs.Happened.{event_meant};
ghost use Rattle.office_policy.specs.Lawful.{IsFounding};
ghost use Rattle.journal.specs.SealsAt.{Finds, IsSeen};
ghost use Rattle.journal.specs.Told.{held_at, place, placed_meant, without_held};
ghost use Rattle.review_office.specs.Meant.{meaning_over};
ghost use Rattle.journal_faults.specs.declared.refused.Why.TheVariants.{Unread};
ghost use Rattle.journal_office.specs.Rebuilt.{line_behind};
ghost use Rattle.journal_office.specs.Steps.{CountsNext, Happens, HasBegun, IsNext};
ghost use Rattle.journal_office.specs.Steps.{IsNoFounding, IsUnbegun, ReadsFirst};

use journal::{Events, Placed};
use journal_faults::{Refused, Why};
use office_policy::Event;
use review_office::Office;
use sealed_log::{Seal, Unreadable};
use sqlite::{Alter, Connection};
use std::alloc::Global;
use std::io::BufRead;

/// An office that is built anew from its journal, event by event.
#[derive(Drop)]
pub struct Replay<S: Alter, R> {
    /// The office of the events that have happened again. It can be looked at between them.
    pub office: Office<S>,
    events: Events<R>,
    // How many events were taken of the journal.
    count: u64,
}

// Where and why a journal can't be read on.
fn unread<R: BufRead>(events: &Events<R>, fault: Unreadable) -> Refused
    ensures { result ≡ record {
      line = line_behind (place R.remaining events.now).taken;
      why = Unread fault;
    } }
{
    Refused {
        line: events.taken().saturating_add(1),
        why: Why::Unread(fault),
    }
}

// The next event that stands.
fn next<R: BufRead>(alloc: Global, events: &mut Events<R>) -> Result<Option<Placed>, Refused>
    ensures next { events.old.fault ≡ None
        → IsNext (place R.remaining events.old) (place R.remaining events.new) result }
    ensures seen { (bytes : Option (List ℕ))
        → IsSeen bytes (place R.remaining events.old) events.old.at → IfOk result
        (λ _. IsSeen bytes (place R.remaining events.new) events.new.at) }
    ensures line { events.new.at.line ≡ events.old.at.line }
    ensures fault { IfOk result (λ _. events.new.fault ≡ None) }
{
    match events.next(alloc) {
        Ok(found) => Ok(found),
        Err(fault) => Err(unread(events, fault)),
    }
}

// The first event that stands; or the one that is held back where the journal can't be read on, with
// why.
fn first<R: BufRead>(
    alloc: Global,
    events: &mut Events<R>,
) -> Result<(Placed, Option<Refused>), Refused>
    requires { events.old.fault ≡ None }
    ensures first { ReadsFirst (place R.remaining events.old) (place R.remaining events.new) result }
    ensures seen { (bytes : Option (List ℕ))
        → IsSeen bytes (place R.remaining events.old) events.old.at → IfOk result
        (λ found. found.1 ≡ None → IsSeen bytes (place R.remaining events.new) events.new.at) }
    ensures line { IfOk result (λ found. found.1 ≡ None
        → events.new.at.line ≡ events.old.at.line) }
    ensures fault { IfOk result (λ found. found.1 ≡ None → events.new.fault ≡ None) }
{
    match next(alloc, events) {
        Ok(Some(placed)) => Ok((placed, None)),
        Ok(None) => Err(Refused {
            line: 0,
            why: Why::NotFounded,
        }),
        Err(refused) => match events.held_back() {
            Some(placed) => Ok((placed, Some(refused))),
            None => Err(refused),
        },
    }
}

// Has an event happen that is a founding.
fn found<S: Alter>(conn: Connection<S>, event: &Event) -> Result<Office<S>, (Why, Connection<S>)>
    requires { IsIdle (state S.Store conn) }
    ensures founding { IfOk result (λ _. IsFounding (event_meant event.now)) }
    ensures stands { IfOk result (λ office. HasCleanDisk (state S.Store office)
        → Stands (meaning_over S.Store) (event_meant event.now ∷ []) office) }
    ensures empty { OnOk result ((state S.Store conn).now.schema ≡ no_schema) }
    ensures clean { IfOk result (λ office. HasCleanDisk (state S.Store office)
        → HasCleanDisk (state S.Store conn)) }
    ensures refused { IfErr result (λ refusal.
        IsNoFounding S.Store (event_meant event.now) conn refusal.1 refusal.0) }
    ensures idle { IfErr result (λ refusal. IsIdle (state S.Store refusal.1)) }
{
    let Event::Founded {
        user,
        team,
        digest,
        listed,
    } = event
    else {
        return Err((Why::NotFounded, conn));
    };
    match Office::found(conn, user, team, digest, *listed) {
        Ok(office) => Ok(office),
        Err((fault, conn)) => Err((Why::Unfounded(fault), conn)),
    }
}

// Has the event happen that was taken last, where it is a founding.
fn found_by<S: Alter, R: BufRead + Drop>(
    conn: Connection<S>,
    events: Events<R>,
    placed: Placed,
) -> Result<(Replay<S, R>, Placed), (Refused, Connection<S>)>
    requires { IsIdle (state S.Store conn) }
    ensures kept { IfOk result (λ begun. (begun.0.events ≡ events) × (begun.1 ≡ placed)) }
    ensures count { IfOk result (λ begun. begun.0.count ≡ 1) }
    ensures founding { IfOk result (λ begun. IsFounding (event_meant begun.1.event)) }
    ensures stands { IfOk result (λ begun. HasCleanDisk (state S.Store begun.0.office)
        → Stands (meaning_over S.Store) (event_meant begun.1.event ∷ []) begun.0.office) }
    ensures empty { OnOk result ((state S.Store conn).now.schema ≡ no_schema) }
    ensures clean { IfOk result (λ begun. HasCleanDisk (state S.Store begun.0.office)
        → HasCleanDisk (state S.Store conn)) }
    ensures refused { IfErr result (λ refusal. (refusal.0.line ≡ placed.line)
        × IsNoFounding S.Store (event_meant placed.event) conn refusal.1 refusal.0.why) }
    ensures idle { IfErr result (λ refusal. IsIdle (state S.Store refusal.1)) }
{
    match found(conn, &placed.event) {
        Ok(office) => {
            let replay = Replay {
                office,
                events,
                count: 1,
            };
            Ok((replay, placed))
        }
        Err((why, conn)) => {
            let line = placed.line;
            Err((Refused { line, why }, conn))
        }
    }
}

impl<S: Alter, R: BufRead + Drop> Replay<S, R> {
    /// Founds an office over a connection to an empty store, by the first event of a journal; with
    /// that event. Where the journal can't be read on before one stands, it is the one that is held
    /// back, with why. Of the journal the seal of the first so many lines is kept.
    ///
    /// # Errors
    ///
    /// The first line by which that can't be, and why. The connection is handed back, with what it
    /// had where it is still open.
    pub fn begin(
        alloc: Global,
        conn: Connection<S>,
        journal: R,
        line: u64,
    ) -> Result<(Replay<S, R>, Placed, Option<Refused>), (Refused, Connection<S>)>
        requires { IsIdle (state S.Store conn) }
        ensures begun { IfOk result (λ begun. HasBegun (meaning_over S.Store)
            (R.remaining journal) begun.0.office
            (place R.remaining begun.0.events) (placed_meant begun.1) begun.2) }
        ensures founding { IfOk result (λ begun. IsFounding (event_meant begun.1.event)) }
        ensures fault { IfOk result (λ begun. begun.2 ≡ None → begun.0.events.fault ≡ None) }
        ensures count { IfOk result (λ begun. begun.0.count ≡ 1) }
        ensures seen { IfOk result (λ begun. begun.2 ≡ None → IsSeen (R.remaining journal)
            (place R.remaining begun.0.events) begun.0.events.at) }
        ensures line { IfOk result (λ begun. begun.2 ≡ None → begun.0.events.at.line ≡ line) }
        ensures unbegun { IfErr result (λ refusal. IsUnbegun (R.remaining journal)
            S.Store conn refusal.1 refusal.0.line refusal.0.why) }
        ensures empty { OnOk result ((state S.Store conn).now.schema ≡ no_schema) }
        ensures clean { IfOk result (λ begun. HasCleanDisk (state S.Store begun.0.office)
            → HasCleanDisk (state S.Store conn)) }
        ensures idle { IfErr result (λ refusal. IsIdle (state S.Store refusal.1)) }
    {
        let mut events = Events::new(alloc, journal, line);
        let (placed, halt) = match first(alloc, &mut events) {
            Ok(found) => found,
            Err(refused) => return Err((refused, conn)),
        };
        match found_by(conn, events, placed) {
            Ok((replay, placed)) => Ok((replay, placed, halt)),
            Err((refused, conn)) => Err((halt.unwrap_or(refused), conn)),
        }
    }

    /// The office, of which no more events happen again.
    pub fn into_office(self) -> Office<S>
        ensures { result ≡ self.office }
    {
        let Replay {
            office,
            events: _,
            count: _,
        } = self;
        office
    }
}

impl<S: Alter, R: BufRead> Replay<S, R> {
    /// How many events were taken of the journal.
    pub fn count(&self) -> u64
        ensures { result ≡ self.now.count }
    {
        self.count
    }

    /// How many lines were taken of the journal. At its end that is how many it has.
    pub fn taken(&self) -> u64
        ensures { result ≡ (place R.remaining self.now.events).taken }
    {
        self.events.taken()
    }

    /// The seal of the lines that were taken of the journal. At its end that is the seal of all of it.
    pub fn seal(&self) -> Seal
        ensures { result ≡ (place R.remaining self.now.events).seal }
    {
        self.events.seal()
    }

    /// The seal of the first so many lines as `begin` was to keep; `None` where fewer were taken.
    pub fn seal_at(&self) -> Option<Seal>
        ensures { Finds self.now.events.at (place R.remaining self.now.events).taken result }
    {
        self.events.seal_at()
    }

    /// The next event that stands, which hasn't happened again yet; `None` at the end of the
    /// journal.
    ///
    /// # Errors
    ///
    /// The line by which the journal can't be read on. From then on it is the same error.
    pub fn next(&mut self, alloc: Global) -> Result<Option<Placed>, Refused>
        ensures office { self.new.office ≡ self.old.office }
        ensures next { self.old.events.fault ≡ None → IsNext
            (place R.remaining self.old.events) (place R.remaining self.new.events) result }
        ensures seen { (bytes : Option (List ℕ))
            → IsSeen bytes (place R.remaining self.old.events) self.old.events.at → IfOk result
            (λ _. IsSeen bytes (place R.remaining self.new.events) self.new.events.at) }
        ensures line { self.new.events.at.line ≡ self.old.events.at.line }
        ensures fault { IfOk result (λ _. self.new.events.fault ≡ None) }
        ensures count { IfOk result (CountsNext self.old.count self.new.count) }
    {
        if self.count == u64::MAX {
            return Err(unread(&self.events, Unreadable::Read));
        }
        match next(alloc, &mut self.events)? {
            Some(placed) => {
                self.count += 1;
                Ok(Some(placed))
            }
            None => Ok(None),
        }
    }

    /// The event of the last line that was taken, where the next could strike it out. It hasn't happened
    /// again yet. Where the journal can't be read on it stands as far as it can be. It is given once.
    pub fn held_back(&mut self) -> Option<Placed>
        ensures office { self.new.office ≡ self.old.office }
        ensures count { self.new.count ≡ self.old.count }
        ensures held { option_map placed_meant result
            ≡ held_at (place R.remaining self.old.events) }
        ensures place { place R.remaining self.new.events
            ≡ without_held (place R.remaining self.old.events) }
        ensures fault { self.new.events.fault ≡ self.old.events.fault }
    {
        self.events.held_back()
    }

    /// Has the event happen again that was taken last, where the policy allows it to the caller
    /// that it names.
    ///
    /// # Errors
    ///
    /// Its line, and why it doesn't happen again.
    pub fn happen(&mut self, alloc: Global, placed: Placed) -> Result<(), Refused>
        ensures survives { Survives (meaning_over S.Store) self.old.office self.new.office }
        ensures events { self.new.events ≡ self.old.events }
        ensures count { self.new.count ≡ self.old.count }
        ensures happened { Happens (meaning_over S.Store)
            self.old.office self.new.office (placed_meant placed) result }
    {
        let replayed = self.office.replay(alloc, &placed.event);
        let line = placed.line;
        drop(placed);
        match replayed {
            Ok(()) => Ok(()),
            Err(cause) => Err(Refused {
                line,
                why: Why::Unreplayed(cause),
            }),
        }
    }
}
