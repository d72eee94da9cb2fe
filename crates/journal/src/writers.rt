//! Of each table the newest event that wrote to it.

ghost use Rattle.std.specs.Prelude.{◌≡◌, ℕ, IfOk, List};
ghost use Rattle.office_policy.specs.Happened.{event_meant};
ghost use Rattle.office_policy.specs.History.{did};
ghost use Rattle.journal.specs.Writers.{no_writers, table_of, table_of_effect, with_writer};
ghost use Rattle.journal.specs.Writers.{writers_meant};

use office_policy::{Deed, Event};
use review_policy::Effect;
use std::alloc::{AllocError, Global};

// A table of an office.
#[derive(Clone, Copy)]
enum Table {
    Users,
    Revisions,
    Votes,
    Baselines,
    Holds,
}

// The table that the effect of an act on a revision is written to.
fn table_of_effect(effect: Effect) -> Table
    ensures { result ≡ table_of_effect effect }
{
    match effect {
        Effect::Issues | Effect::Withdraws => Table::Revisions,
        Effect::Adopts => Table::Baselines,
    }
}

// The table that what a user did writes to.
fn table_of_deed(deed: &Deed) -> Table
    ensures { (caller : List ℕ) → result ≡ table_of (did caller deed.now) }
{
    match deed {
        Deed::Enrol { .. } => Table::Users,
        Deed::Submit { .. } => Table::Revisions,
        Deed::Vote { .. } => Table::Votes,
        Deed::ActOnRevision { act, .. } => table_of_effect(act.effect()),
        Deed::ActOnProfile { .. } => Table::Holds,
    }
}

// The table that an event writes to.
fn table_of(event: &Event) -> Table
    ensures { result ≡ table_of (event_meant event.now) }
{
    match event {
        Event::Founded { .. } => Table::Users,
        Event::Did { deed, .. } => table_of_deed(deed),
    }
}

/// Of each table of an office the newest event that wrote to it, where one did. A vote before the
/// last enrolment is passed over: what it shows depends on its voter's roles.
#[derive(Drop)]
pub struct Writers {
    pub users: Option<Box<Event>>,
    pub revisions: Option<Box<Event>>,
    pub votes: Option<Box<Event>>,
    pub baselines: Option<Box<Event>>,
    pub holds: Option<Box<Event>>,
}

impl Writers {
    /// Those of no event.
    pub fn new() -> Writers
        ensures { writers_meant result ≡ no_writers }
    {
        Writers {
            users: None,
            revisions: None,
            votes: None,
            baselines: None,
            holds: None,
        }
    }

    /// An event comes behind these.
    ///
    /// # Errors
    ///
    /// There was no memory for it.
    pub fn put(&mut self, alloc: Global, event: Event) -> Result<(), AllocError>
        ensures { IfOk result (λ _. writers_meant self.new
            ≡ with_writer (event_meant event) (writers_meant self.old)) }
    {
        let table = table_of(&event);
        let event = Some(Box::new(alloc, event)?);
        match table {
            Table::Users => {
                self.users = event;
                self.votes = None;
            }
            Table::Revisions => self.revisions = event,
            Table::Votes => self.votes = event,
            Table::Baselines => self.baselines = event,
            Table::Holds => self.holds = event,
        }
        Ok(())
    }
}
