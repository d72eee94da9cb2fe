//! Which events are shown.

ghost use Rattle.std.specs.Prelude.{◌≡◌, ℕ, List, Some, option_map};
ghost use Rattle.office_policy.specs.Happened.{event_meant};
ghost use Rattle.office_policy.specs.History.{did};
ghost use Rattle.journal.specs.Told.{placed_meant};
ghost use Rattle.journal_reports.specs.Passing.{is_about, is_asked, is_by, is_named};
ghost use Rattle.journal_reports.specs.Passing.{is_of_team, passes, profile_of, team_of};
ghost use Rattle.journal_reports.specs.Struck.{asks_for_all, shows_struck};

use journal::Placed;
use office_policy::{Deed, Event};
use office_words::{ProfileName, Word};
use std::marker::Model;

/// Which events are shown, and how: those of a team, about a profile of a name and by a user, where
/// one is named, from a line on. A founding and an enrolment are about no profile.
#[derive(Drop)]
pub struct Filter<'a> {
    /// The team: of the user who is founded or enrolled, or of the profile.
    pub team: Option<&'a Word>,
    /// The profile's name within its team.
    pub profile: Option<&'a Word>,
    /// Who did it: the caller, or who was founded.
    pub user: Option<&'a Word>,
    /// The number of the first line; 0 and 1 are each line.
    pub since: u64,
    /// Whether the lines are JSON.
    pub json: bool,
}

impl<'a> Model for Filter<'a> {
    ghost use Rattle.std.specs.Prelude.{option_map};
    ghost use Rattle.journal_reports.specs.Passing.{Asked};

    ghost Value = { Asked };

    ghost view = { λ filter. record {
      team = option_map (λ team. team.now) filter.team;
      profile = option_map (λ profile. profile.now) filter.profile;
      user = option_map (λ user. user.now) filter.user;
      since = filter.since;
      json = filter.json;
    } };
}

// The profile that a deed is about, where it is about one.
fn profile_of_deed(deed: &Deed) -> Option<&ProfileName>
    ensures { (caller : List ℕ)
        → option_map (λ name. name.now) result ≡ profile_of (did caller deed.now) }
{
    match deed {
        Deed::Enrol { .. } => None,
        Deed::Submit { name, .. }
        | Deed::Vote { name, .. }
        | Deed::ActOnRevision { name, .. }
        | Deed::ActOnProfile { name, .. } => Some(name),
    }
}

// The profile that an event is about, where it is about one.
fn profile_of(event: &Event) -> Option<&ProfileName>
    ensures { option_map (λ name. name.now) result ≡ profile_of (event_meant event.now) }
{
    match event {
        Event::Founded { .. } => None,
        Event::Did { deed, .. } => profile_of_deed(deed),
    }
}

// The team that a deed names.
fn team_of_deed(deed: &Deed) -> &Word
    ensures { (caller : List ℕ) → result.now ≡ team_of (did caller deed.now) }
{
    match deed {
        Deed::Enrol { team, .. } => team,
        Deed::Submit { name, .. }
        | Deed::Vote { name, .. }
        | Deed::ActOnRevision { name, .. }
        | Deed::ActOnProfile { name, .. } => &name.team,
    }
}

// The team that an event names.
fn team_of(event: &Event) -> &Word
    ensures { result.now ≡ team_of (event_meant event.now) }
{
    match event {
        Event::Founded { team, .. } => team,
        Event::Did { deed, .. } => team_of_deed(deed),
    }
}

// Whether an event is of the team, where one is named.
fn is_of_team(team: Option<&Word>, event: &Event) -> bool
    ensures { result ≡ is_of_team (option_map (λ team. team.now) team.entry) (event_meant event.now) }
{
    match team {
        Some(team) => team.is(team_of(event)),
        None => true,
    }
}

// Whether a profile is there, and has this name.
fn is_named(profile: &Word, found: Option<&ProfileName>) -> bool
    ensures { result ≡ is_named profile.now (option_map (λ name. name.now) found.entry) }
{
    match found {
        Some(name) => profile.is(&name.profile),
        None => false,
    }
}

// Whether an event is about a profile of this name, where one is named.
fn is_about(profile: Option<&Word>, event: &Event) -> bool
    ensures { result ≡ is_about (option_map (λ name. name.now) profile.entry) (event_meant event.now) }
{
    match profile {
        Some(profile) => is_named(profile, profile_of(event)),
        None => true,
    }
}

// Whether this user did it; a founding is done by the one who is founded.
fn is_by_user(user: &Word, event: &Event) -> bool
    ensures { result ≡ is_by (Some user.now) (event_meant event.now) }
{
    match event {
        Event::Founded { user: first, .. } => user.is(first),
        Event::Did { caller, .. } => user.is(caller),
    }
}

// Whether this user did it, where one is named.
fn is_by(user: Option<&Word>, event: &Event) -> bool
    ensures { result ≡ is_by (option_map (λ user. user.now) user.entry) (event_meant event.now) }
{
    match user {
        Some(user) => is_by_user(user, event),
        None => true,
    }
}

impl<'a> Filter<'a> {
    // Whether an event is shown, on whatever line.
    fn is_asked(&self, event: &Event) -> bool
        ensures { result ≡ is_asked self.now (event_meant event.now) }
    {
        is_of_team(self.team, event) && is_about(self.profile, event) && is_by(self.user, event)
    }

    // Whether no event is left out but for the number of its line.
    fn asks_for_all(&self) -> bool
        ensures { result ≡ asks_for_all self.now }
    {
        self.team.is_none() && self.profile.is_none() && self.user.is_none()
    }

    /// Whether a line is shown by which no event stands: it is struck out, or strikes one out.
    pub fn shows_struck(&self, line: u64) -> bool
        ensures { result ≡ shows_struck self.now line }
    {
        self.since <= line && self.asks_for_all()
    }

    /// Whether the event of a line is shown.
    pub fn passes(&self, placed: &Placed) -> bool
        ensures { result ≡ passes self.now (placed_meant placed.now) }
    {
        self.since <= placed.line && self.is_asked(&placed.event)
    }
}
