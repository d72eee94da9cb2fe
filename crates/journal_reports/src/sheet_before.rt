//! The evidence of an event.

ghost use Rattle.std.specs.Prelude.{◌≡◌, ◌++◌, ◌∷◌, [], ℕ, List, Option, None, IfOk, IfErr, true};
ghost use Rattle.std.specs.Prelude.{false};
ghost use Rattle.sqlite.specs.Held.{state};
ghost use Rattle.review_policy.specs.Acts.{is_effect};
ghost use Rattle.review_policy.specs.declared.act.Effect.TheVariants as effects;
ghost use Rattle.office_store.specs.Shown.{IsIdle};
ghost use Rattle.office_words.specs.Tables.{is_profile};
ghost use Rattle.office_policy.specs.Happened.{event_meant};
ghost use Rattle.office_policy.specs.History.{Event as TheEvent, did};
ghost use Rattle.office_policy.specs.Revisions.{issues};
ghost use Rattle.review_office.specs.Meant.{meaning_over};
ghost use Rattle.journal.specs.Told.{GoesOn, Place, place, placed_meant};
ghost use Rattle.journal_office.specs.Rebuilt.{HasReplayed};
ghost use Rattle.journal_office.specs.Steps.{HasBegun};
ghost use Rattle.journal_reports.specs.Evidence.{IsEvidence, IsNoEvidence, ending_of};
ghost use Rattle.journal_reports.specs.Evidence.{evidence_of, is_wanted, issue_text, issuer_of};
ghost use Rattle.journal_reports.specs.Evidence.{none_of};
ghost use Rattle.journal_reports.specs.Lines.{line_of};
ghost use Rattle.journal_reports.specs.Steps.{Looks, NoneWanted, Searches};
ghost use Rattle.journal_reports.specs.Visiting.{HasSearched, IsSearching};
ghost use Rattle.no_memory.specs.Witness.{witness};

use crate::history::look_up;
use crate::line::text;
use journal::Placed;
use journal_faults::{NoEvidence, Refused};
use journal_office::{Replay, Visitor, visit};
use office_policy::{Deed, Event};
use office_words::{ProfileName, Text};
use review_office::Office;
use review_policy::Effect;
use sqlite::{Alter, Connection};
use std::alloc::Global;
use std::io::BufRead;

// Whether it is the same profile.
fn is_profile(name: &ProfileName, other: &ProfileName) -> bool
    ensures { result ≡ is_profile name.now other.now }
{
    name.team.is(&other.team) && name.profile.is(&other.profile)
}

// Whether an effect is that its revision is issued.
fn is_issue(effect: Effect) -> bool
    ensures { result ≡ is_effect effect effects.Issues }
{
    matches!(effect, Effect::Issues)
}

// Whether the deed is the issue of the revision.
fn issues_by(deed: &Deed, name: &ProfileName, number: u32) -> bool
    ensures { (caller : List ℕ) → result ≡ issues name.now number (did caller deed.now) }
{
    match deed {
        Deed::ActOnRevision {
            act,
            name: other,
            revision,
        } => is_issue(act.effect()) && is_profile(name, other) && number == *revision,
        _ => false,
    }
}

// Whether the event is the issue of the revision.
fn issues(event: &Event, name: &ProfileName, number: u32) -> bool
    ensures { result ≡ issues name.now number (event_meant event.now) }
{
    match event {
        Event::Founded { .. } => false,
        Event::Did { deed, .. } => issues_by(deed, name, number),
    }
}

// Whether the event is the one that is asked for: that of the line, where one is given, and else the
// issue of the revision.
fn is_wanted(placed: &Placed, name: &ProfileName, number: u32, line: Option<u64>) -> bool
    ensures { result ≡ is_wanted name.now number line (placed_meant placed.now) }
{
    match line {
        Some(line) => placed.line == line,
        None => issues(&placed.event, name, number),
    }
}

// Who asked for the event: of an issue, who issued.
fn issuer_of(event: &Event) -> &str
    ensures { result.now ≡ issuer_of (event_meant event.now) }
{
    match event {
        Event::Founded { .. } => "",
        Event::Did { caller, .. } => caller.as_str(),
    }
}

// Who issued the revision, and the line that says so.
fn issue_text(alloc: Global, placed: &Placed) -> Result<Text, NoEvidence>
    ensures text { IfOk result (λ text. text ≡ issue_text (placed_meant placed.now)) }
    ensures none { IfErr result (λ why. why ≡ NoEvidence.NoMemory witness) }
{
    let issuer = issuer_of(&placed.event);
    let line = placed.line;
    match format!(in alloc; "issuer: {issuer}\nline: {line}\n") {
        Ok(text) => Ok(Text::new(text)),
        Err(refused) => Err(NoEvidence::NoMemory(refused.into())),
    }
}

// What `history` says of the event. The office is that of the events before it.
fn history_text<S: Alter>(
    alloc: Global,
    office: &mut Office<S>,
    placed: &Placed,
) -> Result<Text, NoEvidence>
    ensures { (bytes : Option (List ℕ)) (here : Place) (es : List (ℕ × TheEvent))
        → HasReplayed bytes (meaning_over S.Store) here es office.old
        → Looks bytes (meaning_over S.Store) here es office.old office.new placed.now.line
        (λ h. line_of false h placed.now.line (event_meant placed.now.event)) result }
{
    match look_up(alloc, office, &placed.event) {
        Ok(found) => {
            let made = text(alloc, placed, &found);
            drop(found);
            match made {
                Ok(text) => Ok(Text::new(text)),
                Err(refused) => Err(NoEvidence::NoMemory(refused.into())),
            }
        }
        Err(fault) => Err(NoEvidence::Unseen {
            line: placed.line,
            fault,
        }),
    }
}

// What stands below the sheet. The office is that of the events before the event.
fn ending<S: Alter>(
    alloc: Global,
    office: &mut Office<S>,
    placed: &Placed,
    line: Option<u64>,
) -> Result<Text, NoEvidence>
    ensures { (bytes : Option (List ℕ)) (here : Place) (es : List (ℕ × TheEvent))
        → HasReplayed bytes (meaning_over S.Store) here es office.old
        → Looks bytes (meaning_over S.Store) here es office.old office.new placed.now.line
        (λ h. ending_of line h (placed_meant placed.now)) result }
{
    match line {
        Some(_) => history_text(alloc, office, placed),
        None => issue_text(alloc, placed),
    }
}

// The sheet, and what stands below it.
fn joined(alloc: Global, sheet: &Text, ending: &Text) -> Result<Text, NoEvidence>
    ensures text { IfOk result (λ text. text ≡ sheet.now ++ ending.now) }
    ensures none { IfErr result (λ why. why ≡ NoEvidence.NoMemory witness) }
{
    let sheet = sheet.as_str();
    let ending = ending.as_str();
    match format!(in alloc; "{sheet}{ending}") {
        Ok(text) => Ok(Text::new(text)),
        Err(refused) => Err(NoEvidence::NoMemory(refused.into())),
    }
}

// The evidence that the event gives, where the revision is there. The office is that of the events
// before it.
fn look<S: Alter>(
    alloc: Global,
    office: &mut Office<S>,
    placed: &Placed,
    name: &ProfileName,
    number: u32,
    line: Option<u64>,
) -> Result<Option<Text>, NoEvidence>
    ensures { (bytes : Option (List ℕ)) (here : Place) (es : List (ℕ × TheEvent))
        → HasReplayed bytes (meaning_over S.Store) here es office.old
        → Looks bytes (meaning_over S.Store) here es office.old office.new placed.now.line
        (λ h. evidence_of name.now number line h (placed_meant placed.now)) result }
{
    match office.sheet(alloc, name, number) {
        Ok(Some(sheet)) => {
            let ending = ending(alloc, office, placed, line)?;
            Ok(Some(joined(alloc, &sheet, &ending)?))
        }
        Ok(None) => Ok(None),
        Err(fault) => Err(NoEvidence::Unseen {
            line: placed.line,
            fault,
        }),
    }
}

// Has the event that is asked for happen again; the evidence that it gives.
fn give<S: Alter, R: BufRead>(
    alloc: Global,
    replay: &mut Replay<S, R>,
    placed: Placed,
    name: &ProfileName,
    number: u32,
    line: Option<u64>,
) -> Result<Text, NoEvidence>
    ensures { (bytes : Option (List ℕ)) (here : Place) (es : List (ℕ × TheEvent))
        → HasReplayed bytes (meaning_over S.Store) here es replay.old.office
        → GoesOn here (place R.remaining replay.old.events) (placed_meant placed ∷ [])
        → is_wanted name.now number line (placed_meant placed) ≡ true
        → Searches bytes name.now number line (meaning_over S.Store)
        replay.new.office result }
{
    let looked = look(alloc, &mut replay.office, &placed, name, number, line);
    match looked {
        Ok(found) => match replay.happen(alloc, placed) {
            Ok(()) => match found {
                Some(text) => Ok(text),
                None => Err(NoEvidence::NoRevision),
            },
            Err(refused) => {
                drop(found);
                Err(NoEvidence::Refused(refused))
            }
        },
        Err(why) => {
            drop(placed);
            Err(why)
        }
    }
}

// The word for that no event is asked for.
fn none_of(line: Option<u64>) -> NoEvidence
    ensures { result ≡ none_of line }
{
    match line {
        Some(_) => NoEvidence::NoEvent,
        None => NoEvidence::NotIssued,
    }
}

// Who looks for the event that is asked for.
#[derive(Drop)]
struct Seeker<'a> {
    name: &'a ProfileName,
    number: u32,
    line: Option<u64>,
}

impl<'a, S: Alter, R: BufRead> Visitor<S, R> for Seeker<'a> {
    type End = Result<Text, NoEvidence>;

    ghost is_at = { λ begun from looking now.
        IsSearching S.Store R.remaining begun from looking now };

    ghost ends = { λ begun from looking now found.
        HasSearched S.Store R.remaining begun from now found };

    fn see(
        &mut self,
        alloc: Global,
        replay: &mut Replay<S, R>,
        placed: Placed,
    ) -> Option<Result<Text, NoEvidence>> {
        let name = self.name;
        let number = self.number;
        let line = self.line;
        if is_wanted(&placed, name, number, line) {
            return Some(give(alloc, replay, placed, name, number, line));
        }
        match replay.happen(alloc, placed) {
            Ok(()) => None,
            Err(refused) => Some(Err(NoEvidence::Refused(refused))),
        }
    }

    fn stop(
        &mut self,
        _alloc: Global,
        _replay: &mut Replay<S, R>,
        refused: Refused,
    ) -> Result<Text, NoEvidence> {
        Err(NoEvidence::Refused(refused))
    }

    fn end(&mut self, _alloc: Global, _replay: &mut Replay<S, R>) -> Result<Text, NoEvidence> {
        Err(none_of(self.line))
    }
}

// The evidence of the event, where it is among those that haven't happened again yet.
fn search<S: Alter, R: BufRead>(
    alloc: Global,
    replay: &mut Replay<S, R>,
    name: &ProfileName,
    number: u32,
    line: Option<u64>,
) -> Result<Text, NoEvidence>
    requires { replay.old.events.fault ≡ None }
    ensures { (bytes : Option (List ℕ)) (es : List (ℕ × TheEvent))
        → HasReplayed bytes (meaning_over S.Store)
        (place R.remaining replay.old.events) es replay.old.office
        → NoneWanted name.now number line es
        → Searches bytes name.now number line (meaning_over S.Store)
        replay.new.office result }
{
    let mut wanted = Seeker { name, number, line };
    visit(alloc, replay, &mut wanted)
}

// The evidence of the event, where only the founding has happened again: before that no revision is
// there. Where the journal can't be read on behind that, it says why.
fn find<S: Alter, R: BufRead>(
    alloc: Global,
    replay: &mut Replay<S, R>,
    first: &Placed,
    halt: Option<Refused>,
    name: &ProfileName,
    number: u32,
    line: Option<u64>,
) -> Result<Text, NoEvidence>
    requires { halt ≡ None → replay.old.events.fault ≡ None }
    ensures { (bytes : Option (List ℕ)) → HasBegun (meaning_over S.Store) bytes replay.old.office
        (place R.remaining replay.old.events) (placed_meant first.now) halt
        → Searches bytes name.now number line (meaning_over S.Store)
        replay.new.office result }
{
    if let Some(refused) = halt {
        return Err(NoEvidence::Refused(refused));
    }
    if is_wanted(first, name, number, line) {
        Err(NoEvidence::NoRevision)
    } else {
        search(alloc, replay, name, number, line)
    }
}

/// The evidence of an event, of the journal that an office is built anew from over a connection to
/// an empty store: the review sheet of the revision as it was just before the event. The journal is
/// read no further.
///
/// Where no line is given the event is the issue of the revision, and below the sheet stand who
/// issued it and the line of the journal that says so. Else it is the event of that line, whatever
/// it is, and below the sheet stands the line by which `write_history` tells it.
///
/// # Errors
///
/// Why there is none. The connection is handed back in any case, as the last event left it.
pub fn evidence<S: Alter, R: BufRead + Drop>(
    alloc: Global,
    conn: Connection<S>,
    journal: R,
    name: &ProfileName,
    number: u32,
    line: Option<u64>,
) -> Result<(Text, Connection<S>), (NoEvidence, Connection<S>)>
    requires { IsIdle (state S.Store conn) }
    ensures evidence { IfOk result (λ found. IsEvidence (R.remaining journal) name.now number
        line (meaning_over S.Store) found.1 found.0) }
    ensures none { IfErr result (λ none. IsNoEvidence (R.remaining journal) name.now number
        line S.Store conn none.1 none.0) }
    ensures idle { IfOk result (λ found. IsIdle (state S.Store found.1)) }
    ensures idle_on_error { IfErr result (λ none. IsIdle (state S.Store none.1)) }
{
    let (mut replay, first, halt) = match Replay::begin(alloc, conn, journal, 0) {
        Ok(begun) => begun,
        Err((refused, conn)) => return Err((NoEvidence::Refused(refused), conn)),
    };
    let found = find(alloc, &mut replay, &first, halt, name, number, line);
    drop(first);
    let conn = replay.into_office().into_connection();
    match found {
        Ok(text) => Ok((text, conn)),
        Err(why) => Err((why, conn)),
    }
}
