//! The history that people read of a journal.

ghost use Rattle.std.specs.Prelude.{◌≡◌, ◌-◌, ◌∷◌, ◌++◌, [], ℕ, List, Option, None, Ok};
ghost use Rattle.std.specs.Prelude.{IfErr, IfOk, string_bytes};
ghost use Rattle.sqlite.specs.Held.{state};
ghost use Rattle.sqlite.specs.State.{HasCleanDisk};
ghost use Rattle.office_store.specs.Shown.{IsIdle};
ghost use Rattle.office_policy.specs.Handled.{Stands};
ghost use Rattle.office_policy.specs.Happened.{event_meant};
ghost use Rattle.office_policy.specs.History.{Event as TheEvent, did};
ghost use Rattle.office_policy.specs.Lawful.{IsFounding};
ghost use Rattle.review_office.specs.Meant.{meaning_over};
ghost use Rattle.journal.specs.Told.{Place, place, placed_meant, start};
ghost use Rattle.journal_office.specs.Rebuilt.{HasReplayed};
ghost use Rattle.journal_office.specs.Steps.{ComesNext, IsFirstRead, IsLeft};
ghost use Rattle.journal_reports.specs.History.{HasWritten, IsUnwritten, IsWritten, last_line};
ghost use Rattle.journal_reports.specs.History.{shown_of};
ghost use Rattle.journal_reports.specs.Struck.{struck_lines};
ghost use Rattle.journal_reports.specs.Lines.{text_in};
ghost use Rattle.journal_reports.specs.Visiting.{HasWrittenOn, IsWriting};
ghost use Rattle.journal_reports.specs.Writing.{IsStopped, LooksUp, MakesLine, WritesAll};
ghost use Rattle.journal_reports.specs.Writing.{WritesFirst};
ghost use Rattle.journal_reports.specs.Writing.{WritesNext, WritesText};
ghost use Rattle.no_memory.specs.Witness.{witness};

use crate::filter::Filter;
use crate::json_line::json_text;
use crate::line::text;
use crate::struck::struck;
use journal::Placed;
use journal_faults::{Refused, Unwritten};
use journal_office::{Replay, Visitor, visit};
use office_policy::{Deed, Event};
use office_words::{Fault, RevisionRow};
use review_office::Office;
use sqlite::{Alter, Connection};
use std::alloc::{AllocError, Global};
use std::io::{BufRead, Write};
use streams::{Counted, write_whole};

// The revision that the line of a deed looks up, where it does.
fn look_up_deed<S: Alter>(
    alloc: Global,
    office: &mut Office<S>,
    deed: &Deed,
) -> Result<Option<RevisionRow>, Fault>
    ensures { (bytes : Option (List ℕ)) (here : Place) (es : List (ℕ × TheEvent)) (caller : List ℕ)
        → HasReplayed bytes (meaning_over S.Store) here es office.old
        → LooksUp bytes (meaning_over S.Store) here es office.old office.new
        (did caller deed.now) result }
{
    match deed {
        Deed::Enrol { .. } => Ok(None),
        Deed::Submit { name, .. } => office.last_revision(alloc, name),
        Deed::Vote { name, revision, .. } => office.revision(alloc, name, *revision),
        Deed::ActOnRevision { name, revision, .. } => office.revision(alloc, name, *revision),
        Deed::ActOnProfile { .. } => Ok(None),
    }
}

/// The revision that the line of an event looks up, where it does.
///
/// # Errors
///
/// The fault of the office.
pub(crate) fn look_up<S: Alter>(
    alloc: Global,
    office: &mut Office<S>,
    event: &Event,
) -> Result<Option<RevisionRow>, Fault>
    ensures { (bytes : Option (List ℕ)) (here : Place) (es : List (ℕ × TheEvent))
        → HasReplayed bytes (meaning_over S.Store) here es office.old
        → LooksUp bytes (meaning_over S.Store) here es office.old office.new
        (event_meant event.now) result }
{
    match event {
        Event::Founded { .. } => Ok(None),
        Event::Did { deed, .. } => look_up_deed(alloc, office, deed),
    }
}

// The line of an event, by what was looked up, for people or as JSON.
fn text_in(
    alloc: Global,
    filter: &Filter<'_>,
    placed: &Placed,
    found: &Option<RevisionRow>,
) -> Result<String, AllocError>
    ensures { IfOk result (λ text. string_bytes text
        ≡ text_in filter.now.json placed.now.line (event_meant placed.now.event) found.now) }
{
    if filter.json {
        json_text(alloc, placed, found)
    } else {
        text(alloc, placed, found)
    }
}

// The line of an event, where it is asked for, and else no text. The office is that of the events
// before it.
fn line_of<S: Alter>(
    alloc: Global,
    office: &mut Office<S>,
    placed: &Placed,
    filter: &Filter<'_>,
) -> Result<String, Unwritten>
    ensures { (bytes : Option (List ℕ)) (here : Place) (es : List (ℕ × TheEvent))
        → HasReplayed bytes (meaning_over S.Store) here es office.old
        → MakesLine bytes (meaning_over S.Store) here es office.old office.new
        filter.now (placed_meant placed.now) result }
{
    if !filter.passes(placed) {
        return Ok(String::new(alloc));
    }
    match look_up(alloc, office, &placed.event) {
        Ok(found) => {
            let made = text_in(alloc, filter, placed, &found);
            drop(found);
            match made {
                Ok(text) => Ok(text),
                Err(refused) => Err(Unwritten::NoMemory(refused.into())),
            }
        }
        Err(fault) => Err(Unwritten::Unseen {
            line: placed.line,
            fault,
        }),
    }
}

// Writes a line.
fn write_line<W: Write>(output: &mut Counted<W>, line: String) -> Result<(), Unwritten>
    ensures { WritesText (W.contents output.old.inner) (W.contents output.new.inner)
        (string_bytes line) result }
{
    match write_whole(output, line.as_bytes()) {
        Ok(()) => Ok(()),
        Err(_) => Err(Unwritten::Write),
    }
}

// Has the next event happen again, and writes its line. All before it were written.
fn write_event<S: Alter, R: BufRead, W: Write>(
    alloc: Global,
    replay: &mut Replay<S, R>,
    placed: Placed,
    filter: &Filter<'_>,
    output: &mut Counted<W>,
) -> Result<(), Unwritten>
    ensures events { replay.new.events ≡ replay.old.events }
    ensures count { replay.new.count ≡ replay.old.count }
    ensures written { (bytes from : Option (List ℕ)) (here : Place) (es : List (ℕ × TheEvent))
        → HasWritten bytes filter.now from (W.contents output.old.inner) (meaning_over S.Store)
        replay.old.office here es (placed.line - 1) replay.old.office
        → ComesNext here (placed_meant placed)
        → WritesNext bytes (meaning_over S.Store) filter.now from (W.contents output.new.inner)
        replay.new.office (es ++ placed_meant placed ∷ []) result }
{
    let made = line_of(alloc, &mut replay.office, &placed, filter);
    match made {
        Ok(line) => match replay.happen(alloc, placed) {
            Ok(()) => write_line(output, line),
            Err(refused) => {
                drop(line);
                Err(Unwritten::Refused(refused))
            }
        },
        Err(why) => {
            drop(placed);
            Err(why)
        }
    }
}

// Writes the lines for those of the journal behind one, up to the last: by none an event stands.
fn write_struck<W: Write>(
    alloc: Global,
    filter: &Filter<'_>,
    behind: u64,
    last: u64,
    output: &mut Counted<W>,
) -> Result<(), Unwritten>
    ensures { WritesFirst (W.contents output.old.inner) (W.contents output.new.inner)
        (struck_lines filter.now behind (last - behind)) result }
{
    let text = struck(alloc, filter, behind, last)?;
    write_line(output, text)
}

// Has the next event happen again, and writes the lines behind that of the last one, up to its own.
fn write_next<S: Alter, R: BufRead, W: Write>(
    alloc: Global,
    replay: &mut Replay<S, R>,
    behind: u64,
    placed: Placed,
    filter: &Filter<'_>,
    output: &mut Counted<W>,
) -> Result<(), Unwritten>
    ensures events { replay.new.events ≡ replay.old.events }
    ensures count { replay.new.count ≡ replay.old.count }
    ensures written { (bytes from : Option (List ℕ)) (here : Place) (es : List (ℕ × TheEvent))
        → HasWritten bytes filter.now from (W.contents output.old.inner) (meaning_over S.Store)
        replay.old.office here es behind replay.old.office
        → last_line es ≡ behind
        → ComesNext here (placed_meant placed)
        → WritesNext bytes (meaning_over S.Store) filter.now from (W.contents output.new.inner)
        replay.new.office (es ++ placed_meant placed ∷ []) result }
{
    match write_struck(alloc, filter, behind, placed.line.saturating_sub(1), output) {
        Ok(()) => write_event(alloc, replay, placed, filter, output),
        Err(why) => {
            drop(placed);
            Err(why)
        }
    }
}

// Of a journal that can't be read on, has the event that is held back happen again, where one is, and
// writes the lines up to its own, or all that are left. Why no more is written.
fn write_last<S: Alter, R: BufRead, W: Write>(
    alloc: Global,
    replay: &mut Replay<S, R>,
    behind: u64,
    refused: Refused,
    filter: &Filter<'_>,
    output: &mut Counted<W>,
) -> Unwritten
    ensures { (bytes from : Option (List ℕ)) (here : Place) (es : List (ℕ × TheEvent))
        → HasWritten bytes filter.now from (W.contents output.old.inner) (meaning_over S.Store)
        replay.old.office here es behind replay.old.office
        → last_line es ≡ behind
        → IsLeft here (place R.remaining replay.old.events) refused.line refused.why
        → IsStopped bytes (meaning_over S.Store) filter.now from (W.contents output.new.inner)
        replay.new.office result }
{
    match replay.held_back() {
        Some(placed) => match write_next(alloc, replay, behind, placed, filter, output) {
            Ok(()) => Unwritten::Refused(refused),
            Err(why) => why,
        },
        None => match write_struck(alloc, filter, behind, replay.taken(), output) {
            Ok(()) => Unwritten::Refused(refused),
            Err(other) => other,
        },
    }
}

// Who writes the lines of events, each once it has happened again.
struct Writer<'o, 'a, 'f, W> {
    output: &'o mut Counted<W>,
    filter: &'a Filter<'f>,
    // The line of the last event that has happened again.
    behind: u64,
}

// By this clause a caller knows what was written to the output that it lent.
impl<W> Drop for Writer<'_, '_, '_, W> {
    fn drop(self)
        ensures { self.exit.0.now ≡ self.entry.output.now }
    {
        let Writer {
            output: _,
            filter: _,
            behind: _,
        } = self;
    }
}

impl<S: Alter, R: BufRead, W: Write> Visitor<S, R> for Writer<'_, '_, '_, W> {
    type End = Result<(), Unwritten>;

    ghost is_at = { λ begun from writer now.
        IsWriting S.Store R.remaining W.contents begun from writer now };

    ghost ends = { λ begun from writer now written.
        HasWrittenOn S.Store R.remaining W.contents begun from writer now written };

    fn see(
        &mut self,
        alloc: Global,
        replay: &mut Replay<S, R>,
        placed: Placed,
    ) -> Option<Result<(), Unwritten>> {
        let filter = self.filter;
        let behind = self.behind;
        let line = placed.line;
        let output = &mut *self.output;
        match write_next(alloc, replay, behind, placed, filter, output) {
            Ok(()) => {
                self.behind = line;
                None
            }
            Err(why) => Some(Err(why)),
        }
    }

    fn stop(
        &mut self,
        alloc: Global,
        replay: &mut Replay<S, R>,
        refused: Refused,
    ) -> Result<(), Unwritten> {
        let filter = self.filter;
        let behind = self.behind;
        let output = &mut *self.output;
        Err(write_last(alloc, replay, behind, refused, filter, output))
    }

    fn end(&mut self, alloc: Global, replay: &mut Replay<S, R>) -> Result<(), Unwritten> {
        let filter = self.filter;
        let behind = self.behind;
        let output = &mut *self.output;
        write_struck(alloc, filter, behind, replay.taken(), output)
    }
}

// Has each further event happen again, and writes the lines behind that of the first.
fn write_rest<S: Alter, R: BufRead, W: Write>(
    alloc: Global,
    replay: &mut Replay<S, R>,
    first: u64,
    filter: &Filter<'_>,
    output: &mut Counted<W>,
) -> Result<(), Unwritten>
    requires { replay.old.events.fault ≡ None }
    ensures { (bytes from : Option (List ℕ)) (es : List (ℕ × TheEvent))
        → HasWritten bytes filter.now from (W.contents output.old.inner) (meaning_over S.Store)
        replay.old.office (place R.remaining replay.old.events) es first replay.old.office
        → last_line es ≡ first
        → WritesAll bytes (meaning_over S.Store) filter.now from (W.contents output.new.inner)
        replay.new.office result }
{
    let mut writer = Writer {
        output,
        filter,
        behind: first,
    };
    visit(alloc, replay, &mut writer)
}

// The line of the founding, where it is asked for, and else no text.
fn first_line(alloc: Global, first: &Placed, filter: &Filter<'_>) -> Result<String, Unwritten>
    requires { IsFounding (event_meant first.now.event) }
    ensures line { IfOk result (λ text.
        string_bytes text ≡ shown_of filter.now [] (placed_meant first.now)) }
    ensures none { IfErr result (λ why. why ≡ Unwritten.NoMemory witness) }
{
    if !filter.passes(first) {
        return Ok(String::new(alloc));
    }
    match text_in(alloc, filter, first, &None) {
        Ok(text) => Ok(text),
        Err(refused) => Err(Unwritten::NoMemory(refused.into())),
    }
}

// Writes the line of the founding.
fn write_first<W: Write>(
    alloc: Global,
    first: Placed,
    filter: &Filter<'_>,
    output: &mut Counted<W>,
) -> Result<(), Unwritten>
    requires { IsFounding (event_meant first.event) }
    ensures { WritesFirst (W.contents output.old.inner) (W.contents output.new.inner)
        (shown_of filter.now [] (placed_meant first)) result }
{
    let made = first_line(alloc, &first, filter);
    drop(first);
    write_line(output, made?)
}

// Writes the lines of all events, of which the first one has happened again. Where the journal can't
// be read on behind that, it says why.
fn write_all<S: Alter, R: BufRead, W: Write>(
    alloc: Global,
    replay: &mut Replay<S, R>,
    first: Placed,
    halt: Option<Refused>,
    filter: &Filter<'_>,
    output: &mut Counted<W>,
) -> Result<(), Unwritten>
    requires fault { halt ≡ None → replay.old.events.fault ≡ None }
    requires founding { IsFounding (event_meant first.event) }
    ensures { (bytes : Option (List ℕ))
        → IsFirstRead (start bytes) (place R.remaining replay.old.events) (placed_meant first) halt
        → (HasCleanDisk (state S.Store replay.old.office)
        → Stands (meaning_over S.Store) (event_meant first.event ∷ []) replay.old.office)
        → WritesAll bytes (meaning_over S.Store) filter.now (W.contents output.old.inner)
        (W.contents output.new.inner) replay.new.office result }
{
    let line = first.line;
    write_struck(alloc, filter, 0, line.saturating_sub(1), output)?;
    write_first(alloc, first, filter, output)?;
    match halt {
        None => write_rest(alloc, replay, line, filter, output),
        Some(refused) => Err(Unwritten::Refused(refused)),
    }
}

/// Writes the history of the journal that an office is built anew from over a connection to an
/// empty store: a line for each of its lines that is asked for, the oldest first. The connection is
/// handed back in any case, as the last event left it.
///
/// # Errors
///
/// Why not each line was written. Those before were.
pub fn write_history<S: Alter, R: BufRead + Drop, W: Write>(
    alloc: Global,
    conn: Connection<S>,
    journal: R,
    filter: &Filter<'_>,
    output: &mut Counted<W>,
) -> Result<Connection<S>, (Unwritten, Connection<S>)>
    requires { IsIdle (state S.Store conn) }
    ensures written { IfOk result (λ left. IsWritten (R.remaining journal) filter.now
        (W.contents output.old.inner) (W.contents output.new.inner) (meaning_over S.Store) left) }
    ensures unwritten { IfErr result (λ stopped. IsUnwritten (R.remaining journal) filter.now
        (W.contents output.old.inner) (W.contents output.new.inner)
        S.Store conn stopped.1 stopped.0) }
    ensures idle { IfOk result (λ left. IsIdle (state S.Store left)) }
    ensures idle_on_error { IfErr result (λ stopped. IsIdle (state S.Store stopped.1)) }
{
    let (mut replay, first, halt) = match Replay::begin(alloc, conn, journal, 0) {
        Ok(begun) => begun,
        Err((refused, conn)) => return Err((Unwritten::Refused(refused), conn)),
    };
    let written = write_all(alloc, &mut replay, first, halt, filter, output);
    let conn = replay.into_office().into_connection();
    match written {
        Ok(()) => Ok(conn),
        Err(why) => Err((why, conn)),
    }
}
