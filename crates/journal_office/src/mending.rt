//! What a crash left of a journal is made the journal of its office again.

ghost use Rattle.std.specs.Prelude.{◌≡◌, ◌≤◌, [], IfOk, IsTrue, length, option_map};
ghost use Rattle.sealed_log.specs.Log.{bodies_of};
ghost use Rattle.sealed_log.specs.Reading.{IsThrough};
ghost use Rattle.sealed_log.specs.Told.{HasMore};
ghost use Rattle.office_policy.specs.Happened.{event_meant};
ghost use Rattle.office_policy.specs.Judging.{LeavesAll};
ghost use Rattle.review_office.specs.Meant.{meaning_over};
ghost use Rattle.journal.specs.Kept.{IsKept, keeps};
ghost use Rattle.journal.specs.Writers.{ShowsIf, ShowsWriters, boxed_meant, writers_meant};
ghost use Rattle.journal_office.specs.Mending.{Asks, IsStruckOut, LooksAt, LooksFor, Mends};

use journal::{Kept, Line, Writers, text};
use journal_faults::NotReopened;
use office_policy::Event;
use review_office::Office;
use sealed_log::{SealedLog, Through};
use sqlite::Alter;
use sqlite_disk::Disk;
use std::alloc::{AllocError, Global};

// What became of the event that a journal holds back.
#[derive(Clone, Copy)]
enum Last {
    // The tables show it.
    Shown,
    // They don't.
    Unshown,
    // None is held back.
    Settled,
}

// Looks whether the tables show the event that is held back, where one is. Then it is a writer, too.
fn look_at<S: Alter>(
    alloc: Global,
    office: &mut Office<S>,
    writers: &mut Writers,
    held: Option<Event>,
) -> Result<Last, NotReopened>
    ensures leaves { LeavesAll (meaning_over S.Store) office.old office.new }
    ensures looks { LooksAt (meaning_over S.Store) office.old office.new
        (writers_meant writers.old) (writers_meant writers.new)
        (option_map event_meant held) result }
{
    let Some(event) = held else {
        return Ok(Last::Settled);
    };
    if office.shows(alloc, &event)? {
        writers.put(alloc, event)?;
        Ok(Last::Shown)
    } else {
        Ok(Last::Unshown)
    }
}

// Looks whether the tables show an event, where there is one.
fn look_for<S: Alter>(
    alloc: Global,
    office: &mut Office<S>,
    writer: &Option<Box<Event>>,
) -> Result<(), NotReopened>
    ensures leaves { LeavesAll (meaning_over S.Store) office.old office.new }
    ensures looks { LooksFor (meaning_over S.Store) office.old office.new
        (λ t. ShowsIf t (boxed_meant writer.now)) result }
{
    let Some(event) = writer else {
        return Ok(());
    };
    if office.shows(alloc, event)? {
        Ok(())
    } else {
        Err(NotReopened::OtherJournal)
    }
}

// Looks whether the tables show two events, where there are two.
fn look_for_both<S: Alter>(
    alloc: Global,
    office: &mut Office<S>,
    first: &Option<Box<Event>>,
    second: &Option<Box<Event>>,
) -> Result<(), NotReopened>
    ensures leaves { LeavesAll (meaning_over S.Store) office.old office.new }
    ensures looks { LooksFor (meaning_over S.Store) office.old office.new
        (λ t. ShowsIf t (boxed_meant first.now) × ShowsIf t (boxed_meant second.now)) result }
{
    look_for(alloc, office, first)?;
    look_for(alloc, office, second)
}

// Looks whether the tables show all of these, and one that enrolled a user.
fn look_for_all<S: Alter>(
    alloc: Global,
    office: &mut Office<S>,
    writers: &Writers,
) -> Result<(), NotReopened>
    ensures leaves { LeavesAll (meaning_over S.Store) office.old office.new }
    ensures looks { LooksFor (meaning_over S.Store) office.old office.new
        (λ t. ShowsWriters t (writers_meant writers.now)) result }
{
    if writers.users.is_none() {
        return Err(NotReopened::OtherJournal);
    }
    look_for_both(alloc, office, &writers.users, &writers.revisions)?;
    look_for_both(alloc, office, &writers.votes, &writers.baselines)?;
    look_for(alloc, office, &writers.holds)
}

// What became of the event that is held back, where the tables show the newest one that wrote to each
// of them: a crash keeps that event back, and no more.
fn ask<S: Alter>(
    alloc: Global,
    office: &mut Office<S>,
    settled: Writers,
    held: Option<Event>,
) -> Result<Last, NotReopened>
    ensures leaves { LeavesAll (meaning_over S.Store) office.old office.new }
    ensures asks { Asks (meaning_over S.Store) office.old office.new
        (writers_meant settled) (option_map event_meant held) result }
{
    let mut writers = settled;
    let last = look_at(alloc, office, &mut writers, held)?;
    look_for_all(alloc, office, &writers)?;
    Ok(last)
}

// Writes the line that strikes out the one before it.
fn strike_out<D: Disk>(alloc: Global, log: &mut SealedLog<D>) -> Result<(), NotReopened>
    ensures { IsStruckOut D.Disk log.old log.new result }
{
    let text = text(alloc, &Line::Strike)?;
    log.put(alloc, text.as_bytes())?;
    Ok(())
}

// Cuts off what stands behind the last line, and strikes that out where it says what the tables
// haven't got. Whether the event of the last line is settled then.
fn set_right<S: Alter, D: Disk>(
    alloc: Global,
    office: &mut Office<S>,
    found: &Through,
    settled: Writers,
    held: Option<Event>,
    log: &mut SealedLog<D>,
    mark: u32,
) -> Result<bool, NotReopened>
    requires found { IsTrue (D.is_clean log.old.disk)
        → IsThrough (D.seen log.old.disk) found.now }
    requires keeps { IsTrue (D.is_clean log.old.disk)
        → IsKept (bodies_of D.Disk log.old)
        (writers_meant settled) (option_map event_meant held) }
    requires whole { IsTrue (D.is_clean log.old.disk) → HasMore (D.seen log.old.disk) → ⊥ }
    requires marked { IsTrue (D.is_clean log.old.disk) → mark ≤ length (bodies_of D.Disk log.old) }
    ensures { Mends (meaning_over S.Store) D.Disk mark
        office.old office.new log.old log.new result }
{
    let last = ask(alloc, office, settled, held)?;
    log.open_at(found)?;
    match last {
        Last::Shown => Ok(false),
        Last::Settled => Ok(true),
        Last::Unshown => {
            strike_out(alloc, log)?;
            Ok(true)
        }
    }
}

// What is kept before the first line. It is boxed, since it ends at each return below.
fn begun(alloc: Global) -> Result<Box<Kept>, AllocError>
    ensures { IfOk result (λ kept. keeps [] kept.value) }
{
    Ok(Box::new(alloc, Kept::new())?)
}

/// Makes what a crash left of a journal the journal of this office, whose tables have this mark, and
/// opens it. Whether a line behind that of the last event strikes it out, or says that it is carried
/// out.
///
/// What stands behind its last line that is sealed is cut off, where that is no more than a line.
/// Where its last line says what has not reached the tables, the line that strikes it out is written
/// behind it. Nothing of the office is changed.
///
/// # Errors
///
/// No line is sealed, or more than a line stands behind those that are; a line is none of a journal;
/// there are fewer lines than the mark, or the tables don't show the newest event that wrote to each of
/// them, with the event of the last line or without; the office has a fault when it is asked; the file
/// or memory fails. After any of them it can be done again: a crash then leaves what the file told, and
/// behind that no more than it may have left before, or than a line that strikes out.
pub fn mend<S: Alter, D: Disk>(
    alloc: Global,
    office: &mut Office<S>,
    log: &mut SealedLog<D>,
    mark: u32,
) -> Result<bool, NotReopened>
    ensures { Mends (meaning_over S.Store) D.Disk mark
        office.old office.new log.old log.new result }
{
    let mut kept = begun(alloc)?;
    let found = log.read(alloc, &mut *kept)?;
    if found.lines() == 0 {
        return Err(NotReopened::Unsealed);
    }
    if found.has_more() {
        return Err(NotReopened::Changed { at: found.at() });
    }
    if found.lines() < mark as u64 {
        return Err(NotReopened::OtherJournal);
    }
    let (settled, held) = Box::into_inner(kept).end()?;
    set_right(alloc, office, &found, settled, held, log, mark)
}
