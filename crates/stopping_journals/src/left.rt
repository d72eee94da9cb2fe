//! What is left of an office and its journal, and what that has to be.

ghost use Rattle.sqlite.specs.Held.{state};
ghost use Rattle.office_store.specs.Shown.{IsIdle};

use journal::Journaled;
use journal_faults::NotReopened;
use journal_office::{Rebuilt, rebuild, reopen};
use review_office::Office;
use sealed_log::{Seal, SealedLog};
use sqlite::{Alter, Connection, Files};
use sqlite_disk::{Disk, Memory};
use std::alloc::Global;
use std::test::Fail;
use stopping_offices::begun::{at_rest, reopened};
use stopping_offices::files::{files_of, opened, synced};
use test_offices::tables::tables_of;

/// An office with its journal.
pub(crate) type Kept<S, D> = Journaled<Office<S>, SealedLog<D>>;

/// An office with the journal on a disk; or why it isn't opened with that, and both.
pub(crate) fn with_journal<S: Alter + Drop, D: Disk + Drop>(
    alloc: Global,
    office: Office<S>,
    disk: D,
) -> Result<Kept<S, D>, (NotReopened, Office<S>, D)> {
    match reopen(alloc, office, SealedLog::new(disk), 0) {
        Ok(office) => Ok(office),
        Err((why, office, log)) => Err((why, office, log.into_disk())),
    }
}

/// What is left of an office and its journal: the two files of the office, and the bytes of its
/// journal.
#[derive(Drop)]
pub(crate) struct Remains {
    pub(crate) files: Files<Memory>,
    pub(crate) journal: Vec<u8>,
    /// How many requests were answered, and not by a fault, of those that change something.
    pub(crate) events: u64,
}

// What a journal tells: the tables, how many events, and its seal.
#[derive(Drop)]
struct Told {
    text: Vec<u8>,
    tables: String,
    count: u64,
    seal: Seal,
}

// The office that a journal tells, in this database.
fn rebuild_in<S: Alter + Drop>(
    alloc: Global,
    conn: Connection<S>,
    text: &[u8],
) -> Result<Rebuilt<S>, Fail>
    requires { IsIdle (state S.Store conn) }
{
    match rebuild(alloc, conn, text, None) {
        Ok(rebuilt) => Ok(rebuilt),
        Err((refused, _)) => Err(Fail::from(refused.to_string(alloc)?)),
    }
}

// What a journal tells, by the office that was rebuilt of it.
fn told_by<S: Alter + Drop>(alloc: Global, text: &[u8], rebuilt: Rebuilt<S>) -> Result<Told, Fail> {
    let Rebuilt {
        office,
        events,
        seal,
        lines: _,
        at: _,
    } = rebuilt;
    Ok(Told {
        text: Vec::from_slice(alloc, text)?,
        tables: tables_of(alloc, &mut office.into_connection())?,
        count: events,
        seal,
    })
}

// What a journal tells, rebuilt in this database.
fn told_in<S: Alter + Drop>(alloc: Global, conn: Connection<S>, text: &[u8]) -> Result<Told, Fail> {
    let rebuilt = rebuild_in(alloc, at_rest(conn)?, text)?;
    told_by(alloc, text, rebuilt)
}

impl Told {
    fn of(alloc: Global, text: &[u8]) -> Result<Told, Fail> {
        told_in(alloc, Connection::open_in_memory(alloc)?, text)
    }
}

/// What journals tell, which is worked out once for each.
#[derive(Drop)]
pub(crate) struct AllTold {
    all: Vec<Told>,
}

impl AllTold {
    /// Of none.
    pub(crate) fn new(alloc: Global) -> AllTold {
        AllTold {
            all: Vec::new(alloc),
        }
    }

    // The place of what a journal tells.
    fn place_of(&mut self, alloc: Global, text: &[u8]) -> Result<usize, Fail> {
        if let Some(at) = self
            .all
            .iter()
            .position(|told| told.text.as_slice() == text)
        {
            return Ok(at);
        }
        self.all.push(Told::of(alloc, text)?)?;
        Ok(self.all.len().saturating_sub(1))
    }
}

// What an office and its journal have once they were opened.
#[derive(Drop)]
struct FoundAgain {
    tables: String,
    seal: Seal,
    journal: Memory,
}

fn again_by<S: Alter + Drop>(alloc: Global, office: Kept<S, Memory>) -> Result<FoundAgain, Fail> {
    let (office, log) = office.into_parts();
    let seal = log.seal();
    Ok(FoundAgain {
        tables: tables_of(alloc, &mut office.into_connection())?,
        seal,
        journal: log.into_disk(),
    })
}

// Opens an office with its journal.
fn again_of<S: Alter + Drop>(
    alloc: Global,
    office: Office<S>,
    journal: Memory,
) -> Result<FoundAgain, Fail> {
    match with_journal(alloc, office, journal) {
        Ok(office) => again_by(alloc, office),
        Err((why, _, _)) => Err(Fail::from(why.to_string(alloc)?)),
    }
}

fn again_in<S: Alter + Drop>(
    alloc: Global,
    conn: Connection<S>,
    journal: Memory,
) -> Result<FoundAgain, Fail> {
    match reopened(conn)? {
        Ok(office) => again_of(alloc, office, journal),
        Err(_) => Err(Fail::from("an office again")),
    }
}

// Opens the office over what was left with what was left of its journal.
fn open_again(alloc: Global, files: Files<Memory>, journal: Memory) -> Result<FoundAgain, Fail> {
    match opened(alloc, files) {
        Ok(conn) => again_in(alloc, conn, journal),
        Err(_) => Err(Fail::from("files that open again")),
    }
}

impl Remains {
    /// That an office and its journal open again, where these bytes stand behind that, with as many
    /// events as were answered or one more; and that the tables are those that the journal tells.
    /// Gives the place of what it tells.
    pub(crate) fn expect_told(
        &self,
        alloc: Global,
        told: &mut AllTold,
        behind: &[u8],
    ) -> Result<usize, Fail> {
        let files = files_of(alloc, self.files.log.bytes(), self.files.db.bytes())?;
        let mut journal = Vec::from_slice(alloc, &self.journal)?;
        journal.extend_from_slice(behind)?;
        let again = open_again(alloc, files, synced(alloc, &journal)?)?;
        let at = told.place_of(alloc, again.journal.bytes())?;
        let Some(told) = told.all.get(at) else {
            return Err(Fail::from("what a journal tells"));
        };
        // the founding is an event too
        let further = told.count.saturating_sub(1).saturating_sub(self.events);
        let is_told = again.tables.as_str() == told.tables.as_str() && again.seal == told.seal;
        if !is_told || told.count <= self.events || further > 1 {
            return Err(Fail::from((told.count, self.events, again.tables)));
        }
        Ok(at)
    }
}
