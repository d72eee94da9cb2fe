//! An office over two files with its journal in a third: each of the three stops in turn.

use crate::left::{AllTold, Kept, Remains, with_journal};
use office_policy::Handler;
use review_office::Office;
use sqlite::{Alter, Connection, FileStore, Files};
use sqlite_disk::{Crash, Disk, Fuse, Memory};
use std::alloc::Global;
use std::test::Fail;
use stopping_offices::asked::{answer_to, is_fault};
use stopping_offices::begun::{Beginning, begin, reopened};
use stopping_offices::course::requests_of;
use stopping_offices::files::{
    ENDLESS, File, Stop, crashed, empty_files, files_of, has_stopped, kept, opened, synced,
};
use stopping_offices::runs::closed;

/// The journal of the founding that tests begin with, with the seal that Python's hashlib makes.
pub(crate) const FOUNDING: &str = concat!(
    r#"{"line":{"digest":"ba7816bf8f01cfea414140de5dae2223b00361a396177a9cb410ff61f20015ad","event":"found","#,
    r#""listed":["CAP_SYS_ADMIN"],"team":"office","user":"root"},"seal":"59dcfe6e4451871df38be188b58762b68dfff603fb898971e569464b471834e1"}
"#
);

// An enrolment behind it that the tables haven't got, and a part of a line.
const AHEAD: &str = concat!(
    r#"{"line":{"by":"root","digest":"b9382ae65bf200e3350f913c9c98f85340bd0ffff6d864c5c9c6829d2c5b05dd","event":"enrol","#,
    r#""roles":["author"],"team":"blue","user":"ann"},"seal":"315ed97d4db31268cc5679f7bbbed494795abfdfa506f367bb5a98f4eec727cb"}
{"line":{"by":"root","digest":"b9382ae65bf200e3350f91"#
);

// What a run left: the two files of the office, and its journal.
#[derive(Drop)]
struct Left {
    files: Files<Fuse<Memory>>,
    log: Fuse<Memory>,
    // How many requests were answered, and not by a fault, of those that change something.
    events: u64,
}

/// One of the three files.
#[derive(Clone, Copy, Debug)]
pub enum Third {
    /// The log of the database.
    Log,
    /// The database.
    Database,
    /// The journal.
    Journal,
}

/// A file that stops after so many of its calls.
#[derive(Clone, Copy, Debug)]
pub(crate) struct Stopping {
    pub(crate) file: Third,
    pub(crate) calls: u64,
}

impl Stopping {
    // What stops of the office's two files; not before the end, where it is the journal.
    fn of_office(self) -> Stop {
        match self.file {
            Third::Log => Stop {
                file: File::Log,
                calls: self.calls,
            },
            Third::Database => Stop {
                file: File::Database,
                calls: self.calls,
            },
            Third::Journal => Stop {
                file: File::Log,
                calls: ENDLESS,
            },
        }
    }

    // How many calls the journal has.
    fn journal_calls(self) -> u64 {
        match self.file {
            Third::Journal => self.calls,
            Third::Log | Third::Database => ENDLESS,
        }
    }

    // Whether the file has stopped.
    fn is_reached(self, left: &mut Left) -> bool {
        match self.file {
            Third::Journal => has_stopped(&mut left.log),
            Third::Log | Third::Database => self.of_office().is_reached(&mut left.files),
        }
    }
}

// The database of an office that is founded in it.
fn founded_in<S: Alter + Drop>(alloc: Global, conn: Connection<S>) -> Result<Connection<S>, Fail> {
    match begin(alloc, conn, Beginning::Founding)? {
        Ok(office) => Ok(office.into_connection()),
        Err(conn) => Ok(conn),
    }
}

// The files of an office that was founded.
fn founded_files(alloc: Global) -> Result<Files<Memory>, Fail> {
    match opened(alloc, empty_files(alloc)) {
        Ok(conn) => Ok(closed(founded_in(alloc, conn)?)),
        Err(_) => Err(Fail::from("files that open")),
    }
}

/// The files of an office that was founded, and its journal, with this text behind that.
pub(crate) fn founded(alloc: Global, behind: &str) -> Result<Remains, Fail> {
    let files = founded_files(alloc)?;
    let mut journal = Vec::from_slice(alloc, FOUNDING.as_bytes())?;
    journal.extend_from_slice(behind.as_bytes())?;
    Ok(Remains {
        files: files_of(alloc, files.log.bytes(), files.db.bytes())?,
        journal,
        events: 0,
    })
}

// What is answered where a request was carried out.
const DONE: &str = r#""answer":"done""#;

// What the requests have that only read.
const READING: [&str; 4] = [
    r#""ask":"show""#,
    r#""ask":"sheet""#,
    r#""ask":"list""#,
    r#""ask":"fetch""#,
];

// Asks an office the requests up to the first that is answered by a fault, where the process dies. Gives how many changed something.
fn ask_all<H: Handler>(alloc: Global, office: &mut H, requests: &[&str]) -> Result<u64, Fail> {
    let mut events = 0u64;
    for request in requests {
        let answer = answer_to(alloc, office, request)?;
        if is_fault(answer.as_str()) {
            break;
        }
        let reads = READING.iter().any(|kind| request.contains(*kind));
        if !reads && answer.as_str().contains(DONE) {
            events = events.saturating_add(1);
        }
    }
    Ok(events)
}

// What is under an office and its journal, and how many requests changed something.
#[derive(Drop)]
struct Under<S: Alter + Drop, D: Disk + Drop> {
    conn: Connection<S>,
    log: D,
    events: u64,
}

fn converse<S: Alter + Drop, D: Disk + Drop>(
    alloc: Global,
    office: Kept<S, D>,
    requests: &[&str],
) -> Result<Under<S, D>, Fail> {
    let mut office = office;
    let events = ask_all(alloc, &mut office, requests)?;
    let (office, journal) = office.into_parts();
    Ok(Under {
        conn: office.into_connection(),
        log: journal.into_disk(),
        events,
    })
}

// Opens an office with its journal, and asks it the requests.
fn run_office<S: Alter + Drop, D: Disk + Drop>(
    alloc: Global,
    office: Office<S>,
    log: D,
    requests: &[&str],
) -> Result<Under<S, D>, Fail> {
    match with_journal(alloc, office, log) {
        Ok(office) => converse(alloc, office, requests),
        Err((_, office, log)) => Ok(Under {
            conn: office.into_connection(),
            log,
            events: 0,
        }),
    }
}

// The same of the office in a database.
fn run_over<S: Alter + Drop, D: Disk + Drop>(
    alloc: Global,
    conn: Connection<S>,
    log: D,
    requests: &[&str],
) -> Result<Under<S, D>, Fail> {
    match reopened(conn)? {
        Ok(office) => run_office(alloc, office, log, requests),
        Err(conn) => Ok(Under {
            conn,
            log,
            events: 0,
        }),
    }
}

fn files_under<D: Disk + Drop>(conn: Connection<FileStore<D>>) -> Files<D> {
    conn.into_store().close()
}

fn run_in(
    alloc: Global,
    files: Files<Fuse<Memory>>,
    log: Fuse<Memory>,
    requests: &[&str],
) -> Result<Left, Fail> {
    match opened(alloc, files) {
        Ok(conn) => {
            let Under { conn, log, events } = run_over(alloc, conn, log, requests)?;
            Ok(Left {
                files: files_under(conn),
                log,
                events,
            })
        }
        Err(files) => Ok(Left {
            files,
            log,
            events: 0,
        }),
    }
}

// Opens a founded office with its journal, of which one file is to stop, and asks it the requests.
fn run(
    alloc: Global,
    founded: &Remains,
    stopping: Stopping,
    requests: &[&str],
) -> Result<Left, Fail> {
    let files = files_of(alloc, founded.files.log.bytes(), founded.files.db.bytes())?;
    let files = stopping.of_office().of(files);
    let log = Fuse::new(synced(alloc, &founded.journal)?, stopping.journal_calls());
    run_in(alloc, files, log, requests)
}

/// The journal of an office that was founded and asked these requests, where nothing stops.
pub(crate) fn whole_journal(
    alloc: Global,
    founded: &Remains,
    requests: &[&str],
) -> Result<Vec<u8>, Fail> {
    let stopping = Stopping {
        file: Third::Journal,
        calls: ENDLESS,
    };
    let left = run(alloc, founded, stopping, requests)?;
    Ok(Vec::from_slice(alloc, left.log.inner().bytes())?)
}

/// Stops one of the files once. Gives what is left, all of it and what was synced of it, and whether
/// the file has stopped.
pub(crate) fn stop_once(
    alloc: Global,
    founded: &Remains,
    stopping: Stopping,
    requests: &[&str],
) -> Result<([Remains; 2], bool), Fail> {
    let mut left = run(alloc, founded, stopping, requests)?;
    let is_reached = stopping.is_reached(&mut left);
    let Left {
        files,
        mut log,
        events,
    } = left;
    let all = Remains {
        files: kept(alloc, &files)?,
        journal: Vec::from_slice(alloc, log.inner().bytes())?,
        events,
    };
    log.crash();
    let synced = Remains {
        files: kept(alloc, &crashed(files))?,
        journal: Vec::from_slice(alloc, log.inner().bytes())?,
        events,
    };
    Ok(([all, synced], is_reached))
}

// Stops one of the files of a founded office before each of its calls in turn, while it is asked this, and gives how many there are.
fn stops_of(alloc: Global, founded: &Remains, file: Third, requests: &[&str]) -> Result<u64, Fail> {
    let mut told = AllTold::new(alloc);
    for calls in 0..ENDLESS {
        let stopping = Stopping { file, calls };
        let (left, is_reached) = stop_once(alloc, founded, stopping, requests)?;
        for remains in left {
            remains.expect_told(alloc, &mut told, b"")?;
        }
        if !is_reached {
            // The run before had all its calls.
            return Ok(calls.saturating_sub(1));
        }
    }
    Err(Fail::from("a run without a stop"))
}

/// Stops one of the three files before each of its calls in turn, while these lines are answered, and gives how many there are. It
/// fails where the journal that is left doesn't tell the tables that are, or what it tells isn't what was answered.
pub fn stops(alloc: Global, lines: &str, file: Third) -> Result<u64, Fail> {
    let founded = founded(alloc, "")?;
    let requests = requests_of(alloc, lines)?;
    stops_of(alloc, &founded, file, &requests)
}

/// Stops a journal before each of its calls in turn, while it is opened with its office: the event of its last line hasn't reached the
/// tables, and a part of a line stands behind that. Gives how many calls there are. It fails as [`stops`] does.
pub fn stops_while_opened(alloc: Global) -> Result<u64, Fail> {
    stops_of(alloc, &founded(alloc, AHEAD)?, Third::Journal, &[])
}
