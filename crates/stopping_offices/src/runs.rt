//! Scripts over files that stop, and what is left of them.

use crate::asked::{answer_to, is_fault};
use crate::begun::{Beginning, Begun, before, begin, reopened};
use crate::course::{Course, Reached, Script};
use crate::files::{ENDLESS, File, Stop, crashed, empty_files, files_of, kept, opened, torn};
use office_policy::Handler;
use review_office::Office;
use sqlite::{Alter, Connection, FileStore, Files};
use sqlite_disk::{Disk, Fuse, Memory};
use std::alloc::Global;
use std::test::Fail;
use test_offices::tables::tables_of;

// How far a script came over files, and what it left in them.
type Run = (Reached, Files<Fuse<Memory>>);

// How far a script came, and whether the process died then.
#[derive(Drop)]
struct Ended<S: Alter + Drop> {
    reached: Reached,
    is_dead: bool,
    conn: Connection<S>,
}

/// The files of a connection, after it was closed where it could be.
pub fn closed<D: Disk + Drop>(conn: Connection<FileStore<D>>) -> Files<D> {
    match conn.close_files() {
        Ok(files) => files,
        Err((_, store)) => store.close(),
    }
}

// The files that a script begins in.
fn first_files(alloc: Global, script: Script) -> Result<Files<Memory>, Fail> {
    if let Beginning::Founding = script.beginning {
        return Ok(empty_files(alloc));
    }
    let Ok(conn) = opened(alloc, empty_files(alloc)) else {
        return Err(Fail::from("files that open"));
    };
    let files = closed(before(conn, script.beginning)?);
    files_of(alloc, files.log.bytes(), files.db.bytes())
}

// Asks an office the requests of a script up to the first that is answered by a fault. Gives how far it came, and whether to a fault.
fn ask_all<H: Handler>(
    alloc: Global,
    office: &mut H,
    script: Script,
    course: &Course,
) -> Result<(Reached, bool), Fail> {
    let mut reached = Reached::Answers(0);
    for (request, wanted) in script.requests.iter().zip(course.answers.iter()) {
        let answer = answer_to(alloc, office, request)?;
        if is_fault(answer.as_str()) {
            return Ok((reached, true));
        }
        if answer.as_str() != wanted.as_str() {
            return Err(Fail::from((reached, answer)));
        }
        reached = reached.next();
    }
    Ok((reached, false))
}

fn converse<S: Alter + Drop>(
    alloc: Global,
    office: Office<S>,
    script: Script,
    course: &Course,
) -> Result<Ended<S>, Fail> {
    let mut office = office;
    let (reached, is_dead) = ask_all(alloc, &mut office, script, course)?;
    Ok(Ended {
        reached,
        is_dead,
        conn: office.into_connection(),
    })
}

// Begins an office, and asks it the requests of a script.
fn begin_and_converse<S: Alter + Drop>(
    alloc: Global,
    conn: Connection<S>,
    script: Script,
    course: &Course,
) -> Result<Ended<S>, Fail> {
    match begin(alloc, conn, script.beginning)? {
        Ok(office) => converse(alloc, office, script, course),
        Err(conn) => Ok(Ended {
            reached: Reached::Nothing,
            is_dead: true,
            conn,
        }),
    }
}

// The files of a connection: where the process died as they are, and else after they were closed.
fn left_of<D: Disk + Drop>(conn: Connection<FileStore<D>>, is_dead: bool) -> Files<D> {
    if is_dead {
        conn.into_store().close()
    } else {
        closed(conn)
    }
}

// Runs a script over a connection. At a fault the process dies; without one the files are closed.
fn run_over<D: Disk + Drop>(
    alloc: Global,
    conn: Connection<FileStore<D>>,
    script: Script,
    course: &Course,
) -> Result<(Reached, Files<D>), Fail> {
    let Ended {
        reached,
        is_dead,
        conn,
    } = begin_and_converse(alloc, conn, script, course)?;
    Ok((reached, left_of(conn, is_dead)))
}

fn run(
    alloc: Global,
    files: Files<Fuse<Memory>>,
    script: Script,
    course: &Course,
) -> Result<Run, Fail> {
    match opened(alloc, files) {
        Ok(conn) => run_over(alloc, conn, script, course),
        Err(files) => Ok((Reached::Nothing, files)),
    }
}

// Asks an office that was left at a place the next request of a script, if there is one. Gives how many are answered then. It fails where
// the answer isn't the one that the policy says.
fn ask_next<H: Handler>(
    alloc: Global,
    office: &mut H,
    script: Script,
    course: &Course,
    (reached, place): (Reached, Reached),
) -> Result<usize, Fail> {
    let next = reached.answers();
    let Some(request) = script.requests.get(next) else {
        return Ok(next);
    };
    let answer = answer_to(alloc, office, request)?;
    if Some(answer.as_str()) != course.next_answer(reached, place) {
        return Err(Fail::from((reached, place, answer)));
    }
    Ok(next.saturating_add(1))
}

// That these are the tables after so many answers.
fn expect_tables(
    tables: String,
    course: &Course,
    done: usize,
    (reached, place): (Reached, Reached),
) -> Result<(), Fail> {
    if tables.as_str() != course.tables_at(Reached::Answers(done)) {
        return Err(Fail::from((reached, place, tables)));
    }
    Ok(())
}

// That the next request is answered as the policy says, and leaves the tables that it leaves in memory.
fn expect_going_on<S: Alter + Drop>(
    alloc: Global,
    office: Office<S>,
    script: Script,
    course: &Course,
    left: (Reached, Reached),
) -> Result<(), Fail> {
    let mut office = office;
    let done = ask_next(alloc, &mut office, script, course, left)?;
    let tables = tables_of(alloc, &mut office.into_connection())?;
    expect_tables(tables, course, done, left)
}

// The place of the tables that are left, which are those of what was reached or of one event more.
fn place_left(tables: String, course: &Course, reached: Reached) -> Result<Reached, Fail> {
    match course.place_of(tables.as_str(), reached) {
        Some(place) => Ok(place),
        None => Err(Fail::from((reached, tables))),
    }
}

// The office of a place: it begins where it hadn't begun.
fn office_at<S: Alter + Drop>(
    alloc: Global,
    conn: Connection<S>,
    script: Script,
    place: Reached,
) -> Result<Begun<S>, Fail> {
    match place {
        Reached::Nothing => begin(alloc, conn, script.beginning),
        Reached::Answers(_) => reopened(conn),
    }
}

// That a database has the tables of what was reached or of one event more, and that the office goes on in it.
fn expect_kept_in<S: Alter + Drop>(
    alloc: Global,
    conn: Connection<S>,
    script: Script,
    course: &Course,
    reached: Reached,
) -> Result<(), Fail> {
    let mut conn = conn;
    let tables = tables_of(alloc, &mut conn)?;
    let place = place_left(tables, course, reached)?;
    match office_at(alloc, conn, script, place)? {
        Ok(office) => expect_going_on(alloc, office, script, course, (reached, place)),
        Err(_) => Err(Fail::from("an office again")),
    }
}

// The same of files, which open.
fn expect_kept<D: Disk + Drop>(
    alloc: Global,
    files: Files<D>,
    script: Script,
    course: &Course,
    reached: Reached,
) -> Result<(), Fail> {
    match opened(alloc, files) {
        Ok(conn) => expect_kept_in(alloc, conn, script, course, reached),
        Err(_) => Err(Fail::from("files that open again")),
    }
}

// Stops a file once in a run, and looks at what is left of both. Gives whether the file has stopped.
fn stop_once(alloc: Global, stop: Stop, script: Script, course: &Course) -> Result<bool, Fail> {
    let files = stop.of(first_files(alloc, script)?);
    let (reached, mut left) = run(alloc, files, script, course)?;
    let is_reached = stop.is_reached(&mut left);
    expect_kept(alloc, kept(alloc, &left)?, script, course, reached)?;
    expect_kept(alloc, crashed(left), script, course, reached)?;
    Ok(is_reached)
}

/// Stops a file before each of its calls in turn, each in a run of its own, and gives how many there are. It fails where anything is lost, or is
/// answered otherwise than the policy says.
pub fn stops(alloc: Global, script: Script, file: File) -> Result<u64, Fail> {
    let course = Course::of(alloc, script)?;
    for calls in 0..ENDLESS {
        let stop = Stop { file, calls };
        if !stop_once(alloc, stop, script, &course)? {
            // The run before had all its calls.
            return Ok(calls.saturating_sub(1));
        }
    }
    Err(Fail::from("a run without a stop"))
}

/// Tears the last write before each stop of a file, and gives how many there are. It fails as [`stops`] does.
pub fn torn_writes(alloc: Global, script: Script, file: File) -> Result<u64, Fail> {
    let course = Course::of(alloc, script)?;
    let mut old = first_files(alloc, script)?;
    let mut writes = 0u64;
    for calls in 0..ENDLESS {
        let stop = Stop { file, calls };
        let files = stop.of(first_files(alloc, script)?);
        let (reached, mut left) = run(alloc, files, script, &course)?;
        if !stop.is_reached(&mut left) {
            return Ok(writes);
        }
        let new = kept(alloc, &left)?;
        if let Some(files) = torn(alloc, file, &old, &new)? {
            expect_kept(alloc, files, script, &course, reached)?;
            writes = writes.saturating_add(1);
        }
        old = new;
    }
    Err(Fail::from("a run without a stop"))
}
