//! What comes of a script in memory.

use crate::asked::answer_to;
use crate::begun::{Beginning, before, begin};
use office_policy::Handler;
use review_office::Office;
use sqlite::{Alter, Connection};
use std::alloc::{AllocError, Global};
use std::test::Fail;
use test_offices::tables::tables_of;

/// How an office begins, and what it is asked then.
#[derive(Clone, Copy)]
pub struct Script<'a> {
    pub beginning: Beginning,
    pub requests: &'a [&'a str],
}

/// The requests of these lines.
pub fn requests_of(alloc: Global, lines: &str) -> Result<Vec<&str>, AllocError> {
    let mut requests = Vec::new(alloc);
    for line in lines.lines() {
        requests.push(line)?;
    }
    Ok(requests)
}

/// How far a script came.
#[derive(Clone, Copy, Debug, PartialEq, Eq)]
pub enum Reached {
    /// The office hasn't begun.
    Nothing,
    /// So many of its requests were answered, and not by a fault.
    Answers(usize),
}

impl Reached {
    /// How many requests were answered.
    pub fn answers(self) -> usize {
        match self {
            Reached::Nothing => 0,
            Reached::Answers(count) => count,
        }
    }

    /// One event more.
    pub fn next(self) -> Reached {
        match self {
            Reached::Nothing => Reached::Answers(0),
            Reached::Answers(count) => Reached::Answers(count.saturating_add(1)),
        }
    }
}

/// What comes of a script whose requests are asked one after the other, where nothing stops.
#[derive(Drop)]
pub struct Course {
    // The tables before the office begins.
    before: String,
    // Those after so many requests, the first being those of none.
    tables: Vec<String>,
    /// What each request is answered, and what it is answered where it is asked twice.
    pub answers: Vec<String>,
    pub again: Vec<String>,
}

// The office in this database after so many requests of a script.
fn office_in<S: Alter + Drop>(
    alloc: Global,
    conn: Connection<S>,
    script: Script,
    count: usize,
) -> Result<Office<S>, Fail> {
    let conn = before(conn, script.beginning)?;
    let Ok(mut office) = begin(alloc, conn, script.beginning)? else {
        return Err(Fail::from("an office"));
    };
    ask_all(alloc, &mut office, script, count)?;
    Ok(office)
}

fn ask_all<H: Handler>(
    alloc: Global,
    office: &mut H,
    script: Script,
    count: usize,
) -> Result<(), Fail> {
    for request in script.requests.iter().take(count) {
        answer_to(alloc, office, request)?;
    }
    Ok(())
}

fn tables_in<S: Alter + Drop>(
    alloc: Global,
    conn: Connection<S>,
    script: Script,
    count: usize,
) -> Result<String, Fail> {
    let office = office_in(alloc, conn, script, count)?;
    tables_of(alloc, &mut office.into_connection())
}

fn answer_in<S: Alter + Drop>(
    alloc: Global,
    conn: Connection<S>,
    script: Script,
    count: usize,
    request: &str,
) -> Result<String, Fail> {
    let mut office = office_in(alloc, conn, script, count)?;
    answer_to(alloc, &mut office, request)
}

fn tables_before_in<S: Alter + Drop>(
    alloc: Global,
    conn: Connection<S>,
    script: Script,
) -> Result<String, Fail> {
    tables_of(alloc, &mut before(conn, script.beginning)?)
}

fn tables_before(alloc: Global, script: Script) -> Result<String, Fail> {
    tables_before_in(alloc, Connection::open_in_memory(alloc)?, script)
}

fn tables_after(alloc: Global, script: Script, count: usize) -> Result<String, Fail> {
    tables_in(alloc, Connection::open_in_memory(alloc)?, script, count)
}

// What a request is answered after so many of a script.
fn answer_after(
    alloc: Global,
    script: Script,
    count: usize,
    request: &str,
) -> Result<String, Fail> {
    answer_in(
        alloc,
        Connection::open_in_memory(alloc)?,
        script,
        count,
        request,
    )
}

impl Course {
    pub fn of(alloc: Global, script: Script) -> Result<Course, Fail> {
        let mut tables = Vec::new(alloc);
        let mut answers = Vec::new(alloc);
        let mut again = Vec::new(alloc);
        tables.push(tables_after(alloc, script, 0)?)?;
        for (at, request) in script.requests.iter().enumerate() {
            let next = at.saturating_add(1);
            tables.push(tables_after(alloc, script, next)?)?;
            answers.push(answer_after(alloc, script, at, request)?)?;
            again.push(answer_after(alloc, script, next, request)?)?;
        }
        Ok(Course {
            before: tables_before(alloc, script)?,
            tables,
            answers,
            again,
        })
    }

    /// The tables at a point of it.
    pub fn tables_at(&self, reached: Reached) -> &str {
        match reached {
            Reached::Nothing => self.before.as_str(),
            Reached::Answers(count) => match self.tables.get(count) {
                Some(tables) => tables.as_str(),
                None => "",
            },
        }
    }

    /// Whether these tables are those of what was reached, or those of one event more.
    pub fn place_of(&self, tables: &str, reached: Reached) -> Option<Reached> {
        if self.tables_at(reached) == tables {
            Some(reached)
        } else if self.tables_at(reached.next()) == tables {
            Some(reached.next())
        } else {
            None
        }
    }

    /// What the next request is answered in an office of this place.
    pub fn next_answer(&self, reached: Reached, place: Reached) -> Option<&str> {
        let next = reached.answers();
        let answers = if place == Reached::Answers(next.saturating_add(1)) {
            &self.again
        } else {
            &self.answers
        };
        match answers.get(next) {
            Some(answer) => Some(answer.as_str()),
            None => None,
        }
    }
}
