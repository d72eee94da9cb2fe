//! A database in memory, in pages.

use memory_database::{VolatileFile, open_in_memory};
use sqlite::{Alter, Connection, Error, Row, params};
use sqlite_disk::Disk;
use std::process::Abort;
use std::test::Fail;

const COUNT: u32 = 20_000;

const NOTES: &str = "\
CREATE TABLE notes (id INTEGER PRIMARY KEY, title INTEGER NOT NULL, text TEXT NOT NULL) STRICT;
CREATE INDEX notes_by_title ON notes (title)";

// Keys that lie apart.
fn key_of(n: u32) -> u32 {
    n.wrapping_mul(2_654_435_761)
}

fn put<S: Alter>(conn: &mut Connection<S>, n: u32) -> Result<usize, Error> {
    conn.execute(
        "INSERT INTO notes (id, title, text) VALUES (?1, ?2, ?3)",
        params![key_of(n), n, "what is written of it"],
    )
}

fn title_of<S: Alter>(conn: &mut Connection<S>, n: u32) -> Result<u32, Error> {
    let row: Row = conn.query_row("SELECT title FROM notes WHERE id = ?1", params![key_of(n)])?;
    row.get(0)
}

fn key_at<S: Alter>(conn: &mut Connection<S>, n: u32) -> Result<u32, Error> {
    let row: Row = conn.query_row("SELECT id FROM notes WHERE title = ?1", params![n])?;
    row.get(0)
}

// Writes all rows, and reads each back by both of its keys.
fn assert_read_back<S: Alter>(rt: &impl Abort, conn: &mut Connection<S>) -> Result<(), Error> {
    conn.execute_batch(NOTES)?;
    for n in 0..COUNT {
        assert_eq!(rt; put(conn, n)?, 1);
    }
    for n in 0..COUNT {
        assert_eq!(rt; title_of(conn, n)?, n);
        assert_eq!(rt; key_at(conn, n)?, key_of(n));
    }
    Ok(())
}

#[test]
fn twenty_thousand_rows_are_read_back(rt: HostRuntime) -> Result<(), Fail> {
    let mut conn = open_in_memory(rt.alloc())?;
    assert_read_back(&rt, &mut conn)?;
    Ok(())
}

#[test]
fn a_file_that_is_refused_memory_stays_as_it_was(rt: HostRuntime) -> Result<(), Fail> {
    let mut file = VolatileFile::new(rt.alloc());
    file.write_at(1, b"ab")?;
    assert!(rt; file.set_len(usize::MAX).is_err());
    assert!(rt; file.write_at(usize::MAX, b"c").is_err());
    let mut bytes = *b"...";
    file.read_at(0, &mut bytes)?;
    assert_eq!(rt; &bytes, b"\0ab");
    assert_eq!(rt; file.len()?, 3);
    Ok(())
}
