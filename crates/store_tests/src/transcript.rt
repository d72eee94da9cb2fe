//! Transcripts: below each call, which `> ` begins, what the store answers.

ghost use Rattle.std.specs.Prelude.{◌≡◌, IfSome, true};
ghost use Rattle.sqlite.specs.Held.{state};
ghost use Rattle.office_store.specs.Shown.{IsIdle};

use crate::call::told;
use office_words::WordFault;
use sqlite::{Alter, Connection};
use std::alloc::Global;
use std::process::Abort;
use std::test::Fail;

// Runs statements, and says whether they ran and left no transaction open.
fn run<S: Alter>(conn: &mut Connection<S>, sql: &str) -> bool
    requires { IsIdle (state S.Store conn.old) }
    ensures { result ≡ true → IsIdle (state S.Store conn.new) }
{
    match conn.execute_batch(sql) {
        Ok(()) => conn.is_autocommit(),
        Err(_) => false,
    }
}

// The connection, where no transaction is open on it; then no limit on steps is set either.
fn at_rest<S: Alter + Drop>(conn: Connection<S>) -> Option<Connection<S>>
    ensures { IfSome result (λ conn. IsIdle (state S.Store conn)) }
{
    let mut conn = conn;
    conn.set_step_limit(None);
    if conn.is_autocommit() {
        Some(conn)
    } else {
        None
    }
}

// What follows promises nothing, so that nothing has to be proved at a store of its own.

/// Carries a transcript out over a connection, and hands the connection back.
pub(crate) fn carry_out<S: Alter + Drop>(
    rt: &impl Abort,
    alloc: Global,
    conn: Connection<S>,
    transcript: &str,
) -> Result<Connection<S>, Fail> {
    let Some(mut conn) = at_rest(conn) else {
        return Err(Fail::from("no transaction is open"));
    };
    let said = said(alloc, &mut conn, transcript)?;
    assert_eq!(rt; said.trim_end(), transcript.trim_end());
    Ok(conn)
}

/// The lines of a transcript that are no answers, below each call what this store answers; nothing where a transaction is open.
pub(crate) fn said_over<S: Alter + Drop>(
    alloc: Global,
    conn: Connection<S>,
    transcript: &str,
) -> Result<String, WordFault> {
    match at_rest(conn) {
        Some(mut conn) => said(alloc, &mut conn, transcript),
        None => Ok(String::new(alloc)),
    }
}

// The lines of a transcript that are no answers, below each call what this store answers. Statements, which `> sql ` begins,
// are run; where they fail the transcript ends.
fn said<S: Alter>(
    alloc: Global,
    conn: &mut Connection<S>,
    transcript: &str,
) -> Result<String, WordFault>
    requires { IsIdle (state S.Store conn.old) }
{
    let mut said = String::new(alloc);
    for line in transcript.lines() {
        if let Some(sql) = line.strip_prefix("> sql ") {
            writeln!(said, "{line}")?;
            if !run(conn, sql) {
                return Ok(said);
            }
        } else if let Some(call) = line.strip_prefix("> ") {
            let answer = told(alloc, conn, call)?;
            writeln!(said, "{line}\n{answer}")?;
        } else if line.starts_with("# ") {
            writeln!(said, "{line}")?;
        }
    }
    Ok(said)
}
