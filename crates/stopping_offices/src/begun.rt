//! How an office begins in a database.

ghost use Rattle.std.specs.Prelude.{IfOk};
ghost use Rattle.sqlite.specs.Held.{state};
ghost use Rattle.office_store.specs.Shown.{IsIdle};

use office_founding::migrate;
use review_office::Office;
use sqlite::{Alter, Connection};
use std::alloc::Global;
use std::test::Fail;
use test_offices::offices::found_office;
use test_offices::old::OLD_OFFICE;

#[derive(Clone, Copy, Debug)]
pub enum Beginning {
    /// It is founded in an empty database.
    Founding,
    /// It is migrated, where an office of schema 1 is.
    Migration,
}

/// An office, or the connection where it didn't begin.
pub type Begun<S> = Result<Office<S>, Connection<S>>;

/// A connection on which no transaction is open and no limit on steps is set.
pub fn at_rest<S: Alter + Drop>(conn: Connection<S>) -> Result<Connection<S>, Fail>
    ensures { IfOk result (λ conn. IsIdle (state S.Store conn)) }
{
    let mut conn = conn;
    conn.set_step_limit(None);
    if !conn.is_autocommit() {
        return Err(Fail::from("no transaction is open"));
    }
    Ok(conn)
}

/// What is there before an office begins so, made in an empty database.
pub fn before<S: Alter + Drop>(
    conn: Connection<S>,
    beginning: Beginning,
) -> Result<Connection<S>, Fail> {
    let mut conn = conn;
    if let Beginning::Migration = beginning {
        conn.execute_batch(OLD_OFFICE)?;
    }
    at_rest(conn)
}

fn over<S: Alter + Drop>(conn: Connection<S>) -> Begun<S>
    requires { IsIdle (state S.Store conn) }
{
    match Office::over(conn) {
        Ok(office) => Ok(office),
        Err((_, conn)) => Err(conn),
    }
}

/// The office that a database has.
pub fn reopened<S: Alter + Drop>(conn: Connection<S>) -> Result<Begun<S>, Fail> {
    Ok(over(at_rest(conn)?))
}

fn founded<S: Alter + Drop>(alloc: Global, conn: Connection<S>) -> Result<Begun<S>, Fail>
    requires { IsIdle (state S.Store conn) }
{
    match found_office(alloc, conn)? {
        Ok(office) => Ok(Ok(office)),
        Err((_, conn)) => Ok(Err(conn)),
    }
}

fn is_migrated<S: Alter>(conn: &mut Connection<S>) -> bool
    requires { IsIdle (state S.Store conn.old) }
    ensures { IsIdle (state S.Store conn.new) }
{
    migrate(conn).is_ok()
}

fn migrated<S: Alter + Drop>(conn: Connection<S>) -> Begun<S>
    requires { IsIdle (state S.Store conn) }
{
    let mut conn = conn;
    if is_migrated(&mut conn) {
        over(conn)
    } else {
        Err(conn)
    }
}

pub fn begin<S: Alter + Drop>(
    alloc: Global,
    conn: Connection<S>,
    beginning: Beginning,
) -> Result<Begun<S>, Fail> {
    let conn = at_rest(conn)?;
    match beginning {
        Beginning::Founding => founded(alloc, conn),
        Beginning::Migration => Ok(migrated(conn)),
    }
}
