//! The table of the office itself.

ghost use Rattle.std.specs.Prelude.{◌≡◌, [], IfOk, IfErr};
ghost use Rattle.sqlite.specs.Held.{state};
ghost use Rattle.office_rows.specs.Told.{IsOfRow, IsTold, TellsOnly};
ghost use Rattle.office_store.specs.Connections.{AcceptsFormed, FindsFirst, Reads, ReadsFirst};
ghost use Rattle.office_store.specs.Shown.{IsIdle};
ghost use Rattle.office_founding.specs.Form.{listed_row, AreCaps, IsRowListed};

use crate::caps::caps_at;
use cap_sets::Caps;
use office_rows::first_row;
use office_words::Fault;
use sqlite::{Alter, Connection, Row};

pub(crate) const LISTED: &str = "SELECT listed FROM office";

// The listed capabilities of a row of them alone.
fn read_listed(row: &Row) -> Result<Caps, Fault>
    ensures listed { IfOk result (λ listed. row.now ≡ listed_row listed) }
    ensures formed { AcceptsFormed listed_row AreCaps row.now result }
    ensures cause { IfErr result IsOfRow }
{
    if row.column_count() != 1 {
        return Err(Fault::NotAnOffice);
    }
    caps_at(row, 0)
}

// The listed capabilities of the row that a query found.
fn listed_of(found: Result<Option<Row>, Fault>) -> Result<Caps, Fault>
    ensures { IsTold (TellsOnly listed_row AreCaps) found result }
{
    match found? {
        Some(row) => read_listed(&row),
        None => Err(Fault::NotAnOffice),
    }
}

// The row of the office.
fn office_row<S: Alter>(conn: &mut Connection<S>) -> Result<Option<Row>, Fault>
    requires { IsIdle (state S.Store conn.old) }
    ensures read { Reads S.Store conn.old conn.new result (λ t row. IsRowListed t row) }
    ensures row { FindsFirst S.Store conn.old conn.new LISTED.now [] result }
{
    first_row(conn, LISTED, &[])
}

/// The listed capabilities, fixed at the founding.
pub fn listed<S: Alter>(conn: &mut Connection<S>) -> Result<Caps, Fault>
    requires { IsIdle (state S.Store conn.old) }
    ensures read { Reads S.Store conn.old conn.new result (λ t listed. listed ≡ t.listed) }
    ensures told { ReadsFirst S.Store conn.old conn.new
        LISTED.now [] (TellsOnly listed_row AreCaps) result }
{
    listed_of(office_row(conn))
}
