//! Values that rows of answers stand for.

ghost use Rattle.std.specs.Prelude.{◌≡◌, ◌≢◌, List, Err, IfOk, IfErr, map};
ghost use Rattle.std.specs.List.{AllByRecursion};
ghost use Rattle.sqlite.specs.Order.{Row as Columns};
ghost use Rattle.office_rows.specs.Told.{IsOfRow, IsTold, TellsOne, TellsAll, map_ok};
ghost use Rattle.office_store.specs.Connections.{AcceptsFormed};

use office_words::Fault;
use sqlite::Row;
use std::alloc::Global;

/// A value that a row of an answer stands for. Its texts are made by `A`: `Global`, or `()` for a
/// value that has none.
pub(crate) trait FromRow<A>: Sized + Drop {
    // the row of a value
    ghost encode: { Self → Columns };

    // what the tables keep has this form
    ghost IsFormed: { Self → Type 0 };

    /// The value that a row stands for. A row of something else is `NotAnOffice`.
    fn from_row(memory: A, row: &Row) -> Result<Self, Fault>
        ensures value { IfOk result (λ value. row.now ≡ encode value) }
        ensures formed { AcceptsFormed encode IsFormed row.now result }
        ensures cause { IfErr result IsOfRow };
}

/// The value of the row that a query found, if it found one.
pub(crate) fn read_first<A: Drop, R: FromRow<A>>(
    memory: A,
    found: Result<Option<Row>, Fault>,
) -> Result<Option<R>, Fault>
    ensures { IsTold (TellsOne R.encode R.IsFormed) found result }
{
    match found? {
        Some(row) => Ok(Some(R::from_row(memory, &row)?)),
        None => Ok(None),
    }
}

// The values of rows.
fn read_each<R: FromRow<Global>>(alloc: Global, rows: &[Row]) -> Result<Vec<R>, Fault>
    ensures values { IfOk result (λ values. rows.now ≡ map R.encode values.items) }
    ensures formed { (values : List R) → rows.now ≡ map R.encode values
        → AllByRecursion R.IsFormed values → result ≢ Err Fault.NotAnOffice }
    ensures cause { IfErr result IsOfRow }
{
    let mut values = Vec::new(alloc);
    for row in rows {
        let value = R::from_row(alloc, row)?;
        values
            .push(value)
            .map_err(|refused| Fault::NoMemory(refused.into()))?;
    }
    Ok(values)
}

/// The values of the rows that a query found.
pub(crate) fn read_all<R: FromRow<Global>>(
    alloc: Global,
    found: Result<Vec<Row>, Fault>,
) -> Result<Vec<R>, Fault>
    ensures { IsTold (TellsAll R.encode R.IsFormed)
        (map_ok found (λ rows. rows.items)) (map_ok result (λ values. values.items)) }
{
    let rows = found?;
    read_each(alloc, rows.as_slice())
}
