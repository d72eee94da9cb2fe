//! The six tables as text.

use sqlite::{Alter, Connection, Row};
use std::alloc::Global;
use std::test::Fail;

const TABLES: [(&str, &str); 6] = [
    ("office", "SELECT * FROM office ORDER BY key"),
    ("users", "SELECT * FROM users ORDER BY name"),
    (
        "revisions",
        "SELECT * FROM revisions ORDER BY team, profile, number",
    ),
    (
        "votes",
        "SELECT * FROM votes ORDER BY team, profile, number, voter",
    ),
    ("baselines", "SELECT * FROM baselines ORDER BY team"),
    ("holds", "SELECT * FROM holds ORDER BY team, profile"),
];

// A line with the values of a row.
fn write_row(text: &mut String, row: &Row) -> Result<(), Fail> {
    for at in 0..row.column_count() {
        let value = row.get_ref(at)?;
        write!(text, " {value:?}")?;
    }
    writeln!(text, "")?;
    Ok(())
}

fn write_rows(text: &mut String, rows: &[Row]) -> Result<(), Fail> {
    for row in rows {
        write_row(text, row)?;
    }
    Ok(())
}

/// Each of the six tables, with all its rows, or why there are none.
pub fn tables_of<S: Alter>(alloc: Global, conn: &mut Connection<S>) -> Result<String, Fail> {
    let mut text = String::new(alloc);
    for (name, sql) in TABLES {
        writeln!(text, "{name}")?;
        match conn.query_all(sql, &[]) {
            Ok(rows) => write_rows(&mut text, &rows)?,
            Err(error) => writeln!(text, "{error:?}")?,
        }
    }
    Ok(text)
}
