//! The form of an office in a store: its tables and its row.

ghost use Rattle.std.specs.Prelude.{◌≡◌, ◌≢◌, ◌↔◌, [], false, true, Ok, Err, IfOk, IfErr, OnOk};
ghost use Rattle.std.specs.List.{list_all};
ghost use Rattle.sqlite.specs.Held.{state};
ghost use Rattle.sqlite.specs.State.{HasCleanDisk};
ghost use Rattle.office_rows.specs.Told.{IsOfRow, IsTold};
ghost use Rattle.office_words.specs.Tables.{Tables};
ghost use Rattle.office_store.specs.Connections.{AcceptsFormed, FindsFirst, Reads, ReadsFirst};
ghost use Rattle.office_store.specs.Shown.{IsIdle};
ghost use Rattle.office_founding.specs.Form.{has_column, has_old_tables, has_holds, has_indexes};
ghost use Rattle.office_founding.specs.Form.{added_by, old_form, new_form, numbered_row};
ghost use Rattle.office_founding.specs.Form.{opening_of, as_store, HasCaps, HasForm, IsFormRow};
ghost use Rattle.office_founding.specs.Form.{IsOldOrFailure, TellsNumber, TellsOpening};
ghost use Rattle.office_founding.specs.Migration.{ShowsOld, ShowsOldIfOpen};

use crate::caps::caps_at;
use crate::fault::OpeningFault;
use cap_sets::Caps;
use office_rows::first_row;
use office_store::number_at;
use office_words::Fault;
use sqlite::{Alter, Connection, Row};
use sqlite_schema::schema::Schema;

pub(crate) const OFFICE_ROW: &str = "SELECT key, schema, listed FROM office";

// Whether the schema has a table of this name with a column of that one.
fn has_column(schema: &Schema, table: &str, column: &str) -> bool
    ensures { result ≡ has_column schema.now table.now column.now }
{
    let Some(at) = schema.table_named(table.as_bytes()) else {
        return false;
    };
    match schema.tables.as_slice().get(at) {
        Some(found) => found.column_named(column.as_bytes()).is_some(),
        None => false,
    }
}

// Whether the schema has a table of this name with each of the columns.
fn has_columns(schema: &Schema, table: &str, columns: &[&str]) -> bool
    ensures { result ≡ list_all (λ column. has_column schema.now table.now column.now) columns.now }
{
    columns
        .iter()
        .all(|column| has_column(schema, table, column))
}

/// Whether the schema has the five tables of schema 1 with their columns.
pub(crate) fn has_old_tables(schema: &Schema) -> bool
    ensures { result ≡ has_old_tables schema.now }
{
    has_columns(schema, "office", &["key", "schema", "listed"])
        && has_columns(schema, "users", &["name", "team", "roles", "token"])
        && has_columns(
            schema,
            "revisions",
            &[
                "team", "profile", "number", "author", "state", "body", "digest",
            ],
        )
        && has_columns(
            schema,
            "votes",
            &["team", "profile", "number", "voter", "approve", "security"],
        )
        && has_columns(schema, "baselines", &["team", "profile", "number"])
}

// Whether the schema has the table of held profiles with its columns.
fn has_holds(schema: &Schema) -> bool
    ensures { result ≡ has_holds schema.now }
{
    has_columns(schema, "holds", &["team", "profile"])
}

// Whether the schema has indexes with the names of the two of an office.
fn has_indexes(schema: &Schema) -> bool
    ensures { result ≡ has_indexes schema.now }
{
    schema.index_named(b"revisions_by_state").is_some()
        && schema.index_named(b"revisions_by_author").is_some()
}

// What the schema lacks of what schema 2 adds to the five tables.
fn check_added(schema: &Schema) -> Result<(), OpeningFault>
    ensures { result ≡ added_by schema.now }
{
    if !has_holds(schema) {
        return Err(OpeningFault::Store(Fault::NotAnOffice));
    }
    if !has_indexes(schema) {
        return Err(OpeningFault::NoIndex);
    }
    Ok(())
}

/// What the row of the office says: whether its schema is 1, where it is else 2, and the listed
/// capabilities.
#[derive(Clone, Copy)]
pub(crate) struct Form {
    pub(crate) is_old: bool,
    pub(crate) listed: Caps,
}

// Whether a number is 1, where it is else 2.
fn is_first(number: u32) -> Result<bool, Fault>
    ensures first { result ≡ Ok true ↔ number ≡ 1 }
    ensures second { result ≡ Ok false ↔ number ≡ 2 }
    ensures cause { IfErr result (λ fault. fault ≡ Fault.NotAnOffice) }
{
    match number {
        1 => Ok(true),
        2 => Ok(false),
        _ => Err(Fault::NotAnOffice),
    }
}

// The form of a row that is of the office's.
fn read_number(row: &Row) -> Result<Form, Fault>
    ensures form { IfOk result (λ form. HasCaps form × (row.now ≡ numbered_row form)) }
    ensures formed { AcceptsFormed numbered_row HasCaps row.now result }
    ensures cause { IfErr result IsOfRow }
{
    if row.column_count() != 3 || number_at(row, 0)? != 1 {
        return Err(Fault::NotAnOffice);
    }
    let is_old = is_first(number_at(row, 1)?)?;
    let listed = caps_at(row, 2)?;
    Ok(Form { is_old, listed })
}

// The form of the row that a query found.
fn number_of(found: Result<Option<Row>, Fault>) -> Result<Form, Fault>
    ensures told { IsTold TellsNumber found result }
    ensures caps { IfOk result HasCaps }
{
    match found? {
        Some(row) => read_number(&row),
        None => Err(Fault::NotAnOffice),
    }
}

// The row of the office.
fn office_form<S: Alter>(conn: &mut Connection<S>) -> Result<Option<Row>, Fault>
    requires { IsIdle (state S.Store conn.old) }
    ensures read { Reads S.Store conn.old conn.new result (λ t row. IsFormRow t row) }
    ensures row { FindsFirst S.Store conn.old conn.new OFFICE_ROW.now [] result }
{
    first_row(conn, OFFICE_ROW, &[])
}

/// The form of the office's row.
pub(crate) fn office_number<S: Alter>(conn: &mut Connection<S>) -> Result<Form, Fault>
    requires { IsIdle (state S.Store conn.old) }
    ensures read { Reads S.Store conn.old conn.new result (λ t form. form ≡ new_form t.listed) }
    ensures old { (t : Tables) → ShowsOldIfOpen (state S.Store conn.old) t
        → HasCleanDisk (state S.Store conn.new)
        → IfOk result (λ form. form ≡ old_form t.listed) × (result ≢ Err Fault.NotAnOffice) }
    ensures told { ReadsFirst S.Store conn.old conn.new OFFICE_ROW.now [] TellsNumber result }
    ensures caps { IfOk result HasCaps }
{
    number_of(office_form(conn))
}

// The listed capabilities of an office that is opened, by the form of its row, and by what its
// schema lacks.
fn opened(form: Result<Form, Fault>, added: Result<(), OpeningFault>) -> Result<Caps, OpeningFault>
    ensures { result ≡ opening_of added form }
{
    match form {
        Ok(form) if form.is_old => Err(OpeningFault::OldSchema),
        Ok(form) => {
            added?;
            Ok(form.listed)
        }
        Err(fault) => Err(OpeningFault::Store(fault)),
    }
}

/// The listed capabilities of the office of schema 2 that a store is: it has the six tables, each
/// with its columns, and its office's row has key 1, schema 2 and no bit but those of capabilities.
///
/// # Errors
///
/// `NotAnOffice` unless the five tables of schema 1 are there with their columns, and the office's
/// row is of its form, with schema 1 or 2; then `OldSchema` where that is 1; then `NotAnOffice`
/// where the table of held profiles isn't there with its columns; then `NoIndex` where one of the
/// two indexes isn't there; else the fault of the store.
pub fn check_office<S: Alter>(conn: &mut Connection<S>) -> Result<Caps, OpeningFault>
    requires { IsIdle (state S.Store conn.old) }
    ensures read { has_old_tables (state S.Store conn.old).now.schema ≡ true
        → Reads S.Store conn.old conn.new (as_store result) (λ t listed. listed ≡ t.listed) }
    ensures foreign { has_old_tables (state S.Store conn.old).now.schema ≡ false
        → (result ≡ Err (OpeningFault.Store Fault.NotAnOffice)) × (conn.new ≡ conn.old) }
    ensures form { HasCleanDisk (state S.Store conn.new)
        → IfOk result (HasForm (state S.Store conn.old) (state S.Store conn.new)) }
    ensures told { has_old_tables (state S.Store conn.old).now.schema ≡ true
        → HasCleanDisk (state S.Store conn.new)
        → TellsOpening (state S.Store conn.old) (state S.Store conn.new) result }
    ensures old { (t : Tables) → ShowsOld (state S.Store conn.old) t
        → HasCleanDisk (state S.Store conn.new)
        → OnOk result ⊥ × IfErr result IsOldOrFailure }
    ensures idle { IsIdle (state S.Store conn.new) }
{
    if !has_old_tables(conn.schema()) {
        return Err(OpeningFault::Store(Fault::NotAnOffice));
    }
    let added = check_added(conn.schema());
    opened(office_number(conn), added)
}
