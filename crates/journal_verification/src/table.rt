//! The queries by which the tables of two offices are compared.

ghost use Rattle.std.specs.Prelude.{◌≡◌};
ghost use Rattle.journal_verification.specs.Texts.{key_width, rowids_text, rows_text};

use journal_faults::Table;

// The rows come in the order of an index, so that no more than one of them is held.
const OFFICE: &str = "SELECT key, schema, listed FROM office ORDER BY key";

const USERS: &str = "SELECT name, team, roles, token FROM users ORDER BY name";

const REVISIONS: &str = "SELECT team, profile, number, author, state, body, digest FROM revisions \
    ORDER BY team, profile, number";

const VOTES: &str = "SELECT team, profile, number, voter, approve, security FROM votes \
    ORDER BY team, profile, number, voter";

const BASELINES: &str = "SELECT team, profile, number FROM baselines ORDER BY team";

const HOLDS: &str = "SELECT team, profile FROM holds ORDER BY team, profile";

const OFFICE_ROWIDS: &str = "SELECT rowid FROM office ORDER BY rowid";

const USERS_ROWIDS: &str = "SELECT rowid FROM users ORDER BY rowid";

const REVISIONS_ROWIDS: &str = "SELECT rowid FROM revisions ORDER BY rowid";

const VOTES_ROWIDS: &str = "SELECT rowid FROM votes ORDER BY rowid";

const BASELINES_ROWIDS: &str = "SELECT rowid FROM baselines ORDER BY rowid";

const HOLDS_ROWIDS: &str = "SELECT rowid FROM holds ORDER BY rowid";

/// The tables but that of the office.
pub(crate) const FURTHER: [Table; 5] = [
    Table::Users,
    Table::Revisions,
    Table::Votes,
    Table::Baselines,
    Table::Holds,
];

/// How many columns of the rows of a table are their key.
pub(crate) fn key_width(table: Table) -> usize
    ensures { result ≡ key_width table }
{
    match table {
        Table::Office | Table::Users | Table::Baselines => 1,
        Table::Holds => 2,
        Table::Revisions => 3,
        Table::Votes => 4,
    }
}

/// The query of all columns of the rows of a table, by their key.
pub(crate) fn rows(table: Table) -> &'static str
    ensures { result.now ≡ rows_text table }
{
    match table {
        Table::Office => OFFICE,
        Table::Users => USERS,
        Table::Revisions => REVISIONS,
        Table::Votes => VOTES,
        Table::Baselines => BASELINES,
        Table::Holds => HOLDS,
    }
}

/// The query of the rowids of the rows of a table.
pub(crate) fn rowids(table: Table) -> &'static str
    ensures { result.now ≡ rowids_text table }
{
    match table {
        Table::Office => OFFICE_ROWIDS,
        Table::Users => USERS_ROWIDS,
        Table::Revisions => REVISIONS_ROWIDS,
        Table::Votes => VOTES_ROWIDS,
        Table::Baselines => BASELINES_ROWIDS,
        Table::Holds => HOLDS_ROWIDS,
    }
}
