//! The revisions of a team.

ghost use Rattle.std.specs.Prelude.{[], ◌∷◌};
ghost use Rattle.sqlite.specs.Held.{state};
ghost use Rattle.sqlite.specs.declared.types.Value.TheVariants.{Text as SqlText};
ghost use Rattle.office_rows.specs.Told.{TellsAll, map_ok};
ghost use Rattle.office_words.specs.Lists.{AreRevisionsOf};
ghost use Rattle.office_store.specs.Connections.{Reads, ReadsAll};
ghost use Rattle.office_store.specs.Lists.{listed_row, IsListedForm};
ghost use Rattle.office_store.specs.Shown.{IsIdle};

use crate::bind::of_word;
use crate::column::{number_at, state_at, word_at};
use crate::finding::find_all;
use crate::from_row::FromRow;
use office_words::{Fault, ListedRevision, Word};
use sqlite::{Alter, Connection, Row};
use std::alloc::Global;

// The plus keeps the planner from the order of the primary key, so that it takes the index that has
// all three columns.
pub(crate) const REVISIONS_OF: &str =
    "SELECT profile, number, state FROM revisions WHERE team = ?1 ORDER BY +profile, number";

impl FromRow<Global> for ListedRevision {
    ghost encode = { listed_row };

    ghost IsFormed = { IsListedForm };

    fn from_row(alloc: Global, row: &Row) -> Result<ListedRevision, Fault> {
        if row.column_count() != 3 {
            return Err(Fault::NotAnOffice);
        }
        Ok(ListedRevision {
            profile: word_at(alloc, row, 0)?,
            number: number_at(row, 1)?,
            state: state_at(row, 2)?,
        })
    }
}

/// The revisions of all profiles of a team, by the name of the profile, in the order of its bytes,
/// and by number.
pub fn revisions_of<S: Alter>(
    alloc: Global,
    conn: &mut Connection<S>,
    team: &Word,
) -> Result<Vec<ListedRevision>, Fault>
    requires { IsIdle (state S.Store conn.old) }
    ensures read { Reads S.Store conn.old conn.new result
        (λ t listed. AreRevisionsOf t team.now listed.items) }
    ensures told { ReadsAll S.Store conn.old conn.new
        REVISIONS_OF.now (SqlText team.now ∷ [])
        (TellsAll listed_row IsListedForm) (map_ok result (λ listed. listed.items)) }
{
    find_all(alloc, conn, REVISIONS_OF, &of_word(team))
}
