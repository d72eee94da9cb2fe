//! From one profile of a team to the next.

ghost use Rattle.std.specs.Prelude.{◌≡◌, [], ◌∷◌, ◌++◌, string_bytes, None, Some, IfOk, IfErr};
ghost use Rattle.sqlite.specs.Held.{state};
ghost use Rattle.office_store.specs.Connections.{Reads};
ghost use Rattle.office_store.specs.Lists.{IsNextListed};
ghost use Rattle.office_store.specs.Shown.{IsIdle};
ghost use Rattle.no_memory.specs.Witness.{witness};

use crate::bind::of_bound;
use crate::finding::find;
use office_words::{Fault, ListedRevision, Word};
use sqlite::{Alter, Connection};
use std::alloc::Global;

// The index by state has this order and all three columns, so that one entry of it is read.
pub(crate) const LISTED_ABOVE: &str =
    "SELECT profile, number, state FROM revisions WHERE team = ?1 AND profile > ?2 ORDER BY profile, state, number LIMIT 1";

// A text above a name and below each other word that is above that one, since no word has a byte as
// low as a space. A scan from the name itself would read all its revisions.
fn bound_after(alloc: Global, name: &Word) -> Result<String, Fault>
    ensures bound { IfOk result (λ bound. string_bytes bound ≡ name.now ++ 32 ∷ []) }
    ensures cause { IfErr result (λ f. f ≡ Fault.NoMemory witness) }
{
    let bound = [name.as_str(), " "].concat(alloc)?;
    Ok(bound)
}

/// A revision of the first profile of a team, by name: the one that it has open, where it has one.
pub fn first_listed<S: Alter>(
    alloc: Global,
    conn: &mut Connection<S>,
    team: &Word,
) -> Result<Option<ListedRevision>, Fault>
    requires { IsIdle (state S.Store conn.old) }
    ensures { Reads S.Store conn.old conn.new result
        (λ t listed. IsNextListed t team.now None listed) }
{
    find(alloc, conn, LISTED_ABOVE, &of_bound(team, ""))
}

/// The same of the first profile after that of a name.
pub fn next_listed<S: Alter>(
    alloc: Global,
    conn: &mut Connection<S>,
    team: &Word,
    name: &Word,
) -> Result<Option<ListedRevision>, Fault>
    requires { IsIdle (state S.Store conn.old) }
    ensures { Reads S.Store conn.old conn.new result
        (λ t listed. IsNextListed t team.now (Some name.now) listed) }
{
    let bound = bound_after(alloc, name)?;
    find(alloc, conn, LISTED_ABOVE, &of_bound(team, bound.as_str()))
}
