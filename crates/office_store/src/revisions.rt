//! The table of revisions.

ghost use Rattle.std.specs.Prelude.{◌≡◌, ◌↔◌, true};
ghost use Rattle.sqlite.specs.Held.{state};
ghost use Rattle.office_rows.specs.Told.{TellsOne, TellsWhether};
ghost use Rattle.office_words.specs.Changes.{with_issued, with_withdrawn};
ghost use Rattle.office_words.specs.Reads.{IsLast, IsIssued, HasRevision, Adds};
ghost use Rattle.office_store.specs.Calls.{Into};
ghost use Rattle.office_store.specs.Connections.{MeetsOnErr, Reads, ReadsFirst, Writes};
ghost use Rattle.office_store.specs.Entries.{revision_columns, IsRevisionForm};
ghost use Rattle.office_store.specs.Keys.{profile_params, revision_params};
ghost use Rattle.office_store.specs.Shown.{IsIdle};
ghost use Rattle.office_store.specs.Writes.{adding_revision, issuing, withdrawing};

use crate::bind::{of_number, of_profile, of_revision};
use crate::column::{digest_at, number_at, state_at, text_at, word_at};
use crate::finding::{find, finds_any};
use crate::from_row::FromRow;
use crate::write::{write_one, write_two};
use office_words::{Fault, ProfileName, RevisionRow, State, Text, Word};
use sqlite::{Alter, Connection, Row};
use std::alloc::Global;

pub(crate) const REVISION_AT: &str =
    "SELECT number, author, state, body, digest FROM revisions WHERE team = ?1 AND profile = ?2 AND number = ?3";

pub(crate) const ISSUED_OF: &str =
    "SELECT number, author, state, body, digest FROM revisions WHERE team = ?1 AND profile = ?2 AND state = 2";

pub(crate) const LAST_OF: &str =
    "SELECT number, author, state, body, digest FROM revisions WHERE team = ?1 AND profile = ?2 ORDER BY number DESC LIMIT 1";

pub(crate) const REVISION_OF: &str =
    "SELECT number FROM revisions WHERE team = ?1 AND profile = ?2";

pub(crate) const CLOSE_OPEN: &str =
    "UPDATE revisions SET state = 1 WHERE team = ?1 AND profile = ?2 AND state = 0";

pub(crate) const REPLACE_ISSUED: &str =
    "UPDATE revisions SET state = 3 WHERE team = ?1 AND profile = ?2 AND state = 2";

pub(crate) const ISSUE_REVISION: &str =
    "UPDATE revisions SET state = 2 WHERE team = ?1 AND profile = ?2 AND number = ?3";

pub(crate) const WITHDRAW_REVISION: &str =
    "UPDATE revisions SET state = 4 WHERE team = ?1 AND profile = ?2 AND number = ?3";

pub(crate) const INSERT_REVISION: &str =
    "INSERT INTO revisions (team, profile, number, author, state, body, digest) VALUES (?1, ?2, ?3, ?4, ?5, ?6, ?7)";

impl FromRow<Global> for RevisionRow {
    ghost encode = { revision_columns };

    ghost IsFormed = { IsRevisionForm };

    fn from_row(alloc: Global, row: &Row) -> Result<RevisionRow, Fault> {
        if row.column_count() != 5 {
            return Err(Fault::NotAnOffice);
        }
        Ok(RevisionRow {
            number: number_at(row, 0)?,
            author: word_at(alloc, row, 1)?,
            state: state_at(row, 2)?,
            body: Text::new(text_at(row, 3)?),
            digest: digest_at(row, 4)?,
        })
    }
}

/// Whether a profile has a revision.
pub fn has_revision<S: Alter>(
    conn: &mut Connection<S>,
    profile: &ProfileName,
) -> Result<bool, Fault>
    requires { IsIdle (state S.Store conn.old) }
    ensures read { Reads S.Store conn.old conn.new result
        (λ t found. found ≡ true ↔ HasRevision t profile.now) }
    ensures told { ReadsFirst S.Store conn.old conn.new
        REVISION_OF.now (profile_params profile.now) TellsWhether result }
{
    finds_any(conn, REVISION_OF, &of_profile(profile))
}

/// A revision of a profile by its number.
pub fn revision<S: Alter>(
    alloc: Global,
    conn: &mut Connection<S>,
    profile: &ProfileName,
    number: u32,
) -> Result<Option<RevisionRow>, Fault>
    requires { IsIdle (state S.Store conn.old) }
    ensures read { Reads S.Store conn.old conn.new result
        (λ t revision. revision ≡ t.revisions profile.now number) }
    ensures told { ReadsFirst S.Store conn.old conn.new
        REVISION_AT.now (revision_params profile.now number)
        (TellsOne revision_columns IsRevisionForm) result }
{
    find(alloc, conn, REVISION_AT, &of_number(profile, number))
}

/// The revision of a profile that is issued.
pub fn issued<S: Alter>(
    alloc: Global,
    conn: &mut Connection<S>,
    profile: &ProfileName,
) -> Result<Option<RevisionRow>, Fault>
    requires { IsIdle (state S.Store conn.old) }
    ensures read { Reads S.Store conn.old conn.new result
        (λ t revision. IsIssued t profile.now revision) }
    ensures told { ReadsFirst S.Store conn.old conn.new
        ISSUED_OF.now (profile_params profile.now)
        (TellsOne revision_columns IsRevisionForm) result }
{
    find(alloc, conn, ISSUED_OF, &of_profile(profile))
}

/// The revision of a profile with the greatest number.
pub fn last<S: Alter>(
    alloc: Global,
    conn: &mut Connection<S>,
    profile: &ProfileName,
) -> Result<Option<RevisionRow>, Fault>
    requires { IsIdle (state S.Store conn.old) }
    ensures read { Reads S.Store conn.old conn.new result
        (λ t revision. IsLast t profile.now revision) }
    ensures told { ReadsFirst S.Store conn.old conn.new
        LAST_OF.now (profile_params profile.now) (TellsOne revision_columns IsRevisionForm) result }
{
    find(alloc, conn, LAST_OF, &of_profile(profile))
}

/// Adds a revision under its number, which no other of its profile has, and closes the open one of
/// the profile.
pub fn add_revision<S: Alter>(
    conn: &mut Connection<S>,
    profile: &ProfileName,
    revision: &RevisionRow,
) -> Result<(), Fault>
    requires { IsIdle (state S.Store conn.old) }
    ensures write { Writes S.Store conn.old conn.new result (Adds profile.now revision.now) }
    ensures cause { MeetsOnErr S.Store conn.old conn.new
        (adding_revision profile.now revision.now) result }
{
    let added = of_revision(profile, revision);
    write_two(
        conn,
        CLOSE_OPEN,
        &of_profile(profile),
        INSERT_REVISION,
        &added,
    )
}

/// Issues a revision, which replaces the issued one of its profile.
pub fn set_issued<S: Alter>(
    conn: &mut Connection<S>,
    profile: &ProfileName,
    number: u32,
) -> Result<(), Fault>
    requires { IsIdle (state S.Store conn.old) }
    ensures write { Writes S.Store conn.old conn.new result
        (Into (with_issued profile.now number)) }
    ensures cause { MeetsOnErr S.Store conn.old conn.new (issuing profile.now number) result }
{
    write_two(
        conn,
        REPLACE_ISSUED,
        &of_profile(profile),
        ISSUE_REVISION,
        &of_number(profile, number),
    )
}

/// Withdraws a revision.
pub fn set_withdrawn<S: Alter>(
    conn: &mut Connection<S>,
    profile: &ProfileName,
    number: u32,
) -> Result<(), Fault>
    requires { IsIdle (state S.Store conn.old) }
    ensures write { Writes S.Store conn.old conn.new result
        (Into (with_withdrawn profile.now number)) }
    ensures cause { MeetsOnErr S.Store conn.old conn.new (withdrawing profile.now number) result }
{
    write_one(conn, WITHDRAW_REVISION, &of_number(profile, number))
}
