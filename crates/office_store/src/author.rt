//! The authors of a profile.

ghost use Rattle.std.specs.Prelude.{◌≡◌, ◌↔◌, true};
ghost use Rattle.sqlite.specs.Held.{state};
ghost use Rattle.office_rows.specs.Told.{TellsAll, TellsWhether, map_ok};
ghost use Rattle.office_words.specs.Lists.{IsAuthor, AreAuthors};
ghost use Rattle.office_store.specs.Connections.{Reads, ReadsAll, ReadsFirst};
ghost use Rattle.office_store.specs.Keys.{author_params, profile_params};
ghost use Rattle.office_store.specs.Lists.{name_row, IsWord};
ghost use Rattle.office_store.specs.Shown.{IsIdle};

use crate::bind::{of_author, of_profile};
use crate::column::word_at;
use crate::finding::{find_all, finds_any};
use crate::from_row::FromRow;
use office_words::{Fault, ProfileName, Word};
use sqlite::{Alter, Connection, Row};
use std::alloc::Global;

pub(crate) const REVISION_BY: &str =
    "SELECT author FROM revisions WHERE team = ?1 AND profile = ?2 AND author = ?3";

pub(crate) const AUTHORS_OF: &str =
    "SELECT DISTINCT author FROM revisions WHERE team = ?1 AND profile = ?2 ORDER BY author";

/// Whether a user submitted a revision of a profile.
pub fn is_author<S: Alter>(
    conn: &mut Connection<S>,
    profile: &ProfileName,
    author: &Word,
) -> Result<bool, Fault>
    requires { IsIdle (state S.Store conn.old) }
    ensures read { Reads S.Store conn.old conn.new result
        (λ t is_author. is_author ≡ true ↔ IsAuthor t profile.now author.now) }
    ensures told { ReadsFirst S.Store conn.old conn.new
        REVISION_BY.now (author_params profile.now author.now) TellsWhether result }
{
    finds_any(conn, REVISION_BY, &of_author(profile, author))
}

impl FromRow<Global> for Word {
    ghost encode = { name_row };

    ghost IsFormed = { IsWord };

    fn from_row(alloc: Global, row: &Row) -> Result<Word, Fault> {
        if row.column_count() != 1 {
            return Err(Fault::NotAnOffice);
        }
        word_at(alloc, row, 0)
    }
}

/// The names of those who submitted a revision of a profile, each once, in the order of their
/// bytes.
pub fn authors<S: Alter>(
    alloc: Global,
    conn: &mut Connection<S>,
    profile: &ProfileName,
) -> Result<Vec<Word>, Fault>
    requires { IsIdle (state S.Store conn.old) }
    ensures read { Reads S.Store conn.old conn.new result
        (λ t names. AreAuthors t profile.now names.items) }
    ensures told { ReadsAll S.Store conn.old conn.new
        AUTHORS_OF.now (profile_params profile.now)
        (TellsAll name_row IsWord)
        (map_ok result (λ names. names.items)) }
{
    find_all(alloc, conn, AUTHORS_OF, &of_profile(profile))
}
