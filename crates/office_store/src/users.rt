//! The table of users.

ghost use Rattle.std.specs.Prelude.{◌≡◌, [], ◌∷◌};
ghost use Rattle.sqlite.specs.Held.{state};
ghost use Rattle.sqlite.specs.declared.types.Value.TheVariants.{Text as SqlText, Blob};
ghost use Rattle.office_rows.specs.Told.{TellsOne};
ghost use Rattle.office_words.specs.Changes.{with_user};
ghost use Rattle.office_words.specs.Reads.{IsUserShowing};
ghost use Rattle.office_store.specs.Calls.{Into};
ghost use Rattle.office_store.specs.Connections.{MeetsOnErr, Reads, ReadsFirst, Writes};
ghost use Rattle.office_store.specs.Entries.{user_row, IsUser};
ghost use Rattle.office_store.specs.Shown.{IsIdle};
ghost use Rattle.office_store.specs.Writes.{putting_user};

use crate::bind::{of_digest, of_user, of_word};
use crate::column::{digest_at, roles_at, word_at};
use crate::finding::find;
use crate::from_row::FromRow;
use crate::write::write_one;
use office_words::{Fault, UserRow, Word};
use sqlite::{Alter, Connection, Row};
use std::alloc::Global;

pub(crate) const USER_BY_NAME: &str = "SELECT name, team, roles, token FROM users WHERE name = ?1";

pub(crate) const USER_BY_TOKEN: &str =
    "SELECT name, team, roles, token FROM users WHERE token = ?1";

pub(crate) const PUT_USER: &str =
    "INSERT INTO users (name, team, roles, token) VALUES (?1, ?2, ?3, ?4) ON CONFLICT (name) DO UPDATE SET team = ?2, roles = ?3, token = ?4";

impl FromRow<Global> for UserRow {
    ghost encode = { user_row };

    ghost IsFormed = { IsUser };

    fn from_row(alloc: Global, row: &Row) -> Result<UserRow, Fault> {
        if row.column_count() != 4 {
            return Err(Fault::NotAnOffice);
        }
        Ok(UserRow {
            name: word_at(alloc, row, 0)?,
            team: word_at(alloc, row, 1)?,
            roles: roles_at(row, 2)?,
            digest: digest_at(row, 3)?,
        })
    }
}

/// The user of that name.
pub fn user_by_name<S: Alter>(
    alloc: Global,
    conn: &mut Connection<S>,
    name: &Word,
) -> Result<Option<UserRow>, Fault>
    requires { IsIdle (state S.Store conn.old) }
    ensures read { Reads S.Store conn.old conn.new result (λ t user. user ≡ t.users name.now) }
    ensures told { ReadsFirst S.Store conn.old conn.new
        USER_BY_NAME.now (SqlText name.now ∷ []) (TellsOne user_row IsUser) result }
{
    find(alloc, conn, USER_BY_NAME, &of_word(name))
}

/// A user whose token has that SHA-256.
pub fn user_by_token<S: Alter>(
    alloc: Global,
    conn: &mut Connection<S>,
    digest: &[u8; 32],
) -> Result<Option<UserRow>, Fault>
    requires { IsIdle (state S.Store conn.old) }
    ensures read { Reads S.Store conn.old conn.new result
        (λ t user. IsUserShowing t digest.now user) }
    ensures told { ReadsFirst S.Store conn.old conn.new
        USER_BY_TOKEN.now (Blob digest.now ∷ []) (TellsOne user_row IsUser) result }
{
    find(alloc, conn, USER_BY_TOKEN, &of_digest(digest))
}

/// Puts a user in the place of any of that name. Where another user shows the same token the store
/// refuses it, as [`Fault::Disk`].
pub fn put_user<S: Alter>(conn: &mut Connection<S>, user: &UserRow) -> Result<(), Fault>
    requires { IsIdle (state S.Store conn.old) }
    ensures write { Writes S.Store conn.old conn.new result (Into (with_user user.now)) }
    ensures cause { MeetsOnErr S.Store conn.old conn.new (putting_user user.now) result }
{
    write_one(conn, PUT_USER, &of_user(user))
}
