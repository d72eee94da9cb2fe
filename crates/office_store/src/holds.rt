//! The table of holds.

ghost use Rattle.std.specs.Prelude.{◌≡◌};
ghost use Rattle.sqlite.specs.Held.{state};
ghost use Rattle.office_rows.specs.Told.{TellsWhether};
ghost use Rattle.office_words.specs.Changes.{with_hold, without_hold};
ghost use Rattle.office_store.specs.Calls.{Into};
ghost use Rattle.office_store.specs.Connections.{MeetsOnErr, Reads, ReadsFirst, Writes};
ghost use Rattle.office_store.specs.Keys.{profile_params};
ghost use Rattle.office_store.specs.Shown.{IsIdle};
ghost use Rattle.office_store.specs.Writes.{holding, releasing};

use crate::bind::of_profile;
use crate::finding::finds_any;
use crate::write::{write_one, write_two};
use office_words::{Fault, ProfileName};
use sqlite::{Alter, Connection, Row};

pub(crate) const HOLD_OF: &str = "SELECT team, profile FROM holds WHERE team = ?1 AND profile = ?2";

pub(crate) const DELETE_HOLD: &str = "DELETE FROM holds WHERE team = ?1 AND profile = ?2";

pub(crate) const INSERT_HOLD: &str = "INSERT INTO holds (team, profile) VALUES (?1, ?2)";

/// Whether a profile is held.
pub fn is_held<S: Alter>(conn: &mut Connection<S>, profile: &ProfileName) -> Result<bool, Fault>
    requires { IsIdle (state S.Store conn.old) }
    ensures read { Reads S.Store conn.old conn.new result (λ t held. held ≡ t.holds profile.now) }
    ensures told { ReadsFirst S.Store conn.old conn.new
        HOLD_OF.now (profile_params profile.now) TellsWhether result }
{
    finds_any(conn, HOLD_OF, &of_profile(profile))
}

/// Holds a profile.
pub fn put_hold<S: Alter>(conn: &mut Connection<S>, profile: &ProfileName) -> Result<(), Fault>
    requires { IsIdle (state S.Store conn.old) }
    ensures write { Writes S.Store conn.old conn.new result (Into (with_hold profile.now)) }
    ensures cause { MeetsOnErr S.Store conn.old conn.new (holding profile.now) result }
{
    let key = of_profile(profile);
    write_two(conn, DELETE_HOLD, &key, INSERT_HOLD, &key)
}

/// Holds a profile no longer.
pub fn delete_hold<S: Alter>(conn: &mut Connection<S>, profile: &ProfileName) -> Result<(), Fault>
    requires { IsIdle (state S.Store conn.old) }
    ensures write { Writes S.Store conn.old conn.new result (Into (without_hold profile.now)) }
    ensures cause { MeetsOnErr S.Store conn.old conn.new (releasing profile.now) result }
{
    write_one(conn, DELETE_HOLD, &of_profile(profile))
}
