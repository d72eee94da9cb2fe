//! What was allowed is written.

ghost use Rattle.sqlite.specs.Held.{state};
ghost use Rattle.office_words.specs.Role.{has_role};
ghost use Rattle.office_store.specs.Entries.{vote_entry};
ghost use Rattle.office_store.specs.Refusing.{puts_user, adds_revision, puts_vote};
ghost use Rattle.office_store.specs.Shown.{IsIdle};
ghost use Rattle.review_office.specs.Carries.{Asks, write_of, write_on_profile, write_on_revision};

use office_policy::{Allowed, Change};
use office_store::{
    Ballot, add_revision, delete_hold, put_baseline, put_hold, put_user, put_vote, set_issued,
    set_withdrawn,
};
use office_words::{Fault, ProfileName, RevisionRow, Role, UserRow};
use review_policy::{Effect, ProfileAct};
use sqlite::{Alter, Connection};

// Enrols a user, or gives an enrolled one these roles and this token.
fn write_enrolment<S: Alter>(conn: &mut Connection<S>, user: &UserRow) -> Result<(), Fault>
    requires { IsIdle (state S.Store conn.old) }
    ensures { Asks S.Store (puts_user user.now) conn.old conn.new result }
{
    put_user(conn, user)
}

// Adds the next revision of a profile.
fn write_submission<S: Alter>(
    conn: &mut Connection<S>,
    name: &ProfileName,
    revision: &RevisionRow,
) -> Result<(), Fault>
    requires { IsIdle (state S.Store conn.old) }
    ensures { Asks S.Store (adds_revision name.now revision.now) conn.old conn.new result }
{
    add_revision(conn, name, revision)
}

// Writes a vote, in the place of any earlier vote of the caller there.
fn write_vote<S: Alter>(
    conn: &mut Connection<S>,
    caller: &UserRow,
    name: &ProfileName,
    number: u32,
    approves: bool,
) -> Result<(), Fault>
    requires { IsIdle (state S.Store conn.old) }
    ensures { Asks S.Store
        (puts_vote (vote_entry name.now number caller.now.name approves
        (has_role caller.now.roles Role.Security))) conn.old conn.new result }
{
    let security = caller.roles.has(Role::Security);
    put_vote(
        conn,
        name,
        number,
        &caller.name,
        Ballot { approves, security },
    )
}

// Writes the effect of an act on a revision.
fn write_on_revision<S: Alter>(
    conn: &mut Connection<S>,
    effect: Effect,
    name: &ProfileName,
    number: u32,
) -> Result<(), Fault>
    requires { IsIdle (state S.Store conn.old) }
    ensures { Asks S.Store (write_on_revision effect name.now number) conn.old conn.new result }
{
    match effect {
        Effect::Issues => set_issued(conn, name, number),
        Effect::Withdraws => set_withdrawn(conn, name, number),
        Effect::Adopts => put_baseline(conn, name, number),
    }
}

// Does this to a profile.
fn write_on_profile<S: Alter>(
    conn: &mut Connection<S>,
    act: ProfileAct,
    name: &ProfileName,
) -> Result<(), Fault>
    requires { IsIdle (state S.Store conn.old) }
    ensures { Asks S.Store (write_on_profile act name.now) conn.old conn.new result }
{
    match act {
        ProfileAct::Hold => put_hold(conn, name),
        ProfileAct::Release => delete_hold(conn, name),
    }
}

// Carries out what was allowed, by one call of the store.
pub(crate) fn carry_out<S: Alter>(conn: &mut Connection<S>, allowed: &Allowed) -> Result<(), Fault>
    requires { IsIdle (state S.Store conn.old) }
    ensures { Asks S.Store (write_of allowed.now) conn.old conn.new result }
{
    match &allowed.change {
        Change::Enrol { user } => write_enrolment(conn, user),
        Change::AddRevision { name, row } => write_submission(conn, name, row),
        Change::Vote {
            name,
            revision,
            approves,
            ..
        } => write_vote(conn, &allowed.caller, name, *revision, *approves),
        Change::ActOnRevision {
            act,
            name,
            revision,
        } => write_on_revision(conn, act.effect(), name, *revision),
        Change::ActOnProfile { act, name } => write_on_profile(conn, *act, name),
    }
}
