//! Enrolments.

ghost use Rattle.std.specs.Prelude.{◌≡◌, Some, IfOk, IfSome, not};
ghost use Rattle.sqlite.specs.Held.{state};
ghost use Rattle.review_policy.specs.declared.ask.Ask.TheVariants as ask;
ghost use Rattle.review_policy.specs.declared.facts.TheConstants.EnrolFacts.{PASSING};
ghost use Rattle.office_words.specs.Lists.{holds_role};
ghost use Rattle.office_store.specs.Calls.{IsRead};
ghost use Rattle.office_store.specs.Shown.{IsIdle};
ghost use Rattle.office_policy.specs.Users.{user_of, user_showing, is_named};
ghost use Rattle.office_policy.specs.Facts.{enrol_facts, is_elsewhere, is_another};
ghost use Rattle.office_policy.specs.LooksBack.{LooksBack};
ghost use Rattle.office_judging.specs.Judged.{IsAskedBy, JudgesChange};

use crate::refusal::Refusal;
use office_policy::{Allowed, Change};
use office_store::{user_by_name, user_by_token};
use office_words::{Fault, Role, Roles, UserRow, Word};
use review_policy::Reply;
use review_policy::decide::decide_enrol;
use review_policy::facts::EnrolFacts;
use sqlite::{Alter, Connection};
use std::alloc::{AllocError, Global};

// Whether a user is there and of another team.
fn is_elsewhere(user: &Option<UserRow>, team: &Word) -> bool
    ensures { result ≡ is_elsewhere user.now team.now }
{
    match user {
        Some(user) => !user.team.is(team),
        None => false,
    }
}

// Whether a user is there and has another name.
fn is_another(user: &Option<UserRow>, name: &Word) -> bool
    ensures { result ≡ is_another user.now name.now }
{
    match user {
        Some(user) => !user.name.is(name),
        None => false,
    }
}

// What the rules ask of a caller and the name of the user to be enrolled.
fn facts_of_caller(caller: &UserRow, user: &Word) -> EnrolFacts
    ensures { result ≡ record PASSING {
      role_missing = not (holds_role (Some caller.now) Role.Registrar);
      own_row = is_named (Some caller.now) user.now;
    } }
{
    EnrolFacts {
        role_missing: !caller.roles.has(Role::Registrar),
        own_row: caller.name.is(user),
        ..EnrolFacts::PASSING
    }
}

// All that the rules ask, of the user that has the name and the one that shows the digest too.
fn all_facts(
    caller: &UserRow,
    known: &Option<UserRow>,
    shower: &Option<UserRow>,
    user: &Word,
    team: &Word,
) -> EnrolFacts
    ensures { result ≡ enrol_facts (Some caller.now) known.now shower.now user.now team.now }
{
    EnrolFacts {
        team_fixed: is_elsewhere(known, team),
        token_taken: is_another(shower, user),
        ..facts_of_caller(caller, user)
    }
}

// The row of a user who is enrolled.
fn row_of(user: &Word, team: &Word, roles: Roles, digest: &[u8; 32]) -> Result<UserRow, AllocError>
    ensures { IfOk result (λ row. row
        ≡ record { name = user.now; team = team.now; roles = roles; digest = digest.now }) }
{
    Ok(UserRow {
        name: user.clone()?,
        team: team.clone()?,
        roles,
        digest: *digest,
    })
}

// A copy of a user that is there and shows the digest.
fn shower_in(user: &Option<UserRow>, digest: &[u8; 32]) -> Result<Option<UserRow>, AllocError>
    ensures { IfOk result (λ found. IfSome found
        (λ shower. (user.now ≡ Some shower) × (shower.digest ≡ digest.now))) }
{
    match user {
        Some(row) if row.digest == *digest => {
            let shower = row_of(&row.name, &row.team, row.roles, &row.digest)?;
            Ok(Some(shower))
        }
        _ => Ok(None),
    }
}

// The user that has the name, and the one that shows the digest, who isn't looked up where that is
// the same.
fn users_of<S: Alter>(
    alloc: Global,
    conn: &mut Connection<S>,
    user: &Word,
    digest: &[u8; 32],
) -> Result<(Option<UserRow>, Option<UserRow>), Fault>
    requires { IsIdle (state S.Store conn.old) }
    ensures { IsRead (state S.Store conn.old) (state S.Store conn.new) result
        (LooksBack (λ h. (user_of h user.now, user_showing h digest.now))) }
{
    let known = user_by_name(alloc, conn, user)?;
    let itself = shower_in(&known, digest)?;
    if itself.is_some() {
        return Ok((known, itself));
    }
    let shower = user_by_token(alloc, conn, digest)?;
    Ok((known, shower))
}

// Judges an enrolment.
pub(crate) fn judge_enrolment<S: Alter>(
    alloc: Global,
    conn: &mut Connection<S>,
    caller: UserRow,
    user: &Word,
    team: &Word,
    roles: Roles,
    digest: &[u8; 32],
) -> Result<Allowed, Refusal>
    requires { IsIdle (state S.Store conn.old) }
    ensures judged { JudgesChange (state S.Store conn.old) (state S.Store conn.new) result
        caller (ask.Enrol user.now team.now roles digest.now) }
    ensures asked { IfOk result (IsAskedBy (ask.Enrol user.now team.now roles digest.now)) }
{
    decide_enrol(&facts_of_caller(&caller, user))?;
    let (known, shower) = users_of(alloc, conn, user, digest)?;
    decide_enrol(&all_facts(&caller, &known, &shower, user, team))?;
    let change = Change::Enrol {
        user: row_of(user, team, roles, digest)?,
    };
    Ok(Allowed {
        caller,
        change,
        reply: Reply::Nothing,
    })
}
