//! Requests that change something.

ghost use Rattle.std.specs.Prelude.{IfOk, IsTrue};
ghost use Rattle.sqlite.specs.Held.{state};
ghost use Rattle.sqlite.specs.State.{HasCleanDisk};
ghost use Rattle.office_store.specs.Shown.{IsIdle};
ghost use Rattle.office_judging.specs.Changing.{IsChange, IsChangeOf};
ghost use Rattle.office_judging.specs.Judged.{IsAskedBy, JudgesChange};

use crate::let_through::let_through;
use crate::refusal::Refusal;
use office_policy::{Allowed, Change};
use office_words::UserRow;
use review_policy::{Ask, Reply};
use sqlite::{Alter, Connection};
use std::alloc::{AllocError, Global};

// What is to happen where this is allowed.
fn change_of(ask: &Ask) -> Result<Change, AllocError>
    requires { IsChange ask.now }
    ensures { IfOk result (IsChangeOf ask.now) }
{
    match ask {
        Ask::Vote {
            name,
            revision,
            digest,
            approve,
        } => Ok(Change::Vote {
            name: name.clone()?,
            revision: *revision,
            digest: *digest,
            approves: *approve,
        }),
        Ask::ActOnRevision {
            act,
            name,
            revision,
        } => Ok(Change::ActOnRevision {
            act: *act,
            name: name.clone()?,
            revision: *revision,
        }),
        Ask::ActOnProfile { act, name } => Ok(Change::ActOnProfile {
            act: *act,
            name: name.clone()?,
        }),
        _ => unreachable!(),
    }
}

// Judges what changes something.
pub(crate) fn judge_change<S: Alter>(
    alloc: Global,
    conn: &mut Connection<S>,
    caller: UserRow,
    ask: &Ask,
) -> Result<Allowed, Refusal>
    requires change { IsChange ask.now }
    requires idle { IsIdle (state S.Store conn.old) }
    requires is_open { HasCleanDisk (state S.Store conn.old)
        → IsTrue (state S.Store conn.old).is_open }
    ensures judged { JudgesChange (state S.Store conn.old) (state S.Store conn.new) result
        caller ask.now }
    ensures asked { IfOk result (IsAskedBy ask.now) }
{
    let_through(alloc, conn, &caller, ask)?;
    let change = change_of(ask)?;
    Ok(Allowed {
        caller,
        change,
        reply: Reply::Nothing,
    })
}
