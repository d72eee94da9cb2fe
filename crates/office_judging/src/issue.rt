//! Revisions that are issued.

ghost use Rattle.std.specs.Prelude.{◌≡◌, Some, false, not, IfOk, IsTrue};
ghost use Rattle.sqlite.specs.Held.{state};
ghost use Rattle.sqlite.specs.State.{HasCleanDisk};
ghost use Rattle.review_policy.specs.declared.act.RevisionAct.TheVariants.{Issue};
ghost use Rattle.review_policy.specs.declared.ask.Ask.TheVariants as ask;
ghost use Rattle.review_policy.specs.declared.denial.Need.TheVariants as needs;
ghost use Rattle.review_policy.specs.declared.facts.TheConstants.IssueFacts.{PASSING};
ghost use Rattle.office_words.specs.Lists.{holds_role};
ghost use Rattle.office_store.specs.Shown.{IsIdle};
ghost use Rattle.office_store.specs.Calls.{IsRead};
ghost use Rattle.office_policy.specs.Facts.{issue_facts};
ghost use Rattle.office_policy.specs.LooksBack.{LooksBack};
ghost use Rattle.office_judging.specs.Judged.{IsAskedBy, JudgesChange};
ghost use Rattle.office_judging.specs.Compared.{compared_at, need_of};
ghost use Rattle.office_judging.specs.Issuing.{deciding_need, is_enough_for_any, looked_at};
ghost use Rattle.office_judging.specs.Issuing.{one_approval};

use crate::baseline::{compared_with, need_of};
use crate::refusal::Refusal;
use crate::revisions::state_in;
use office_policy::{Allowed, Change};
use office_store::{is_author, is_held, revision, tally};
use office_words::{Fault, ProfileName, RevisionRow, Role, Tally, Text, UserRow, Word};
use review_policy::decide::decide_issue;
use review_policy::facts::IssueFacts;
use review_policy::{Need, Reply, RevisionAct};
use sqlite::{Alter, Connection};
use std::alloc::Global;

// What the rules ask of a revision, its profile and the caller, besides the need.
#[derive(Drop)]
struct Looked {
    revision: Option<RevisionRow>,
    by_author: bool,
    tally: Tally,
    held: bool,
}

// What is looked up of a revision, its profile and the caller.
fn look_up<S: Alter>(
    alloc: Global,
    conn: &mut Connection<S>,
    caller: &UserRow,
    name: &ProfileName,
    number: u32,
) -> Result<Looked, Fault>
    requires { IsIdle (state S.Store conn.old) }
    ensures { IsRead (state S.Store conn.old) (state S.Store conn.new) result
        (LooksBack (λ h. looked_at h name.now number caller.now.name)) }
{
    let revision = revision(alloc, conn, name, number)?;
    let by_author = is_author(conn, name, &caller.name)?;
    let tally = tally(alloc, conn, name, number)?;
    let held = is_held(conn, name)?;
    Ok(Looked {
        revision,
        by_author,
        tally,
        held,
    })
}

// What the rules ask of a caller.
fn facts_of_caller(caller: &UserRow) -> IssueFacts
    ensures { result ≡ record PASSING {
      role_missing = not (holds_role (Some caller.now) Role.Issuer);
    } }
{
    IssueFacts {
        role_missing: !caller.roles.has(Role::Issuer),
        ..IssueFacts::PASSING
    }
}

// What the rules ask before the approvals.
fn facts_before_need(caller: &UserRow, looked: &Looked) -> IssueFacts
    ensures { result ≡ issue_facts (Some caller.now) looked.now.revision looked.now.by_author
        (one_approval looked.now.tally.rejections) needs.One false }
{
    IssueFacts {
        state: state_in(&looked.revision),
        author_issues: looked.by_author,
        rejections: looked.tally.rejections,
        ..facts_of_caller(caller)
    }
}

// All that the rules ask.
fn all_facts(caller: &UserRow, looked: &Looked, need: Need) -> IssueFacts
    ensures { result ≡ issue_facts (Some caller.now) looked.now.revision looked.now.by_author
        looked.now.tally need looked.now.held }
{
    IssueFacts {
        approvals: looked.tally.approvals,
        secure: looked.tally.secure,
        need,
        held: looked.held,
        ..facts_before_need(caller, looked)
    }
}

// Whether there are as many approvals as any revision needs, one of them with security.
fn is_enough_for_any(tally: &Tally) -> bool
    ensures { result ≡ is_enough_for_any tally.now }
{
    tally.approvals >= 2 && tally.secure > 0
}

// A need by which the rules decide as by that of the text, which is worked out only where it can
// matter: else nothing is read for it.
fn deciding_need<S: Alter>(
    alloc: Global,
    conn: &mut Connection<S>,
    team: &Word,
    tally: &Tally,
    body: &Text,
) -> Result<Need, Fault>
    requires idle { IsIdle (state S.Store conn.old) }
    requires is_open { HasCleanDisk (state S.Store conn.old)
        → IsTrue (state S.Store conn.old).is_open }
    ensures { IsRead (state S.Store conn.old) (state S.Store conn.new) result
        (LooksBack (λ h. deciding_need tally.now (need_of (compared_at h team.now) body.now))) }
{
    if is_enough_for_any(tally) {
        return Ok(Need::One);
    }
    let compared = compared_with(alloc, conn, team)?;
    let need = need_of(alloc, &compared, body)?;
    Ok(need)
}

// Judges an issue. The need of the revision is asked for where nothing else refuses it.
pub(crate) fn judge_issue<S: Alter>(
    alloc: Global,
    conn: &mut Connection<S>,
    caller: UserRow,
    name: &ProfileName,
    number: u32,
) -> Result<Allowed, Refusal>
    requires { IsIdle (state S.Store conn.old) }
    ensures judged { JudgesChange (state S.Store conn.old) (state S.Store conn.new) result
        caller (ask.ActOnRevision Issue name.now number) }
    ensures asked { IfOk result (IsAskedBy (ask.ActOnRevision Issue name.now number)) }
{
    decide_issue(&facts_of_caller(&caller))?;
    let looked = look_up(alloc, conn, &caller, name, number)?;
    decide_issue(&facts_before_need(&caller, &looked))?;
    let Some(row) = &looked.revision else {
        unreachable!()
    };
    let need = deciding_need(alloc, conn, &name.team, &looked.tally, &row.body)?;
    decide_issue(&all_facts(&caller, &looked, need))?;
    let change = Change::ActOnRevision {
        act: RevisionAct::Issue,
        name: name.clone()?,
        revision: number,
    };
    Ok(Allowed {
        caller,
        change,
        reply: Reply::Issued { digest: row.digest },
    })
}
