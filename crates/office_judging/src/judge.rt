//! What each kind of request comes to, before anything is changed.

ghost use Rattle.std.specs.Prelude.{◌≡◌, Some, IsTrue};
ghost use Rattle.sqlite.specs.Held.{state};
ghost use Rattle.sqlite.specs.State.{HasCleanDisk};
ghost use Rattle.office_store.specs.Shown.{IsIdle};
ghost use Rattle.office_judging.specs.Judged.{IsAskedIfAllowed, IsSettled, JudgesFor, JudgesRequest};
ghost use Rattle.office_judging.specs.Judged.{JudgesNamed};
ghost use Rattle.office_judging.specs.Judged.{ReadsIfAnswered, UnlessFault};
ghost use Rattle.office_judging.specs.Steps.{allowed_of, answered_of};

use crate::caller::me;
use crate::changing::judge_change;
use crate::enrol::judge_enrolment;
use crate::issue::judge_issue;
use crate::reading::judge_read;
use crate::refusal::Refusal;
use crate::submit::judge_submission;
use office_policy::{Allowed, Judgement};
use office_store::{user_by_name, user_by_token};
use office_words::{UserRow, Word};
use profile_text::digest;
use review_policy::{Answer, Ask, Denial, Reply, Request, RevisionAct, Rule};
use sqlite::{Alter, Connection};
use std::alloc::Global;

// What only reads is answered at once.
fn answered(read: Result<Reply, Refusal>) -> Result<Judgement, Refusal>
    ensures { result ≡ answered_of read }
{
    Ok(Judgement::Answered(Answer::Done(read?)))
}

// What changes something is allowed.
fn allowed(judged: Result<Allowed, Refusal>) -> Result<Judgement, Refusal>
    ensures { result ≡ allowed_of judged }
{
    Ok(Judgement::Allowed(judged?))
}

// Judges what a known caller asks, by its kind.
fn judge_for<S: Alter>(
    alloc: Global,
    conn: &mut Connection<S>,
    caller: UserRow,
    ask: &Ask,
) -> Result<Judgement, Refusal>
    requires idle { IsIdle (state S.Store conn.old) }
    requires is_open { HasCleanDisk (state S.Store conn.old)
        → IsTrue (state S.Store conn.old).is_open }
    ensures judged { JudgesFor
        (state S.Store conn.old) (state S.Store conn.new) result (Some caller) ask.now }
    ensures reads { ReadsIfAnswered ask.now result }
{
    match ask {
        Ask::Enrol {
            user,
            team,
            roles,
            digest,
        } => allowed(judge_enrolment(alloc, conn, caller, user, team, *roles, digest)),
        Ask::Submit { name, document } => {
            allowed(judge_submission(alloc, conn, caller, name, document))
        }
        Ask::ActOnRevision {
            act,
            name,
            revision,
        } => match act {
            RevisionAct::Issue => allowed(judge_issue(alloc, conn, caller, name, *revision)),
            RevisionAct::Withdraw | RevisionAct::Adopt => {
                allowed(judge_change(alloc, conn, caller, ask))
            }
        },
        Ask::Vote { .. } | Ask::ActOnProfile { .. } => {
            allowed(judge_change(alloc, conn, caller, ask))
        }
        Ask::Me => answered(Ok(me(caller))),
        Ask::SeeRevision { .. }
        | Ask::List { .. }
        | Ask::SeeProfile { .. }
        | Ask::Revisions { .. } => answered(judge_read(alloc, conn, &caller, ask)),
    }
}

// Judges what is asked by a caller, whom the first rule refuses where nobody knows that one.
fn judge_caller<S: Alter>(
    alloc: Global,
    conn: &mut Connection<S>,
    caller: Option<UserRow>,
    ask: &Ask,
) -> Result<Judgement, Refusal>
    requires idle { IsIdle (state S.Store conn.old) }
    requires is_open { HasCleanDisk (state S.Store conn.old)
        → IsTrue (state S.Store conn.old).is_open }
    ensures judged { JudgesFor
        (state S.Store conn.old) (state S.Store conn.new) result caller ask.now }
    ensures reads { ReadsIfAnswered ask.now result }
{
    match caller {
        Some(caller) => judge_for(alloc, conn, caller, ask),
        None => Err(Refusal::from(Denial::by_first(Rule::CallerUnknown))),
    }
}

/// Finds the caller, and judges the request. A stranger is answered after this one look-up. Nothing
/// is changed.
///
/// # Errors
///
/// The first rule that refuses the request, or the fault of the store.
pub fn judge<S: Alter>(
    alloc: Global,
    conn: &mut Connection<S>,
    request: &Request,
) -> Result<Judgement, Refusal>
    requires { IsIdle (state S.Store conn.old) }
    ensures judged { JudgesRequest
        (state S.Store conn.old) (state S.Store conn.new) result request.now }
    ensures asked { IsAskedIfAllowed request.now.ask result }
    ensures open { HasCleanDisk (state S.Store conn.new)
        → UnlessFault result (IsTrue (state S.Store conn.old).is_open) }
    ensures settled { IsSettled (state S.Store conn.new) }
{
    let token = digest(request.token.as_str().as_bytes());
    let caller = user_by_token(alloc, conn, &token)?;
    judge_caller(alloc, conn, caller, &request.ask)
}

/// Judges what the user of this name asks. Nothing is changed.
///
/// # Errors
///
/// Those of [`judge`].
pub fn judge_named<S: Alter>(
    alloc: Global,
    conn: &mut Connection<S>,
    name: &Word,
    ask: &Ask,
) -> Result<Judgement, Refusal>
    requires { IsIdle (state S.Store conn.old) }
    ensures judged { JudgesNamed
        (state S.Store conn.old) (state S.Store conn.new) result name.now ask.now }
    ensures asked { IsAskedIfAllowed ask.now result }
    ensures reads { ReadsIfAnswered ask.now result }
    ensures open { HasCleanDisk (state S.Store conn.new)
        → UnlessFault result (IsTrue (state S.Store conn.old).is_open) }
    ensures settled { IsSettled (state S.Store conn.new) }
{
    let caller = user_by_name(alloc, conn, name)?;
    judge_caller(alloc, conn, caller, ask)
}
