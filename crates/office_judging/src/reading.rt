//! Requests that look at what others did.

ghost use Rattle.std.specs.Prelude.{◌≡◌, Ok, IsTrue};
ghost use Rattle.sqlite.specs.Held.{state};
ghost use Rattle.sqlite.specs.State.{HasCleanDisk};
ghost use Rattle.office_store.specs.Calls.{IsRead};
ghost use Rattle.office_store.specs.Shown.{IsIdle};
ghost use Rattle.office_words.specs.declared.row.UserRow.{UserRow as User};
ghost use Rattle.office_policy.specs.LooksBack.{LooksBack};
ghost use Rattle.office_policy.specs.Verdict.{seen_of};
ghost use Rattle.office_judging.specs.Judged.{JudgesRead};
ghost use Rattle.office_judging.specs.Reading.{Answers, IsView};
ghost use Rattle.office_judging.specs.Rows.{first_by};

use crate::let_through::let_through;
use crate::looked::Looked;
use crate::newest::newest;
use crate::profiles::profiles_of;
use crate::refusal::Refusal;
use crate::sheet::sheet_now;
use office_words::{Fault, ProfileName, RevisionRow, UserRow};
use review_policy::{Ask, ProfileView, Reply, RevisionView};
use sqlite::{Alter, Connection};
use std::alloc::Global;

// What is seen of a revision.
fn see<S: Alter>(
    alloc: Global,
    conn: &mut Connection<S>,
    view: RevisionView,
    name: &ProfileName,
    row: RevisionRow,
) -> Result<Reply, Fault>
    requires idle { IsIdle (state S.Store conn.old) }
    requires is_open { HasCleanDisk (state S.Store conn.old)
        → IsTrue (state S.Store conn.old).is_open }
    ensures { IsRead (state S.Store conn.old) (state S.Store conn.new) result
        (LooksBack (λ h. seen_of h name.now view row)) }
{
    match view {
        RevisionView::Show => {
            let digest = row.digest;
            Ok(Reply::Shown {
                digest,
                document: row.body,
                state: row.state,
            })
        }
        RevisionView::Sheet => {
            let sheet = sheet_now(alloc, conn, name, &row)?;
            Ok(Reply::Sheet { sheet })
        }
    }
}

// The answer to a request that every rule lets through.
fn reply_to<S: Alter>(
    alloc: Global,
    conn: &mut Connection<S>,
    ask: &Ask,
    looked: Looked,
) -> Result<Reply, Fault>
    requires view { IsView ask.now }
    requires passed { (caller : User) × (first_by caller ask.now looked ≡ Ok tt) }
    requires idle { IsIdle (state S.Store conn.old) }
    requires is_open { HasCleanDisk (state S.Store conn.old)
        → IsTrue (state S.Store conn.old).is_open }
    ensures { IsRead (state S.Store conn.old) (state S.Store conn.new) result
        (Answers ask.now looked) }
{
    let Looked {
        revision,
        issued,
        brief,
        ..
    } = looked;
    match ask {
        Ask::SeeRevision { view, name, .. } => {
            let Some(Some(row)) = revision else {
                unreachable!()
            };
            see(alloc, conn, *view, name, row)
        }
        Ask::SeeProfile { view, .. } => match view {
            ProfileView::Fetch => {
                let Some(Some(row)) = issued else {
                    unreachable!()
                };
                let digest = row.digest;
                Ok(Reply::Fetched {
                    digest,
                    document: row.body,
                    revision: row.number,
                })
            }
            ProfileView::Issued => {
                let Some(Some(brief)) = brief else {
                    unreachable!()
                };
                let digest = brief.digest;
                Ok(Reply::IssuedNow {
                    digest,
                    revision: brief.number,
                })
            }
        },
        Ask::List { team } => {
            let profiles = profiles_of(alloc, conn, team)?;
            Ok(Reply::Listed { profiles })
        }
        Ask::Revisions { name, before } => newest(alloc, conn, name, *before),
        _ => unreachable!(),
    }
}

// Judges what only reads.
pub(crate) fn judge_read<S: Alter>(
    alloc: Global,
    conn: &mut Connection<S>,
    caller: &UserRow,
    ask: &Ask,
) -> Result<Reply, Refusal>
    requires view { IsView ask.now }
    requires idle { IsIdle (state S.Store conn.old) }
    requires is_open { HasCleanDisk (state S.Store conn.old)
        → IsTrue (state S.Store conn.old).is_open }
    ensures { JudgesRead (state S.Store conn.old) (state S.Store conn.new) result
        caller.now ask.now }
{
    let looked = let_through(alloc, conn, caller, ask)?;
    let reply = reply_to(alloc, conn, ask, looked)?;
    Ok(reply)
}
