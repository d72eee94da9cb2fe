//! The revisions of a profile, as they are told.

ghost use Rattle.std.specs.Prelude.{◌≡◌, take, length, nat_lt};
ghost use Rattle.sqlite.specs.Held.{state};
ghost use Rattle.office_words.specs.Limits.{max_listed};
ghost use Rattle.review_policy.specs.declared.answer.Reply.TheVariants.{Revisions};
ghost use Rattle.office_store.specs.Shown.{IsIdle};
ghost use Rattle.office_store.specs.Calls.{IsRead};
ghost use Rattle.office_policy.specs.LooksBack.{LooksBack};
ghost use Rattle.office_policy.specs.Newest.{newest_told, revisions_before};

use office_store::newest_below;
use office_words::{Fault, MAX_LISTED, MAX_REVISIONS, ProfileName, ProfileRevision};
use review_policy::{Reply, RevisionList};
use sqlite::{Alter, Connection};
use std::alloc::Global;

// The first of these, as many as one list has, and whether there are more.
fn page(mut found: Vec<ProfileRevision>) -> Reply
    ensures { result ≡ Revisions (take max_listed found.items)
        (nat_lt max_listed (length found.items)) }
{
    let more = found.len() > MAX_LISTED;
    found.truncate(MAX_LISTED);
    Reply::Revisions {
        revisions: RevisionList::new(found),
        more,
    }
}

// The newest revisions of a profile: of all, or of those before a number.
pub(crate) fn newest<S: Alter>(
    alloc: Global,
    conn: &mut Connection<S>,
    name: &ProfileName,
    before: Option<u32>,
) -> Result<Reply, Fault>
    requires { IsIdle (state S.Store conn.old) }
    ensures { IsRead (state S.Store conn.old) (state S.Store conn.new) result
        (LooksBack (λ h. newest_told (revisions_before h name.now before))) }
{
    let found = newest_below(alloc, conn, name, before.unwrap_or(MAX_REVISIONS + 1))?;
    Ok(page(found))
}
