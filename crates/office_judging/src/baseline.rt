//! What the revisions of a team are compared with.

ghost use Rattle.std.specs.Prelude.{◌≡◌, IfOk, option_map};
ghost use Rattle.sqlite.specs.Held.{state};
ghost use Rattle.office_store.specs.Shown.{IsIdle};
ghost use Rattle.office_store.specs.Connections.{Reads};
ghost use Rattle.office_policy.specs.Baseline.{adopted_revision, document_or_closed};
ghost use Rattle.office_policy.specs.Baseline.{unless_withdrawn};
ghost use Rattle.office_policy.specs.LooksBack.{LooksBack};
ghost use Rattle.office_judging.specs.Compared.{compared_at, need_of};

use crate::need::{document, need_against};
use cap_sets::Caps;
use office_founding::listed;
use office_store::{baseline, revision};
use office_words::{Fault, ProfileName, RevisionRow, State, Text, Word};
use profile_text::Profile;
use review_policy::Need;
use sqlite::{Alter, Connection};
use std::alloc::{AllocError, Global};

// What the revisions of a team are compared with: the listed capabilities, and the revision that
// the team last adopted, by the name of its profile, where that isn't withdrawn.
#[derive(Drop)]
pub(crate) struct Comparison {
    pub(crate) listed: Caps,
    pub(crate) adopted: Option<(Word, RevisionRow)>,
}

// A revision with the name of its profile, where it is there and not withdrawn.
fn standing(name: ProfileName, found: Option<RevisionRow>) -> Option<(Word, RevisionRow)>
    ensures { result ≡ option_map (λ row. (name.profile, row)) (unless_withdrawn found) }
{
    match found {
        Some(row) => match row.state {
            State::Withdrawn => None,
            _ => Some((name.profile, row)),
        },
        None => None,
    }
}

// The revision that a team last adopted, where it isn't withdrawn.
fn adopted_revision<S: Alter>(
    alloc: Global,
    conn: &mut Connection<S>,
    team: &Word,
) -> Result<Option<(Word, RevisionRow)>, Fault>
    requires { IsIdle (state S.Store conn.old) }
    ensures { Reads S.Store conn.old conn.new result
        (LooksBack (λ h. adopted_revision h team.now)) }
{
    let Some(adopted) = baseline(alloc, conn, team)? else {
        return Ok(None);
    };
    let name = ProfileName {
        team: team.clone()?,
        profile: adopted.profile,
    };
    let found = revision(alloc, conn, &name, adopted.number)?;
    Ok(standing(name, found))
}

// What the revisions of a team are compared with.
pub(crate) fn compared_with<S: Alter>(
    alloc: Global,
    conn: &mut Connection<S>,
    team: &Word,
) -> Result<Comparison, Fault>
    requires { IsIdle (state S.Store conn.old) }
    ensures { Reads S.Store conn.old conn.new result (LooksBack (λ h. compared_at h team.now)) }
{
    let listed = listed(conn)?;
    let adopted = adopted_revision(alloc, conn, team)?;
    Ok(Comparison { listed, adopted })
}

// The document that a team adopted, or the closed profile.
pub(crate) fn base(alloc: Global, compared: &Comparison) -> Result<Profile, AllocError>
    ensures { IfOk result (λ profile. profile ≡ document_or_closed compared.now.adopted) }
{
    match &compared.adopted {
        Some((_, row)) => document(alloc, &row.body),
        None => Ok(Profile::closed(alloc)),
    }
}

// How many approvals a text needs.
pub(crate) fn need_of(alloc: Global, compared: &Comparison, body: &Text) -> Result<Need, AllocError>
    ensures { IfOk result (λ need. need ≡ need_of compared.now body.now) }
{
    let base = base(alloc, compared)?;
    let shown = document(alloc, body)?;
    need_against(alloc, compared.listed, &base, &shown)
}
