//! The profiles of a team, from one to the next: of each a few entries of indexes are read, and of
//! its revisions the last one at most.

ghost use Rattle.std.specs.Prelude.{◌≡◌, ◌≤◌, ℕ, List, IfSome};
ghost use Rattle.sqlite.specs.Held.{state};
ghost use Rattle.office_words.specs.declared.name.ProfileName.{ProfileName as Name};
ghost use Rattle.office_words.specs.Lists.{IsListed, profile_of};
ghost use Rattle.office_store.specs.Calls.{IsRead};
ghost use Rattle.office_store.specs.Shown.{IsIdle};
ghost use Rattle.office_policy.specs.History.{History};
ghost use Rattle.office_policy.specs.Listing.{listed_profile, listing_of};
ghost use Rattle.office_policy.specs.LooksBack.{LooksBack};
ghost use Rattle.office_policy.specs.Revisions.{revision_count, issued_revision, number_of};
ghost use Rattle.office_policy.specs.TablesOf.{tables_of};
ghost use Rattle.office_judging.specs.Listed.{IsOneOf, IsLastOf, StandsWhere, IsStep, issued_if};
ghost use Rattle.office_judging.specs.Listed.{standing_of};

use office_store::{first_listed, issued_number, last_numbered, next_listed};
use office_words::{Fault, ListedRevision, ProfileName, State, Word};
use review_policy::{ListedProfile, Listing};
use sqlite::{Alter, Connection};
use std::alloc::Global;

/// How a profile stands: the number of its last revision and its state, and the number that is
/// issued, or 0.
#[derive(Clone, Copy)]
pub(crate) struct Standing {
    pub(crate) last: u32,
    pub(crate) issued: u32,
    pub(crate) state: State,
}

// Of a profile without a revision, which no list has.
const NO_REVISION: Standing = Standing {
    last: 0,
    issued: 0,
    state: State::Open,
};

// The number of the revision of a profile that is issued, or 0.
fn issue<S: Alter>(conn: &mut Connection<S>, name: &ProfileName) -> Result<u32, Fault>
    requires { IsIdle (state S.Store conn.old) }
    ensures { IsRead (state S.Store conn.old) (state S.Store conn.new) result
        (LooksBack (λ h. number_of (issued_revision h name.now))) }
{
    match issued_number(conn, name)? {
        Some(number) => Ok(number),
        None => Ok(0),
    }
}

// How a profile stands whose first revision is open: it has no other.
fn known_at_once(number: u32, in_state: State) -> Option<Standing>
    ensures { (h : History) (p : Name) → IsOneOf h p number in_state
        → IfSome result (λ standing. standing ≡ standing_of h p) }
{
    if number == 1 && in_state == State::Open {
        return Some(Standing {
            last: 1,
            issued: 0,
            state: in_state,
        });
    }
    None
}

// The number of a revision where it is issued, or 0.
fn issued_if(number: u32, in_state: State) -> u32
    ensures { result ≡ issued_if number in_state }
{
    match in_state {
        State::Issued => number,
        _ => 0,
    }
}

// How a profile stands of which this is the last revision, where that says it: it is the issued
// one, or the only one.
fn known(last: u32, in_state: State) -> Option<Standing>
    ensures { (h : History) (p : Name) → IsLastOf h p last in_state
        → IfSome result (λ standing. standing ≡ standing_of h p) }
{
    let issued = issued_if(last, in_state);
    let standing = Standing {
        last,
        issued,
        state: in_state,
    };
    if last == 1 {
        return Some(standing);
    }
    if issued == last {
        return Some(standing);
    }
    None
}

// How a profile stands of which this is the last revision.
fn with_last<S: Alter>(
    conn: &mut Connection<S>,
    name: &ProfileName,
    last: u32,
    in_state: State,
) -> Result<Standing, Fault>
    requires { IsIdle (state S.Store conn.old) }
    ensures { IsRead (state S.Store conn.old) (state S.Store conn.new) result
        (StandsWhere (λ h. IsLastOf h name.now last in_state) name.now) }
{
    let issued = issue(conn, name)?;
    Ok(Standing {
        last,
        issued,
        state: in_state,
    })
}

// How a profile stands that has a revision, by its last one.
fn without_open<S: Alter>(conn: &mut Connection<S>, name: &ProfileName) -> Result<Standing, Fault>
    requires { IsIdle (state S.Store conn.old) }
    ensures { IsRead (state S.Store conn.old) (state S.Store conn.new) result
        (StandsWhere (λ h. 1 ≤ revision_count h name.now) name.now) }
{
    let Some(last) = last_numbered(conn, name)? else {
        return Ok(NO_REVISION);
    };
    match known(last.number, last.state) {
        Some(standing) => Ok(standing),
        None => with_last(conn, name, last.number, last.state),
    }
}

// How a profile stands of which a revision is known. The open one is the last.
fn stands<S: Alter>(
    conn: &mut Connection<S>,
    name: &ProfileName,
    number: u32,
    in_state: State,
) -> Result<Standing, Fault>
    requires { IsIdle (state S.Store conn.old) }
    ensures { IsRead (state S.Store conn.old) (state S.Store conn.new) result
        (StandsWhere (λ h. IsOneOf h name.now number in_state) name.now) }
{
    match in_state {
        State::Open => with_last(conn, name, number, in_state),
        _ => without_open(conn, name),
    }
}

// How the profile of a team stands of which a revision is known.
fn standing_in<S: Alter>(
    conn: &mut Connection<S>,
    team: &Word,
    first: &ListedRevision,
) -> Result<Standing, Fault>
    requires { IsIdle (state S.Store conn.old) }
    ensures { IsRead (state S.Store conn.old) (state S.Store conn.new) result
        (StandsWhere (λ h. IsListed (tables_of h) team.now first.now)
        (profile_of team.now first.now.profile)) }
{
    let name = ProfileName {
        team: team.clone()?,
        profile: first.profile.clone()?,
    };
    stands(conn, &name, first.number, first.state)
}

// What is listed of a profile, as it stands.
fn listed_as(name: Word, standing: Standing) -> ListedProfile
    ensures { (h : History) (team : List ℕ) → standing ≡ standing_of h (profile_of team name)
        → result ≡ listed_profile h (profile_of team name) }
{
    ListedProfile {
        profile: name,
        issued: standing.issued,
        revisions: standing.last,
        state: standing.state,
    }
}

// What is listed of the profile of a revision, and a revision of the next profile.
fn listed<S: Alter>(
    alloc: Global,
    conn: &mut Connection<S>,
    team: &Word,
    first: ListedRevision,
) -> Result<(ListedProfile, Option<ListedRevision>), Fault>
    requires { IsIdle (state S.Store conn.old) }
    ensures { IsRead (state S.Store conn.old) (state S.Store conn.new) result
        (IsStep team.now first) }
{
    let next = next_listed(alloc, conn, team, &first.profile)?;
    match known_at_once(first.number, first.state) {
        Some(standing) => Ok((listed_as(first.profile, standing), next)),
        None => {
            let standing = standing_in(conn, team, &first)?;
            Ok((listed_as(first.profile, standing), next))
        }
    }
}

/// The profiles of a team, by name.
pub(crate) fn profiles_of<S: Alter>(
    alloc: Global,
    conn: &mut Connection<S>,
    team: &Word,
) -> Result<Listing, Fault>
    requires { IsIdle (state S.Store conn.old) }
    ensures { IsRead (state S.Store conn.old) (state S.Store conn.new) result
        (LooksBack (λ h. listing_of h team.now)) }
{
    let mut profiles = Vec::new(alloc);
    let mut next = first_listed(alloc, conn, team)?;
    for _ in 0..u64::MAX {
        let Some(first) = next else {
            return Ok(Listing::new(profiles));
        };
        let (profile, later) = listed(alloc, conn, team, first)?;
        profiles
            .push(profile)
            .map_err(|refused| Fault::NoMemory(refused.into()))?;
        next = later;
    }
    unreachable!()
}
