//! Whether the tables show an event.

ghost use Rattle.std.specs.Prelude.{◌≡◌, ◌↔◌, true, Some, option_map};
ghost use Rattle.sqlite.specs.Held.{state};
ghost use Rattle.office_words.specs.declared.role.Role.TheVariants as roles;
ghost use Rattle.office_words.specs.Lists.{holds_role};
ghost use Rattle.office_store.specs.Adopted.{baseline_of};
ghost use Rattle.office_store.specs.Ballots.{vote_of};
ghost use Rattle.office_store.specs.Connections.{Reads};
ghost use Rattle.office_store.specs.Shown.{IsIdle};
ghost use Rattle.office_policy.specs.Happened.{event_meant};
ghost use Rattle.office_policy.specs.History.{did, founded};
ghost use Rattle.office_policy.specs.Revisions.{state_in};
ghost use Rattle.office_policy.specs.ShowsEvent.{HasUser, LastIsOpen, Shows, ShowsEffect};
ghost use Rattle.office_policy.specs.Users.{registrar_alone};
ghost use Rattle.office_judging.specs.Summarized.{as_asked};
ghost use Rattle.review_office.specs.Looking.{IsOpenBy};

use cap_sets::Caps;
use office_founding::listed;
use office_judging::state_of;
use office_policy::{Deed, Event};
use office_store::{
    Adopted, Ballot, Summary, ballot_of, baseline, is_held, last, summary_at, user_by_name,
};
use office_words::{Fault, ProfileName, RevisionRow, Role, Roles, State, Text, UserRow, Word};
use review_policy::Effect;
use sqlite::{Alter, Connection};
use std::alloc::Global;

// Whether a user was found, and has just this row.
fn is_user(
    found: &Option<UserRow>,
    user: &Word,
    team: &Word,
    roles: Roles,
    digest: &[u8; 32],
) -> bool
    ensures { result ≡ true ↔ (found.now ≡ Some (record {
      name = user.now;
      team = team.now;
      roles = roles;
      digest = digest.now;
    })) }
{
    match found {
        Some(row) => {
            row.name.is(user) && row.team.is(team) && row.roles == roles && row.digest == *digest
        }
        None => false,
    }
}

// The roles of a first user.
fn registrar_alone() -> Roles
    ensures { result ≡ registrar_alone }
{
    Roles::empty().with(Role::Registrar)
}

// Whether the first user is there, and the capabilities that were found are these.
fn is_founding(has_user: bool, found: Caps, caps: Caps) -> bool
    ensures { result ≡ true ↔ ((has_user ≡ true) × (found ≡ caps)) }
{
    has_user && found == caps
}

// Whether a revision was found that is open, by this caller and with this text.
fn is_open_by(found: &Option<RevisionRow>, caller: &Word, text: &Text) -> bool
    ensures { result ≡ true ↔ IsOpenBy found.now caller.now text.now }
{
    match found {
        Some(row) => row.state == State::Open && row.author.is(caller) && row.body.is(text),
        None => false,
    }
}

// Whether a user is there and holds the role security.
fn has_security(user: &Option<UserRow>) -> bool
    ensures { result ≡ holds_role user.now roles.Security }
{
    match user {
        Some(row) => row.roles.has(Role::Security),
        None => false,
    }
}

// Whether a vote was found that approves so, with the security of its voter's present row.
fn is_vote(found: &Option<Ballot>, voter: &Option<UserRow>, approves: bool) -> bool
    ensures { result ≡ true ↔ (option_map vote_of found.now ≡ Some (record {
      approves = approves;
      security = holds_role voter.now roles.Security;
    })) }
{
    match found {
        Some(ballot) => ballot.approves == approves && ballot.security == has_security(voter),
        None => false,
    }
}

// Whether a revision was found in this state.
fn is_in_state(found: &Option<Summary>, state: State) -> bool
    ensures { result ≡ true ↔ (state_in (as_asked found.now) ≡ Some state) }
{
    match state_of(found) {
        Some(has) => has == state,
        None => false,
    }
}

// Whether a baseline was found, and is this revision.
fn is_baseline(found: &Option<Adopted>, profile: &Word, number: u32) -> bool
    ensures { result ≡ true ↔ (option_map baseline_of found.now
        ≡ Some (record { profile = profile.now; number = number })) }
{
    match found {
        Some(adopted) => adopted.profile.is(profile) && adopted.number == number,
        None => false,
    }
}

// Whether a user has just this row.
fn shows_user<S: Alter>(
    alloc: Global,
    conn: &mut Connection<S>,
    user: &Word,
    team: &Word,
    roles: Roles,
    digest: &[u8; 32],
) -> Result<bool, Fault>
    requires { IsIdle (state S.Store conn.old) }
    ensures { Reads S.Store conn.old conn.new result (λ t shown.
        shown ≡ true ↔ HasUser t user.now team.now roles digest.now) }
{
    let found = user_by_name(alloc, conn, user)?;
    Ok(is_user(&found, user, team, roles, digest))
}

// Whether the office has this first user, and these listed capabilities.
fn shows_founding<S: Alter>(
    alloc: Global,
    conn: &mut Connection<S>,
    user: &Word,
    team: &Word,
    digest: &[u8; 32],
    caps: Caps,
) -> Result<bool, Fault>
    requires { IsIdle (state S.Store conn.old) }
    ensures { Reads S.Store conn.old conn.new result (λ t shown.
        shown ≡ true ↔ Shows t (founded user.now team.now digest.now caps)) }
{
    let has_user = shows_user(alloc, conn, user, team, registrar_alone(), digest)?;
    let found = listed(conn)?;
    Ok(is_founding(has_user, found, caps))
}

// Whether the last revision of a profile is open, by this caller and with this text.
fn shows_submission<S: Alter>(
    alloc: Global,
    conn: &mut Connection<S>,
    caller: &Word,
    name: &ProfileName,
    text: &Text,
) -> Result<bool, Fault>
    requires { IsIdle (state S.Store conn.old) }
    ensures { Reads S.Store conn.old conn.new result (λ t shown.
        shown ≡ true ↔ LastIsOpen t name.now caller.now text.now) }
{
    let found = last(alloc, conn, name)?;
    Ok(is_open_by(&found, caller, text))
}

// Whether a user has this vote on a revision, with the security of the user's present row.
fn shows_vote<S: Alter>(
    alloc: Global,
    conn: &mut Connection<S>,
    caller: &Word,
    name: &ProfileName,
    number: u32,
    approves: bool,
) -> Result<bool, Fault>
    requires { IsIdle (state S.Store conn.old) }
    ensures { Reads S.Store conn.old conn.new result (λ t shown.
        shown ≡ true ↔ (t.votes name.now number caller.now ≡ Some (record {
          approves = approves;
          security = holds_role (t.users caller.now) roles.Security;
        }))) }
{
    let found = ballot_of(conn, name, number, caller)?;
    let voter = user_by_name(alloc, conn, caller)?;
    Ok(is_vote(&found, &voter, approves))
}

// Whether a revision is in this state.
fn shows_state<S: Alter>(
    conn: &mut Connection<S>,
    name: &ProfileName,
    number: u32,
    in_state: State,
) -> Result<bool, Fault>
    requires { IsIdle (state S.Store conn.old) }
    ensures { Reads S.Store conn.old conn.new result (λ t shown.
        shown ≡ true ↔ (state_in (t.revisions name.now number) ≡ Some in_state)) }
{
    let found = summary_at(conn, name, number)?;
    Ok(is_in_state(&found, in_state))
}

// Whether a revision is the baseline of its team.
fn shows_baseline<S: Alter>(
    alloc: Global,
    conn: &mut Connection<S>,
    name: &ProfileName,
    number: u32,
) -> Result<bool, Fault>
    requires { IsIdle (state S.Store conn.old) }
    ensures { Reads S.Store conn.old conn.new result (λ t shown.
        shown ≡ true ↔ (t.baselines name.now.team
        ≡ Some (record { profile = name.now.profile; number = number }))) }
{
    let found = baseline(alloc, conn, &name.team)?;
    Ok(is_baseline(&found, &name.profile, number))
}

// Whether a profile is held, or not, as is asked.
fn shows_hold<S: Alter>(
    conn: &mut Connection<S>,
    name: &ProfileName,
    asked: bool,
) -> Result<bool, Fault>
    requires { IsIdle (state S.Store conn.old) }
    ensures { Reads S.Store conn.old conn.new result (λ t shown.
        shown ≡ true ↔ (t.holds name.now ≡ asked)) }
{
    Ok(is_held(conn, name)? == asked)
}

// Whether the tables show the effect of an act on a revision.
fn shows_effect<S: Alter>(
    alloc: Global,
    conn: &mut Connection<S>,
    effect: Effect,
    name: &ProfileName,
    number: u32,
) -> Result<bool, Fault>
    requires { IsIdle (state S.Store conn.old) }
    ensures { Reads S.Store conn.old conn.new result (λ t shown.
        shown ≡ true ↔ ShowsEffect t effect name.now number) }
{
    match effect {
        Effect::Issues => shows_state(conn, name, number, State::Issued),
        Effect::Withdraws => shows_state(conn, name, number, State::Withdrawn),
        Effect::Adopts => shows_baseline(alloc, conn, name, number),
    }
}

// Whether the tables show what a user did.
fn shows_deed<S: Alter>(
    alloc: Global,
    conn: &mut Connection<S>,
    caller: &Word,
    deed: &Deed,
) -> Result<bool, Fault>
    requires { IsIdle (state S.Store conn.old) }
    ensures { Reads S.Store conn.old conn.new result (λ t shown.
        shown ≡ true ↔ Shows t (did caller.now deed.now)) }
{
    match deed {
        Deed::Enrol {
            user,
            team,
            roles,
            digest,
        } => shows_user(alloc, conn, user, team, *roles, digest),
        Deed::Submit { name, text } => shows_submission(alloc, conn, caller, name, text),
        Deed::Vote {
            name,
            revision,
            approves,
            ..
        } => shows_vote(alloc, conn, caller, name, *revision, *approves),
        Deed::ActOnRevision {
            act,
            name,
            revision,
        } => shows_effect(alloc, conn, act.effect(), name, *revision),
        Deed::ActOnProfile { act, name } => shows_hold(conn, name, act.holds()),
    }
}

// Whether the tables show an event.
pub(crate) fn shows<S: Alter>(
    alloc: Global,
    conn: &mut Connection<S>,
    event: &Event,
) -> Result<bool, Fault>
    requires { IsIdle (state S.Store conn.old) }
    ensures { Reads S.Store conn.old conn.new result (λ t shown.
        shown ≡ true ↔ Shows t (event_meant event.now)) }
{
    match event {
        Event::Founded {
            user,
            team,
            digest,
            listed,
        } => shows_founding(alloc, conn, user, team, digest, *listed),
        Event::Did { caller, deed } => shows_deed(alloc, conn, caller, deed),
    }
}
