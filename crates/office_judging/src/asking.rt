//! What a request asks about, and what it asks of its caller.

ghost use Rattle.std.specs.Prelude.{◌≡◌, IsTrue};
ghost use Rattle.office_judging.specs.Asking.{names_profile, profile_in, number_in};
ghost use Rattle.office_judging.specs.Asking.{role_missing, other_team};

use crate::caller::sees_every_team;
use office_words::{ProfileName, Role, UserRow};
use review_policy::{Ask, RevisionAct};

// The profile that is asked about.
pub(crate) fn profile_in(ask: &Ask) -> &ProfileName
    requires { IsTrue (names_profile ask.now) }
    ensures { result.now ≡ profile_in ask.now }
{
    match ask {
        Ask::Submit { name, .. }
        | Ask::Vote { name, .. }
        | Ask::ActOnRevision { name, .. }
        | Ask::SeeRevision { name, .. }
        | Ask::ActOnProfile { name, .. }
        | Ask::SeeProfile { name, .. }
        | Ask::Revisions { name, .. } => name,
        _ => unreachable!(),
    }
}

// The number of the revision that is asked about, or 0.
pub(crate) fn number_in(ask: &Ask) -> u32
    ensures { result ≡ number_in ask.now }
{
    match ask {
        Ask::Vote { revision, .. }
        | Ask::ActOnRevision { revision, .. }
        | Ask::SeeRevision { revision, .. } => *revision,
        _ => 0,
    }
}

// Whether the caller holds none of the roles that may ask this.
pub(crate) fn role_missing(caller: &UserRow, ask: &Ask) -> bool
    ensures { result ≡ role_missing caller.now ask.now }
{
    let roles = caller.roles;
    match ask {
        Ask::Enrol { .. } => !roles.has(Role::Registrar),
        Ask::Submit { .. } => !roles.has(Role::Author),
        Ask::Vote { .. } => !roles.has(Role::Reviewer),
        Ask::ActOnRevision { act, .. } => match act {
            RevisionAct::Issue => !roles.has(Role::Issuer),
            RevisionAct::Withdraw => !(roles.has(Role::Author) || roles.has(Role::Security)),
            RevisionAct::Adopt => !roles.has(Role::Security),
        },
        Ask::SeeRevision { .. } | Ask::List { .. } | Ask::Revisions { .. } => {
            !(roles.has(Role::Author) || sees_every_team(caller))
        }
        Ask::ActOnProfile { .. } => !roles.has(Role::Security),
        Ask::SeeProfile { .. } => !roles.has(Role::Machine),
        Ask::Me => false,
    }
}

// Whether the team isn't the caller's, and no role of the caller passes over that.
pub(crate) fn other_team(caller: &UserRow, ask: &Ask) -> bool
    ensures { result ≡ other_team caller.now ask.now }
{
    match ask {
        Ask::ActOnRevision { name, .. } => {
            !(caller.team.is(&name.team) || caller.roles.has(Role::Security))
        }
        Ask::SeeRevision { name, .. } | Ask::Revisions { name, .. } => {
            !(caller.team.is(&name.team) || sees_every_team(caller))
        }
        Ask::List { team } => !(caller.team.is(team) || sees_every_team(caller)),
        Ask::Submit { name, .. } | Ask::SeeProfile { name, .. } => !caller.team.is(&name.team),
        _ => false,
    }
}
