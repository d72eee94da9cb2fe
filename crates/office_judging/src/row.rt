//! The rows of rules: of each request behind the first, which asks for a known caller of every
//! request, in the order in which they are asked.

ghost use Rattle.std.specs.Prelude.{◌≡◌, ◌≤◌, length};
ghost use Rattle.office_judging.specs.Rows.{rules_of};

use review_policy::{Ask, ProfileAct, RevisionAct, Rule};

const VOTE: [Rule; 5] = [
    Rule::RoleMissing,
    Rule::NoRevision,
    Rule::AuthorVotes,
    Rule::NotOpen,
    Rule::OtherBytes,
];

const WITHDRAW: [Rule; 4] = [
    Rule::RoleMissing,
    Rule::OtherTeam,
    Rule::NoRevision,
    Rule::NotStanding,
];

const ADOPT: [Rule; 4] = [
    Rule::RoleMissing,
    Rule::NoRevision,
    Rule::AuthorAdopts,
    Rule::NotIssued,
];

const SEE_REVISION: [Rule; 3] = [Rule::RoleMissing, Rule::OtherTeam, Rule::NoRevision];

const LIST: [Rule; 2] = [Rule::RoleMissing, Rule::OtherTeam];

const HOLD: [Rule; 3] = [Rule::RoleMissing, Rule::NoProfile, Rule::AlreadyHeld];

const RELEASE: [Rule; 3] = [Rule::RoleMissing, Rule::NoProfile, Rule::NotHeld];

const SEE_PROFILE: [Rule; 4] = [
    Rule::RoleMissing,
    Rule::OtherTeam,
    Rule::NothingIssued,
    Rule::Held,
];

const REVISIONS: [Rule; 3] = [Rule::RoleMissing, Rule::OtherTeam, Rule::NoProfile];

// The row of what is asked.
pub(crate) fn rules_of(ask: &Ask) -> &'static [Rule]
    ensures row { result.now ≡ rules_of ask.now }
    ensures few { length result.now ≤ 253 }
{
    match ask {
        Ask::Vote { .. } => &VOTE,
        Ask::ActOnRevision { act, .. } => match act {
            RevisionAct::Issue => &[],
            RevisionAct::Withdraw => &WITHDRAW,
            RevisionAct::Adopt => &ADOPT,
        },
        Ask::SeeRevision { .. } => &SEE_REVISION,
        Ask::List { .. } => &LIST,
        Ask::ActOnProfile { act, .. } => match act {
            ProfileAct::Hold => &HOLD,
            ProfileAct::Release => &RELEASE,
        },
        Ask::SeeProfile { .. } => &SEE_PROFILE,
        Ask::Revisions { .. } => &REVISIONS,
        _ => &[],
    }
}
