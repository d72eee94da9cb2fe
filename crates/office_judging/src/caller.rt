//! What the rules ask of the user who calls, and what that one is told.

ghost use Rattle.std.specs.Prelude.{◌≡◌, Some, ◌||◌};
ghost use Rattle.review_policy.specs.declared.answer.Reply.TheVariants.{Me};
ghost use Rattle.office_policy.specs.Facts.{sees_every_team};

use office_words::{Role, UserRow};
use review_policy::Reply;

// Whether the user holds a role of those who see the revisions of every team.
pub(crate) fn sees_every_team(user: &UserRow) -> bool
    ensures { result ≡ sees_every_team (Some user.now) }
{
    user.roles.has(Role::Reviewer) || user.roles.has(Role::Security) || user.roles.has(Role::Issuer)
}

// Tells the user who that is.
pub(crate) fn me(user: UserRow) -> Reply
    ensures { result ≡ Me user.name user.team user.roles }
{
    let roles = user.roles;
    Reply::Me {
        user: user.name,
        team: user.team,
        roles,
    }
}
