//! Roles as JSON, written a token at a time.

ghost use Rattle.std.specs.Prelude.{◌∷◌, [], OnOk, codes, flat_map, map};
ghost use Rattle.serde_json.specs.Data.{array, member, no_members, string};
ghost use Rattle.serde_json.specs.View.{items_of};
ghost use Rattle.json_tree.specs.Tokens.{Appends, open_tokens, tokens_of};
ghost use Rattle.office_words.specs.WordTables.{words_among};
ghost use Rattle.json_requests.specs.Answers.{roles_data};

use json_tree::Writer;
use office_words::{Role, Roles};
use std::alloc::AllocError;

// The word of a role, where it is one of these.
fn write_role(out: &mut Writer, roles: Roles, role: Role) -> Result<(), AllocError>
    ensures { OnOk result (Appends out.old out.new
        (flat_map (λ word. tokens_of (string word)) (words_among roles (role ∷ [])))) }
{
    if roles.has(role) {
        out.string(role.word())
    } else {
        Ok(())
    }
}

// The words of those of these roles that are in the set.
fn write_among(out: &mut Writer, roles: Roles, among: &[Role]) -> Result<(), AllocError>
    ensures { OnOk result (Appends out.old out.new
        (tokens_of (array (items_of (map string (words_among roles among.now)))))) }
{
    out.begin_array()?;
    for role in among {
        write_role(out, roles, *role)?;
    }
    out.end_array()
}

/// The roles of a set, by their words.
///
/// # Errors
///
/// Memory was refused. No contract can say when.
pub fn write_roles(out: &mut Writer, roles: Roles) -> Result<(), AllocError>
    ensures { OnOk result (Appends out.old out.new
        (open_tokens (member (codes "roles") (roles_data roles) no_members))) }
{
    out.key("roles")?;
    write_among(out, roles, Role::ALL.as_slice())
}
