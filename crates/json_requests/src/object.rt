//! Objects with just the members that they should have.

ghost use Rattle.std.specs.Prelude.{◌≡◌, Ok, Err, if◌then◌else◌, map};
ghost use Rattle.std.specs.List.{list_any};
ghost use Rattle.std.specs.Str.{bytes_eq};
ghost use Rattle.json_tree.specs.View.{view, members_view};
ghost use Rattle.json_requests.specs.Objects.{all_belong, has_no_other};
ghost use Rattle.json_requests.specs.declared.fault.LineFault.TheVariants.{NotARequest};

use crate::fault::LineFault;
use json_tree::Tree;

// Whether a name is one of these.
fn is_among(name: &str, names: &[&str]) -> bool
    ensures { result ≡ list_any (λ known. bytes_eq name.now known.now) names.now }
{
    names.iter().any(|known| name == *known)
}

// Whether each member has one of these names.
fn all_belong(names: &[&str], members: &[(&str, Tree<'_>)]) -> bool
    ensures { result ≡ all_belong (map (λ known. known.now) names.now) (members_view members.now) }
{
    for (name, _value) in members {
        if !is_among(name, names) {
            return false;
        }
    }
    true
}

/// Goes on where it is an object with no member but these.
pub(crate) fn only(names: &[&str], value: &Tree<'_>) -> Result<(), LineFault>
    ensures { result ≡ (if has_no_other (map (λ known. known.now) names.now) (view value.now)
        then Ok tt else Err NotARequest) }
{
    match value.as_object() {
        Some(members) if all_belong(names, members) => Ok(()),
        _ => Err(LineFault::NotARequest),
    }
}
