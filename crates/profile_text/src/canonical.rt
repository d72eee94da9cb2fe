//! The canonical text of a profile.

ghost use Rattle.std.specs.Prelude.{◌≡◌, IfOk, OnOk, Some, codes, string_bytes};
ghost use Rattle.profile_text.specs.Text.{caps_data, profile_data, seccomp_data, set_data, text_of};
ghost use Rattle.json_tree.specs.Tokens.{Appends, member_tokens, tokens_of};

use crate::filter_text::write_filter;
use crate::profile::Profile;
use cap_sets::{CapState, Caps};
use json_tree::{Writer, written_text};
use seccomp_doc::Filter;
use std::alloc::{AllocError, Global};

/// Writes a member with this name, whose value is the list of the set's names, by rising number.
///
/// # Errors
///
/// Memory was refused. No contract can say when.
pub fn write_set(out: &mut Writer, set: &str, caps: Caps) -> Result<(), AllocError>
    ensures { OnOk result (Appends out.old out.new (member_tokens set.now (Some (set_data caps)))) }
{
    out.key(set)?;
    out.begin_array()?;
    for name in caps.names() {
        out.plain_string(name)?;
    }
    out.end_array()
}

// The five sets.
fn write_caps(out: &mut Writer, caps: &CapState) -> Result<(), AllocError>
    ensures { OnOk result (Appends out.old out.new (tokens_of (caps_data caps.now))) }
{
    out.begin_object()?;
    write_set(out, "ambient", caps.ambient)?;
    write_set(out, "bounding", caps.bounding)?;
    write_set(out, "effective", caps.effective)?;
    write_set(out, "inheritable", caps.inheritable)?;
    write_set(out, "permitted", caps.permitted)?;
    out.end_object()
}

// The filter, where there is one.
fn write_seccomp(out: &mut Writer, filter: &Option<Filter>) -> Result<(), AllocError>
    ensures { OnOk result (Appends out.old out.new
        (member_tokens (codes "seccomp") (seccomp_data filter.now))) }
{
    match filter {
        Some(filter) => {
            out.plain_key("seccomp")?;
            write_filter(out, filter)
        }
        None => Ok(()),
    }
}

// The whole profile.
fn write_profile(out: &mut Writer, profile: &Profile) -> Result<(), AllocError>
    ensures { OnOk result (Appends out.old out.new (tokens_of (profile_data profile.now))) }
{
    out.begin_object()?;
    out.plain_key("capabilities")?;
    write_caps(out, &profile.caps)?;
    write_seccomp(out, &profile.filter)?;
    out.end_object()
}

// How many bytes a text has room for before it grows.
const FIRST_ROOM: usize = 8192;

/// The canonical text of a profile: compact JSON, with the members of each object in byte order of
/// their names. All five capability sets are written, by rising number; a filter is written where
/// there is one, without its empty lists.
pub fn print(alloc: Global, profile: &Profile) -> Result<String, AllocError>
    ensures { IfOk result (λ text. string_bytes text ≡ text_of profile.now) }
{
    let mut out = Writer::with_capacity(alloc, FIRST_ROOM)?;
    write_profile(&mut out, profile)?;
    Ok(written_text(out))
}
