//! Whether members stand in a line, each of its form, and no others.

ghost use Rattle.std.specs.Prelude.{◌≡◌, ◌||◌, ◌∷◌, IfOk, codes, is_some, map};
ghost use Rattle.std.specs.List.{list_any};
ghost use Rattle.std.specs.Str.{bytes_eq};
ghost use Rattle.json_tree.specs.View.{members_view, view};
ghost use Rattle.desk_lines.specs.Flaws.{first_unformed, is_formed, member_word};
ghost use Rattle.desk_lines.specs.Reads.{TellsRead};
ghost use Rattle.json_requests.specs.Objects.{all_belong, has_no_other};

use crate::flaw::Member;
use json_requests::LineFault;
use json_requests::member::{
    before_of, digest_of, revision_of, roles_of, text_of, token_of, vote_of, word_of,
};
use json_tree::Tree;
use no_memory::NoMemory;
use std::alloc::Global;

// Whether a part of a line was read; or there was no memory to read it.
fn is_read<T: Drop>(part: Result<T, LineFault>) -> Result<bool, NoMemory>
    ensures { TellsRead part result }
{
    match part {
        Ok(_) => Ok(true),
        Err(LineFault::NoMemory(witness)) => Err(witness),
        Err(_) => Ok(false),
    }
}

// Whether a member stands in a line, of its form.
fn is_formed(alloc: Global, value: &Tree<'_>, part: Member) -> Result<bool, NoMemory>
    ensures { IfOk result (λ formed. formed ≡ is_formed (view value.now) part) }
{
    match part {
        Member::Token => is_read(token_of(alloc, value)),
        Member::User => is_read(word_of(alloc, value, "user")),
        Member::Team => is_read(word_of(alloc, value, "team")),
        Member::Roles => is_read(roles_of(value)),
        Member::Digest => is_read(digest_of(value)),
        Member::Profile => is_read(word_of(alloc, value, "profile")),
        Member::Document => Ok(text_of(value, "document").is_some()),
        Member::Revision => is_read(revision_of(value)),
        Member::Vote => is_read(vote_of(value)),
        Member::Before => is_read(before_of(value)),
    }
}

/// The first of some members that doesn't stand in a line of its form.
pub(crate) fn first_unformed(
    alloc: Global,
    value: &Tree<'_>,
    parts: &[Member],
) -> Result<Option<Member>, NoMemory>
    ensures { IfOk result (λ first. first ≡ first_unformed (view value.now) parts.now) }
{
    for part in parts {
        let formed = is_formed(alloc, value, *part)?;
        if !formed {
            return Ok(Some(*part));
        }
    }
    Ok(None)
}

// Whether a name is that of one of these.
fn is_among(name: &str, parts: &[Member]) -> bool
    ensures { result ≡ list_any (λ part. bytes_eq name.now (member_word part)) parts.now }
{
    parts.iter().any(|part| name == part.word())
}

// Whether a name is `ask`, or that of one of these.
fn may_stand(name: &str, parts: &[Member]) -> bool
    ensures { result ≡ (bytes_eq name.now (codes "ask")
        || list_any (λ part. bytes_eq name.now (member_word part)) parts.now) }
{
    name == "ask" || is_among(name, parts)
}

// Whether each member has such a name.
fn all_belong(parts: &[Member], members: &[(&str, Tree<'_>)]) -> bool
    ensures { result
        ≡ all_belong (codes "ask" ∷ map member_word parts.now) (members_view members.now) }
{
    for (name, _value) in members {
        if !may_stand(name, parts) {
            return false;
        }
    }
    true
}

/// Whether it is an object with no member but `ask` and these.
pub(crate) fn has_no_other(parts: &[Member], value: &Tree<'_>) -> bool
    ensures { result ≡ has_no_other (codes "ask" ∷ map member_word parts.now) (view value.now) }
{
    match value.as_object() {
        Some(members) => all_belong(parts, members),
        None => false,
    }
}
