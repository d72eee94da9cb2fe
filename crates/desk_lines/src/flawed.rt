//! What is wrong with a line, by its kind.

ghost use Rattle.std.specs.Prelude.{◌≡◌, IfOk};
ghost use Rattle.json_tree.specs.View.{view};
ghost use Rattle.desk_lines.specs.Flaws.{flaw_among, flaw_at, flaw_by, flaw_in};
ghost use Rattle.desk_lines.specs.Flaws.{profile_parts, revision_parts};
ghost use Rattle.json_requests.specs.Kinds.{kind_among, kind_of, subject_kinds};

use crate::flaw::{Flaw, Member};
use crate::formed::{first_unformed, has_no_other};
use json_requests::member::text_of;
use json_tree::{ReadFault, Scratch, Tree};
use no_memory::NoMemory;
use review_policy::{ProfileAct, ProfileView, RevisionAct, RevisionView};
use std::alloc::Global;

// What is wrong with an object that should have `ask` and these members.
fn flaw_among(alloc: Global, parts: &[Member], value: &Tree<'_>) -> Result<Option<Flaw>, NoMemory>
    ensures { IfOk result (λ flaw. flaw ≡ flaw_among (view value.now) parts.now) }
{
    if !has_no_other(parts, value) {
        return Ok(Some(Flaw::Unknown));
    }
    match first_unformed(alloc, value, parts)? {
        Some(part) => Ok(Some(Flaw::Member(part))),
        None => Ok(None),
    }
}

// What is wrong with a line of the kind of this word, or of none.
fn flaw_named(alloc: Global, word: &str, value: &Tree<'_>) -> Result<Option<Flaw>, NoMemory>
    ensures { IfOk result (λ flaw. flaw ≡ flaw_by (view value.now) (kind_of word.now)) }
{
    match word {
        "enrol" => flaw_among(
            alloc,
            &[
                Member::Token,
                Member::User,
                Member::Team,
                Member::Roles,
                Member::Digest,
            ],
            value,
        ),
        "submit" => flaw_among(
            alloc,
            &[
                Member::Token,
                Member::Team,
                Member::Profile,
                Member::Document,
            ],
            value,
        ),
        "vote" => flaw_among(
            alloc,
            &[
                Member::Token,
                Member::Team,
                Member::Profile,
                Member::Revision,
                Member::Digest,
                Member::Vote,
            ],
            value,
        ),
        "list" => flaw_among(alloc, &[Member::Token, Member::Team], value),
        "me" => flaw_among(alloc, &[Member::Token], value),
        "revisions" => flaw_among(
            alloc,
            &[Member::Token, Member::Team, Member::Profile, Member::Before],
            value,
        ),
        _ => flaw_on_subject(alloc, word, value),
    }
}

// What is wrong with a line by the word of an act or a view, or of none.
fn flaw_on_subject(alloc: Global, word: &str, value: &Tree<'_>) -> Result<Option<Flaw>, NoMemory>
    ensures { IfOk result (λ flaw.
        flaw ≡ flaw_by (view value.now) (kind_among subject_kinds word.now)) }
{
    if let Some(_act) = RevisionAct::from_word(word) {
        return flaw_on_revision(alloc, value);
    }
    if let Some(_view) = RevisionView::from_word(word) {
        return flaw_on_revision(alloc, value);
    }
    if let Some(_act) = ProfileAct::from_word(word) {
        return flaw_on_profile(alloc, value);
    }
    match ProfileView::from_word(word) {
        Some(_view) => flaw_on_profile(alloc, value),
        None => Ok(Some(Flaw::NoKind)),
    }
}

// What is wrong with a line that names a revision with no other member.
fn flaw_on_revision(alloc: Global, value: &Tree<'_>) -> Result<Option<Flaw>, NoMemory>
    ensures { IfOk result (λ flaw. flaw ≡ flaw_among (view value.now) revision_parts) }
{
    flaw_among(
        alloc,
        &[
            Member::Token,
            Member::Team,
            Member::Profile,
            Member::Revision,
        ],
        value,
    )
}

// What is wrong with a line that names a profile with no other member.
fn flaw_on_profile(alloc: Global, value: &Tree<'_>) -> Result<Option<Flaw>, NoMemory>
    ensures { IfOk result (λ flaw. flaw ≡ flaw_among (view value.now) profile_parts) }
{
    flaw_among(
        alloc,
        &[Member::Token, Member::Team, Member::Profile],
        value,
    )
}

// What is wrong with a value.
#[tactic(auto, unfolding(crate::specs::Flaws::flaw_at, json_requests::specs::Requests::kind_at))]
fn flaw_at(alloc: Global, value: &Tree<'_>) -> Result<Option<Flaw>, NoMemory>
    ensures { IfOk result (λ flaw. flaw ≡ flaw_at (view value.now)) }
{
    if value.as_object().is_none() {
        return Ok(Some(Flaw::NoObject));
    }
    match text_of(value, "ask") {
        Some(word) => flaw_named(alloc, word, value),
        None => Ok(Some(Flaw::NoKind)),
    }
}

/// What is wrong with a line that is JSON and no request; `None` of any other line. The line is passed
/// without its line feed, and its length isn't looked at. A scratch is kept from line to line.
///
/// # Errors
///
/// Memory was refused. No contract can say when.
pub fn flaw_of_line(
    alloc: Global,
    line: &[u8],
    scratch: &mut Scratch,
) -> Result<Option<Flaw>, NoMemory>
    ensures { IfOk result (λ flaw. flaw ≡ flaw_in line.now) }
{
    match Tree::from_slice(alloc, line, scratch) {
        Ok(value) => flaw_at(alloc, &value),
        Err(ReadFault::NotJson) => Ok(None),
        Err(ReadFault::NoMemory(witness)) => Err(witness),
    }
}
