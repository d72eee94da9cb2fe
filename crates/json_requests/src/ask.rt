//! What a line asks for, by its kind.

ghost use Rattle.std.specs.Prelude.{ℕ, None, if◌then◌else◌, option_and_then};
ghost use Rattle.json_tree.specs.View.{view};
ghost use Rattle.office_words.specs.declared.name.ProfileName.{ProfileName};
ghost use Rattle.json_requests.specs.Faults.{Gives};
ghost use Rattle.json_requests.specs.Kinds.{kind_among, kind_of, line_members, profile_members};
ghost use Rattle.json_requests.specs.Kinds.{revision_members, subject_kinds};
ghost use Rattle.json_requests.specs.Kinds as kinds;
ghost use Rattle.json_requests.specs.Members.{name_at};
ghost use Rattle.json_requests.specs.Objects.{has_no_other};
ghost use Rattle.json_requests.specs.Plain.{PlainAsk, plain_ask};
ghost use Rattle.json_requests.specs.Requests.{ask_by, ask_in, enrol_at, submit_at, vote_on};
ghost use Rattle.json_requests.specs.Requests.{list_at, of_revision, revisions_at};

use crate::fault::LineFault;
use crate::member::{
    before_of, digest_of, document_of, name_of, revision_of, roles_of, text_of, vote_of, word_of,
};
use crate::object::only;
use json_tree::Tree;
use office_words::ProfileName;
use review_policy::{Ask, ProfileAct, ProfileView, RevisionAct, RevisionView};
use std::alloc::Global;

/// What a line asks for, by the word under its `ask`.
#[tactic(auto, unfolding(crate::specs::Requests::ask_in, crate::specs::Requests::kind_at))]
pub(crate) fn ask_of(alloc: Global, value: &Tree<'_>) -> Result<Ask, LineFault>
    ensures { Gives plain_ask result (ask_in (view value.now)) }
{
    match text_of(value, "ask") {
        Some(word) => ask_named(alloc, word, value),
        None => Err(LineFault::NotARequest),
    }
}

// What a line of the kind of this word asks for, which has just the members of that kind.
fn ask_named(alloc: Global, word: &str, value: &Tree<'_>) -> Result<Ask, LineFault>
    ensures { Gives plain_ask result
        (option_and_then (ask_by (view value.now)) (kind_of word.now)) }
{
    match word {
        "enrol" => {
            only(&["ask", "token", "user", "team", "roles", "digest"], value)?;
            enrol_of(alloc, value)
        }
        "submit" => {
            only(&["ask", "token", "team", "profile", "document"], value)?;
            submit_of(alloc, value)
        }
        "vote" => {
            only(
                &[
                    "ask", "token", "team", "profile", "revision", "digest", "vote",
                ],
                value,
            )?;
            vote_on(alloc, value)
        }
        "list" => {
            only(&["ask", "token", "team"], value)?;
            list_of(alloc, value)
        }
        "me" => {
            only(&["ask", "token"], value)?;
            Ok(Ask::Me)
        }
        "revisions" => {
            only(&["ask", "token", "team", "profile", "before"], value)?;
            revisions_of(alloc, value)
        }
        _ => on_subject(alloc, word, value),
    }
}

// What a line asks for by the word of an act or a view.
fn on_subject(alloc: Global, word: &str, value: &Tree<'_>) -> Result<Ask, LineFault>
    ensures { Gives plain_ask result
        (option_and_then (ask_by (view value.now)) (kind_among subject_kinds word.now)) }
{
    if let Some(act) = RevisionAct::from_word(word) {
        return act_on_revision(alloc, act, value);
    }
    if let Some(view) = RevisionView::from_word(word) {
        return see_revision(alloc, view, value);
    }
    if let Some(act) = ProfileAct::from_word(word) {
        return act_on_profile(alloc, act, value);
    }
    match ProfileView::from_word(word) {
        Some(view) => see_profile(alloc, view, value),
        None => Err(LineFault::NotARequest),
    }
}

#[tactic(auto, unfolding(crate::specs::Requests::enrol_at))]
pub(crate) fn enrol_of(alloc: Global, value: &Tree<'_>) -> Result<Ask, LineFault>
    ensures { Gives plain_ask result (enrol_at (view value.now)) }
{
    let user = word_of(alloc, value, "user")?;
    let team = word_of(alloc, value, "team")?;
    let roles = roles_of(value)?;
    let digest = digest_of(value)?;
    Ok(Ask::Enrol {
        user,
        team,
        roles,
        digest,
    })
}

#[tactic(auto, unfolding(crate::specs::Requests::submit_at))]
fn submit_of(alloc: Global, value: &Tree<'_>) -> Result<Ask, LineFault>
    ensures { Gives plain_ask result (submit_at (view value.now)) }
{
    let name = name_of(alloc, value)?;
    let document = document_of(alloc, value)?;
    Ok(Ask::Submit { name, document })
}

#[tactic(auto, unfolding(crate::specs::Requests::vote_on))]
fn vote_on(alloc: Global, value: &Tree<'_>) -> Result<Ask, LineFault>
    ensures { Gives plain_ask result (vote_on (view value.now)) }
{
    let name = name_of(alloc, value)?;
    let revision = revision_of(value)?;
    let digest = digest_of(value)?;
    let approve = vote_of(value)?;
    Ok(Ask::Vote {
        name,
        revision,
        digest,
        approve,
    })
}

#[tactic(auto, unfolding(crate::specs::Requests::list_at))]
fn list_of(alloc: Global, value: &Tree<'_>) -> Result<Ask, LineFault>
    ensures { Gives plain_ask result (list_at (view value.now)) }
{
    let team = word_of(alloc, value, "team")?;
    Ok(Ask::List { team })
}

// The revision that a line names with no other member.
#[tactic(auto, unfolding(crate::specs::Requests::of_revision))]
fn revision_named(alloc: Global, value: &Tree<'_>) -> Result<(ProfileName, u32), LineFault>
    ensures { (ask : ProfileName → ℕ → PlainAsk) →
        Gives (λ named. ask named.0 named.1) result
        (if has_no_other (line_members revision_members) (view value.now)
        then of_revision ask (view value.now) else None) }
{
    only(&["ask", "token", "team", "profile", "revision"], value)?;
    let name = name_of(alloc, value)?;
    let revision = revision_of(value)?;
    Ok((name, revision))
}

fn act_on_revision(alloc: Global, act: RevisionAct, value: &Tree<'_>) -> Result<Ask, LineFault>
    ensures { Gives plain_ask result (ask_by (view value.now) (kinds.act_on_revision act)) }
{
    let (name, revision) = revision_named(alloc, value)?;
    Ok(Ask::ActOnRevision {
        act,
        name,
        revision,
    })
}

fn see_revision(alloc: Global, seen: RevisionView, value: &Tree<'_>) -> Result<Ask, LineFault>
    ensures { Gives plain_ask result (ask_by (view value.now) (kinds.see_revision seen)) }
{
    let (name, revision) = revision_named(alloc, value)?;
    Ok(Ask::SeeRevision {
        view: seen,
        name,
        revision,
    })
}

// The profile that a line names with no other member.
fn profile_named(alloc: Global, value: &Tree<'_>) -> Result<ProfileName, LineFault>
    ensures { Gives (λ name. name) result
        (if has_no_other (line_members profile_members) (view value.now)
        then name_at (view value.now) else None) }
{
    only(&["ask", "token", "team", "profile"], value)?;
    name_of(alloc, value)
}

#[tactic(auto, unfolding(crate::specs::Requests::of_profile))]
fn act_on_profile(alloc: Global, act: ProfileAct, value: &Tree<'_>) -> Result<Ask, LineFault>
    ensures { Gives plain_ask result (ask_by (view value.now) (kinds.act_on_profile act)) }
{
    let name = profile_named(alloc, value)?;
    Ok(Ask::ActOnProfile { act, name })
}

#[tactic(auto, unfolding(crate::specs::Requests::of_profile))]
fn see_profile(alloc: Global, seen: ProfileView, value: &Tree<'_>) -> Result<Ask, LineFault>
    ensures { Gives plain_ask result (ask_by (view value.now) (kinds.see_profile seen)) }
{
    let name = profile_named(alloc, value)?;
    Ok(Ask::SeeProfile { view: seen, name })
}

#[tactic(auto, unfolding(crate::specs::Requests::revisions_at))]
fn revisions_of(alloc: Global, value: &Tree<'_>) -> Result<Ask, LineFault>
    ensures { Gives plain_ask result (revisions_at (view value.now)) }
{
    let name = name_of(alloc, value)?;
    let before = before_of(value)?;
    Ok(Ask::Revisions { name, before })
}
