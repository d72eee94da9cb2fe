//! What an object may be the line of.

ghost use Rattle.std.specs.Prelude.{◌≡◌, codes};
ghost use Rattle.json_tree.specs.View.{view, items_view};
ghost use Rattle.profile_text.specs.Sets.{cap_of, caps_of};
ghost use Rattle.review_policy.specs.Acts.{profile_act_of, revision_act_of};
ghost use Rattle.json_requests.specs.Faults.{Gives};
ghost use Rattle.json_requests.specs.Members.{text_at};
ghost use Rattle.journal.specs.Read.{acted_at, acted_on_profile_at, acted_on_revision_at};
ghost use Rattle.journal.specs.Read.{caller_at, candidate_at, done_at, enrolled_at, founded_at};
ghost use Rattle.journal.specs.Read.{listed_at, submitted_at, voted_at};
ghost use Rattle.journal.specs.Shown.{shown};

use crate::line::Line;
use cap_sets::Caps;
use json_requests::LineFault;
use json_requests::member::{digest_of, name_of, revision_of, roles_of, text_of, vote_of, word_of};
use json_tree::Tree;
use office_policy::{Deed, Event};
use office_words::{Text, Word};
use review_policy::{ProfileAct, RevisionAct};
use std::alloc::Global;

// The capability that a value names, alone; no other value names one.
fn cap_of(value: &Tree<'_>) -> Caps
    ensures { result ≡ cap_of (view value.now) }
{
    match value.as_str().and_then(Caps::from_name) {
        Some(caps) => caps,
        None => Caps::empty(),
    }
}

// The capabilities that are listed.
fn caps_of(values: &[Tree<'_>]) -> Caps
    ensures { result ≡ caps_of (items_view values.now) }
{
    let mut caps = Caps::empty();
    for value in values {
        caps = caps.union(cap_of(value));
    }
    caps
}

// The listed capabilities.
#[tactic(auto, unfolding(crate::specs::Read::listed_at))]
fn listed_of(value: &Tree<'_>) -> Result<Caps, LineFault>
    ensures { Gives (λ caps. caps) result (listed_at (view value.now)) }
{
    match value.get("listed").and_then(Tree::as_array) {
        Some(values) => Ok(caps_of(values)),
        None => Err(LineFault::NotARequest),
    }
}

// Who asked for it.
#[tactic(auto, unfolding(crate::specs::Read::caller_at))]
fn caller_of(alloc: Global, value: &Tree<'_>) -> Result<Word, LineFault>
    ensures { Gives (λ word. word) result (caller_at (view value.now)) }
{
    word_of(alloc, value, "by")
}

// The text of a document.
fn document_of(alloc: Global, value: &Tree<'_>) -> Result<Text, LineFault>
    ensures { Gives (λ text. text) result (text_at (codes "document") (view value.now)) }
{
    match text_of(value, "document") {
        None => Err(LineFault::NotARequest),
        Some(text) => Ok(Text::new(String::from_str(alloc, text)?)),
    }
}

#[tactic(auto, unfolding(crate::specs::Read::founded_at))]
fn founded_of(alloc: Global, value: &Tree<'_>) -> Result<Line, LineFault>
    ensures { Gives shown result (founded_at (view value.now)) }
{
    let user = word_of(alloc, value, "user")?;
    let team = word_of(alloc, value, "team")?;
    let digest = digest_of(value)?;
    let listed = listed_of(value)?;
    Ok(Line::Event(Event::Founded {
        user,
        team,
        digest,
        listed,
    }))
}

#[tactic(auto, unfolding(crate::specs::Read::enrolled_at))]
fn enrolled_of(alloc: Global, value: &Tree<'_>) -> Result<Line, LineFault>
    ensures { Gives shown result (enrolled_at (view value.now)) }
{
    let caller = caller_of(alloc, value)?;
    let user = word_of(alloc, value, "user")?;
    let team = word_of(alloc, value, "team")?;
    let roles = roles_of(value)?;
    let digest = digest_of(value)?;
    let deed = Deed::Enrol {
        user,
        team,
        roles,
        digest,
    };
    Ok(Line::Event(Event::Did { caller, deed }))
}

#[tactic(auto, unfolding(crate::specs::Read::submitted_at))]
fn submitted_of(alloc: Global, value: &Tree<'_>) -> Result<Line, LineFault>
    ensures { Gives shown result (submitted_at (view value.now)) }
{
    let caller = caller_of(alloc, value)?;
    let name = name_of(alloc, value)?;
    let text = document_of(alloc, value)?;
    let deed = Deed::Submit { name, text };
    Ok(Line::Event(Event::Did { caller, deed }))
}

#[tactic(auto, unfolding(crate::specs::Read::voted_at))]
fn voted_of(alloc: Global, value: &Tree<'_>) -> Result<Line, LineFault>
    ensures { Gives shown result (voted_at (view value.now)) }
{
    let caller = caller_of(alloc, value)?;
    let name = name_of(alloc, value)?;
    let revision = revision_of(value)?;
    let digest = digest_of(value)?;
    let approves = vote_of(value)?;
    let deed = Deed::Vote {
        name,
        revision,
        digest,
        approves,
    };
    Ok(Line::Event(Event::Did { caller, deed }))
}

#[tactic(auto, unfolding(crate::specs::Read::acted_on_revision_at))]
fn acted_on_revision(alloc: Global, act: RevisionAct, value: &Tree<'_>) -> Result<Line, LineFault>
    ensures { Gives shown result (acted_on_revision_at act (view value.now)) }
{
    let caller = caller_of(alloc, value)?;
    let name = name_of(alloc, value)?;
    let revision = revision_of(value)?;
    let deed = Deed::ActOnRevision {
        act,
        name,
        revision,
    };
    Ok(Line::Event(Event::Did { caller, deed }))
}

#[tactic(auto, unfolding(crate::specs::Read::acted_on_profile_at))]
fn acted_on_profile(alloc: Global, act: ProfileAct, value: &Tree<'_>) -> Result<Line, LineFault>
    ensures { Gives shown result (acted_on_profile_at act (view value.now)) }
{
    let caller = caller_of(alloc, value)?;
    let name = name_of(alloc, value)?;
    let deed = Deed::ActOnProfile { act, name };
    Ok(Line::Event(Event::Did { caller, deed }))
}

#[tactic(auto, unfolding(crate::specs::Read::done_at))]
fn done_of(value: &Tree<'_>) -> Result<Line, LineFault>
    ensures { Gives shown result (done_at (view value.now)) }
{
    match value.get("of").and_then(Tree::as_u64) {
        Some(of) => Ok(Line::Done { of }),
        None => Err(LineFault::NotARequest),
    }
}

// What was done to a revision or to a profile, where this is the word of an act.
fn acted_of(alloc: Global, word: &str, value: &Tree<'_>) -> Result<Line, LineFault>
    ensures { Gives shown result
        (acted_at (revision_act_of word.now) (profile_act_of word.now) (view value.now)) }
{
    if let Some(act) = RevisionAct::from_word(word) {
        return acted_on_revision(alloc, act, value);
    }
    match ProfileAct::from_word(word) {
        Some(act) => acted_on_profile(alloc, act, value),
        None => Err(LineFault::NotARequest),
    }
}

/// What an object may be the line of.
#[tactic(auto, unfolding(crate::specs::Read::candidate_at))]
pub(crate) fn candidate_of(alloc: Global, value: &Tree<'_>) -> Result<Line, LineFault>
    ensures { Gives shown result (candidate_at (view value.now)) }
{
    let Some(word) = text_of(value, "event") else {
        return Err(LineFault::NotARequest);
    };
    match word {
        "found" => founded_of(alloc, value),
        "enrol" => enrolled_of(alloc, value),
        "submit" => submitted_of(alloc, value),
        "vote" => voted_of(alloc, value),
        "strike" => Ok(Line::Strike),
        "done" => done_of(value),
        _ => acted_of(alloc, word, value),
    }
}
