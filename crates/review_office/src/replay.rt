//! Events that happen again.

ghost use Rattle.std.specs.Prelude.{◌≡◌, ℕ, List, Some, IfErr, IfOk};
ghost use Rattle.sqlite.specs.Held.{state};
ghost use Rattle.office_store.specs.Shown.{IsIdle};
ghost use Rattle.office_policy.specs.Facts.{is_text_of};
ghost use Rattle.office_policy.specs.Formed.{HasForms, IsName};
ghost use Rattle.office_policy.specs.Happened.{event_meant};
ghost use Rattle.office_policy.specs.History.{did};
ghost use Rattle.review_policy.specs.declared.ask.Ask.TheVariants.{Enrol, Vote};
ghost use Rattle.review_office.specs.Meant.{meaning_over};
ghost use Rattle.review_office.specs.Replayed.{HasNoAsk, IsAskOf, IsReplayed, added, has_text};

use crate::carry_out::carry_out;
use office_judging::Refusal;
use office_judging::judge::judge_named;
use office_policy::forms::{digest_form, name_form, roles_form, word_form};
use office_policy::{Change, Deed, Event, Judgement};
use office_words::{Fault, ProfileName, Roles, Text, Word};
use review_policy::{Ask, Denial};
use sqlite::{Alter, Connection};
use std::alloc::{AllocError, Global};

/// Why an event doesn't happen again.
#[derive(Clone, Copy, Drop)]
pub enum Unreplayed {
    /// A rule of the policy refuses it to its caller: the first one that does.
    Denied(Denial),
    /// It is a founding, and an office is founded once.
    Founding,
    /// It is the submission of a text that is a document, and isn't its canonical text.
    OtherText,
    /// Something failed, and nothing changed.
    Fault(Fault),
}

impl From<Refusal> for Unreplayed {
    ghost use Rattle.std.specs.Prelude.{◌≡◌};
    ghost use Rattle.review_office.specs.Replayed.{unreplayed_of};

    ghost from_gives = { λ refusal unreplayed. unreplayed ≡ unreplayed_of refusal };

    fn from(refusal: Refusal) -> Unreplayed {
        match refusal {
            Refusal::Denied { denial, .. } => Unreplayed::Denied(denial),
            Refusal::Fault(fault) => Unreplayed::Fault(fault),
        }
    }
}

impl From<Fault> for Unreplayed {
    ghost use Rattle.std.specs.Prelude.{◌≡◌};
    ghost use Rattle.review_office.specs.declared.replay.Unreplayed.TheVariants.{Fault};

    ghost from_gives = { λ fault unreplayed. unreplayed ≡ Fault fault };

    fn from(fault: Fault) -> Unreplayed {
        Unreplayed::Fault(fault)
    }
}

impl From<AllocError> for Unreplayed {
    ghost use Rattle.std.specs.Prelude.{◌≡◌};
    ghost use Rattle.office_words.specs.declared.fault.Fault.TheVariants.{NoMemory};
    ghost use Rattle.review_office.specs.declared.replay.Unreplayed.TheVariants.{Fault};
    ghost use Rattle.no_memory.specs.Witness.{witness};

    ghost from_gives = { λ _ unreplayed. unreplayed ≡ Fault (NoMemory witness) };

    fn from(refused: AllocError) -> Unreplayed {
        Unreplayed::Fault(Fault::NoMemory(refused.into()))
    }
}

// A profile's name, which has its form.
fn named(name: &ProfileName) -> Result<ProfileName, AllocError>
    ensures same { IfOk result (λ copy. copy ≡ name.now) }
    ensures form { IfOk result (λ copy. IsName copy) }
{
    name_form(name);
    name.clone()
}

// An enrolment, as it is asked.
fn enrolment(user: &Word, team: &Word, roles: Roles, digest: &[u8; 32]) -> Result<Ask, AllocError>
    ensures ask { IfOk result (λ ask. ask ≡ Enrol user.now team.now roles digest.now) }
    ensures forms { IfOk result (λ ask. HasForms ask) }
{
    word_form(user);
    word_form(team);
    roles_form(roles);
    digest_form(digest);
    Ok(Ask::Enrol {
        user: user.clone()?,
        team: team.clone()?,
        roles,
        digest: *digest,
    })
}

// A vote, as it is asked.
fn vote(
    name: &ProfileName,
    revision: u32,
    digest: &[u8; 32],
    approves: bool,
) -> Result<Ask, AllocError>
    ensures ask { IfOk result (λ ask. ask ≡ Vote name.now revision digest.now approves) }
    ensures forms { IfOk result (λ ask. HasForms ask) }
{
    digest_form(digest);
    Ok(Ask::Vote {
        name: named(name)?,
        revision,
        digest: *digest,
        approve: approves,
    })
}

// What a user did, as it is asked; of a submission the document is the text itself.
fn ask_to(alloc: Global, deed: &Deed) -> Result<Ask, Unreplayed>
    ensures ask { (caller : List ℕ) → IfOk result (IsAskOf (did caller deed.now)) }
    ensures none { (caller : List ℕ) → IfErr result (HasNoAsk (did caller deed.now)) }
    ensures forms { IfOk result (λ ask. HasForms ask) }
{
    match deed {
        Deed::Enrol {
            user,
            team,
            roles,
            digest,
        } => Ok(enrolment(user, team, *roles, digest)?),
        Deed::Submit { name, text } => Ok(Ask::Submit {
            name: named(name)?,
            document: Vec::from_slice(alloc, text.as_str().as_bytes())?,
        }),
        Deed::Vote {
            name,
            revision,
            digest,
            approves,
        } => Ok(vote(name, *revision, digest, *approves)?),
        Deed::ActOnRevision {
            act,
            name,
            revision,
        } => Ok(Ask::ActOnRevision {
            act: *act,
            name: named(name)?,
            revision: *revision,
        }),
        Deed::ActOnProfile { act, name } => Ok(Ask::ActOnProfile {
            act: *act,
            name: named(name)?,
        }),
    }
}

// Whether the text is that of a revision that is added.
fn is_text_of(text: &Text, change: &Change) -> bool
    ensures { result ≡ is_text_of (Some text.now) (added change.now) }
{
    match change {
        Change::AddRevision { row, .. } => text.is(&row.body),
        _ => false,
    }
}

// Whether a change has the text of what a user did, where that is a submission.
fn has_text(deed: &Deed, change: &Change) -> bool
    ensures { (caller : List ℕ) → result ≡ has_text (did caller deed.now) change.now }
{
    match deed {
        Deed::Submit { text, .. } => is_text_of(text, change),
        _ => true,
    }
}

// Has what a user did happen again, by what it asks, where the policy allows that.
fn replay_deed<S: Alter>(
    alloc: Global,
    conn: &mut Connection<S>,
    caller: &Word,
    deed: &Deed,
    ask: &Ask,
) -> Result<(), Unreplayed>
    requires idle { IsIdle (state S.Store conn.old) }
    requires asks { IsAskOf (did caller.now deed.now) ask.now }
    requires forms { HasForms ask.now }
    ensures idle { IsIdle (state S.Store conn.new) }
    ensures replayed { IsReplayed (meaning_over S.Store)
        conn.old conn.new (did caller.now deed.now) result }
{
    let allowed = match judge_named(alloc, conn, caller, ask)? {
        Judgement::Allowed(allowed) => allowed,
        Judgement::Answered(_) => unreachable!(),
    };
    if !has_text(deed, &allowed.change) {
        return Err(Unreplayed::OtherText);
    }
    carry_out(conn, &allowed)?;
    Ok(())
}

// Has an event happen again, where the policy allows it to the caller that it names.
pub(crate) fn replay<S: Alter>(
    alloc: Global,
    conn: &mut Connection<S>,
    event: &Event,
) -> Result<(), Unreplayed>
    requires { IsIdle (state S.Store conn.old) }
    ensures idle { IsIdle (state S.Store conn.new) }
    ensures replayed { IsReplayed (meaning_over S.Store)
        conn.old conn.new (event_meant event.now) result }
{
    match event {
        Event::Founded { .. } => Err(Unreplayed::Founding),
        Event::Did { caller, deed } => {
            let ask = ask_to(alloc, deed)?;
            replay_deed(alloc, conn, caller, deed, &ask)
        }
    }
}
