//! The text of a line.

ghost use Rattle.std.specs.Prelude.{◌≡◌, IfOk, OnOk, string_bytes};
ghost use Rattle.json_tree.specs.Tokens.{Appends, tokens_of};
ghost use Rattle.office_policy.specs.EventForms.{HasForms, HasNumber};
ghost use Rattle.office_policy.specs.Formed.{IsNumber};
ghost use Rattle.office_policy.specs.Happened.{event_by, event_meant};
ghost use Rattle.office_policy.specs.History.{did, enrolled, founded, on_profile, on_revision};
ghost use Rattle.office_policy.specs.History.{submitted, voted};
ghost use Rattle.journal.specs.Forms.{IsFormed, IsNumbered};
ghost use Rattle.journal.specs.Journal.{IsEntry};
ghost use Rattle.journal.specs.Lines.{done, event_data, happened, line_data, strike, text_of};
ghost use Rattle.journal.specs.Shown.{shown};

use crate::line::Line;
use crate::members::{
    write_enrolment, write_founding, write_kind, write_on_profile, write_on_revision,
    write_profile, write_vote,
};
use cap_sets::Caps;
use json_requests::write::{write_number, write_text};
use json_tree::{Writer, written_text};
use office_policy::forms::{digest_form, name_form, roles_form, text_form, word_form};
use office_policy::{Change, Deed, Event, founding_forms};
use office_words::{ProfileName, Roles, Text, Word};
use review_policy::{ProfileAct, RevisionAct};
use std::alloc::{AllocError, Global};

// How many bytes a text has room for before it grows.
const FIRST_ROOM: usize = 8192;

// The text of a founding.
fn founding_text(
    alloc: Global,
    user: &Word,
    team: &Word,
    digest: &[u8; 32],
    listed: Caps,
) -> Result<String, AllocError>
    ensures text { IfOk result (λ text. string_bytes text
        ≡ text_of (happened (founded user.now team.now digest.now listed))) }
    ensures forms { HasForms (founded user.now team.now digest.now listed) }
{
    founding_forms(user, team, digest, listed);
    let mut out = Writer::with_capacity(alloc, FIRST_ROOM)?;
    write_founding(&mut out, alloc, None, user, team, digest, listed)?;
    Ok(written_text(out))
}

// The text of an enrolment.
fn enrolment_text(
    alloc: Global,
    caller: &Word,
    user: &Word,
    team: &Word,
    roles: Roles,
    digest: &[u8; 32],
) -> Result<String, AllocError>
    ensures text { IfOk result (λ text. string_bytes text
        ≡ text_of (happened (enrolled caller.now user.now team.now roles digest.now))) }
    ensures forms { HasForms (enrolled caller.now user.now team.now roles digest.now) }
{
    word_form(caller);
    word_form(user);
    word_form(team);
    roles_form(roles);
    digest_form(digest);
    let mut out = Writer::with_capacity(alloc, FIRST_ROOM)?;
    write_enrolment(&mut out, alloc, None, caller, user, team, roles, digest)?;
    Ok(written_text(out))
}

// A submission.
fn write_submission(
    out: &mut Writer,
    caller: &Word,
    name: &ProfileName,
    text: &Text,
) -> Result<(), AllocError>
    ensures { OnOk result (Appends out.old out.new
        (tokens_of (event_data (submitted caller.now name.now text.now)))) }
{
    out.begin_object()?;
    write_text(out, "by", caller.as_str())?;
    write_text(out, "document", text.as_str())?;
    write_kind(out, "submit", None)?;
    write_profile(out, name)?;
    out.end_object()
}

// The text of a submission.
fn submission_text(
    alloc: Global,
    caller: &Word,
    name: &ProfileName,
    text: &Text,
) -> Result<String, AllocError>
    ensures text { IfOk result (λ written. string_bytes written
        ≡ text_of (happened (submitted caller.now name.now text.now))) }
    ensures forms { HasForms (submitted caller.now name.now text.now) }
{
    word_form(caller);
    name_form(name);
    text_form(text);
    let mut out = Writer::with_capacity(alloc, FIRST_ROOM)?;
    write_submission(&mut out, caller, name, text)?;
    Ok(written_text(out))
}

// The text of a vote, which has its forms where the number has its own.
fn vote_text(
    alloc: Global,
    caller: &Word,
    name: &ProfileName,
    revision: u32,
    digest: &[u8; 32],
    approves: bool,
) -> Result<String, AllocError>
    ensures text { IfOk result (λ text. string_bytes text
        ≡ text_of (happened (voted caller.now name.now revision digest.now approves))) }
    ensures forms { IsNumber revision
        → HasForms (voted caller.now name.now revision digest.now approves) }
{
    word_form(caller);
    name_form(name);
    digest_form(digest);
    let number = revision as u64;
    let mut out = Writer::with_capacity(alloc, FIRST_ROOM)?;
    write_vote(
        &mut out, alloc, None, caller, name, number, digest, approves,
    )?;
    Ok(written_text(out))
}

// The text of what was done to a revision, which has its forms where the number has its own.
fn act_on_revision_text(
    alloc: Global,
    act: RevisionAct,
    caller: &Word,
    name: &ProfileName,
    revision: u32,
) -> Result<String, AllocError>
    ensures text { IfOk result (λ text. string_bytes text
        ≡ text_of (happened (on_revision caller.now act name.now revision))) }
    ensures forms { IsNumber revision → HasForms (on_revision caller.now act name.now revision) }
{
    word_form(caller);
    name_form(name);
    let number = revision as u64;
    let mut out = Writer::with_capacity(alloc, FIRST_ROOM)?;
    write_on_revision(
        &mut out,
        alloc,
        None,
        act.word(),
        caller,
        name,
        number,
        None,
    )?;
    Ok(written_text(out))
}

// The text of what was done to a profile.
fn act_on_profile_text(
    alloc: Global,
    act: ProfileAct,
    caller: &Word,
    name: &ProfileName,
) -> Result<String, AllocError>
    ensures text { IfOk result (λ text. string_bytes text
        ≡ text_of (happened (on_profile caller.now act name.now))) }
    ensures forms { HasForms (on_profile caller.now act name.now) }
{
    word_form(caller);
    name_form(name);
    let mut out = Writer::with_capacity(alloc, FIRST_ROOM)?;
    write_on_profile(&mut out, None, act.word(), caller, name)?;
    Ok(written_text(out))
}

// The text of what a user did, by its kind.
fn deed_text(alloc: Global, caller: &Word, deed: &Deed) -> Result<String, AllocError>
    ensures text { IfOk result (λ text. string_bytes text
        ≡ text_of (happened (did caller.now deed.now))) }
    ensures forms { HasNumber (did caller.now deed.now) → HasForms (did caller.now deed.now) }
{
    match deed {
        Deed::Enrol {
            user,
            team,
            roles,
            digest,
        } => enrolment_text(alloc, caller, user, team, *roles, digest),
        Deed::Submit { name, text } => submission_text(alloc, caller, name, text),
        Deed::Vote {
            name,
            revision,
            digest,
            approves,
        } => vote_text(alloc, caller, name, *revision, digest, *approves),
        Deed::ActOnRevision {
            act,
            name,
            revision,
        } => act_on_revision_text(alloc, *act, caller, name, *revision),
        Deed::ActOnProfile { act, name } => act_on_profile_text(alloc, *act, caller, name),
    }
}

// The text of what happened.
fn event_text(alloc: Global, event: &Event) -> Result<String, AllocError>
    ensures text { IfOk result (λ text. string_bytes text
        ≡ text_of (happened (event_meant event.now))) }
    ensures forms { HasNumber (event_meant event.now) → HasForms (event_meant event.now) }
{
    match event {
        Event::Founded {
            user,
            team,
            digest,
            listed,
        } => founding_text(alloc, user, team, digest, *listed),
        Event::Did { caller, deed } => deed_text(alloc, caller, deed),
    }
}

/// The text of the line that says what happens by a change, which a user of this name asks for. It
/// has the forms of a line where the number of its revision has its own.
pub fn change_text(alloc: Global, caller: &Word, change: &Change) -> Result<String, AllocError>
    ensures text { IfOk result (λ text. string_bytes text
        ≡ text_of (happened (event_by caller.now change.now))) }
    ensures forms { HasNumber (event_by caller.now change.now)
        → HasForms (event_by caller.now change.now) }
{
    match change {
        Change::Enrol { user } => enrolment_text(
            alloc,
            caller,
            &user.name,
            &user.team,
            user.roles,
            &user.digest,
        ),
        Change::AddRevision { name, row } => submission_text(alloc, caller, name, &row.body),
        Change::Vote {
            name,
            revision,
            digest,
            approves,
        } => vote_text(alloc, caller, name, *revision, digest, *approves),
        Change::ActOnRevision {
            act,
            name,
            revision,
        } => act_on_revision_text(alloc, *act, caller, name, *revision),
        Change::ActOnProfile { act, name } => act_on_profile_text(alloc, *act, caller, name),
    }
}

// The line that strikes out the one before it.
fn write_strike(out: &mut Writer) -> Result<(), AllocError>
    ensures { OnOk result (Appends out.old out.new (tokens_of (line_data strike))) }
{
    out.begin_object()?;
    write_kind(out, "strike", None)?;
    out.end_object()
}

// The line that says that the one before it, which has this number, is carried out.
fn write_done(out: &mut Writer, of: u64) -> Result<(), AllocError>
    ensures { OnOk result (Appends out.old out.new (tokens_of (line_data (done of)))) }
{
    out.begin_object()?;
    write_kind(out, "done", None)?;
    write_number(out, "of", of)?;
    out.end_object()
}

// The text of the line that strikes out the one before it.
fn strike_text(alloc: Global) -> Result<String, AllocError>
    ensures { IfOk result (λ text. string_bytes text ≡ text_of strike) }
{
    let mut out = Writer::with_capacity(alloc, FIRST_ROOM)?;
    write_strike(&mut out)?;
    Ok(written_text(out))
}

/// The text of the line that says that the event of the line of this number is carried out. That can
/// stand in a journal.
pub(crate) fn done_text(alloc: Global, of: u64) -> Result<String, AllocError>
    ensures text { IfOk result (λ text. string_bytes text ≡ text_of (done of)) }
    ensures entry { IfOk result (λ _. IsEntry (done of)) }
{
    let mut out = Writer::with_capacity(alloc, FIRST_ROOM)?;
    write_done(&mut out, of)?;
    Ok(written_text(out))
}

/// The text of a line: JSON with no space, its members in byte order, and no line feed. The line has
/// its forms where the number of its revision has its own.
pub fn text(alloc: Global, line: &Line) -> Result<String, AllocError>
    ensures text { IfOk result (λ text. string_bytes text ≡ text_of (shown line.now)) }
    ensures forms { IsNumbered (shown line.now) → IsFormed (shown line.now) }
{
    match line {
        Line::Event(event) => event_text(alloc, event),
        Line::Strike => strike_text(alloc),
        Line::Done { of } => done_text(alloc, *of),
    }
}
