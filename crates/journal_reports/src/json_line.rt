//! The line by which programs read what happened.

ghost use Rattle.std.specs.Prelude.{◌≡◌, IfOk, OnOk, Some, option_map, string_bytes};
ghost use Rattle.json_tree.specs.Tokens.{Appends, tokens_of};
ghost use Rattle.review_policy.specs.Acts.{revision_act_word};
ghost use Rattle.office_policy.specs.Happened.{event_meant};
ghost use Rattle.office_policy.specs.History.{did, submitted};
ghost use Rattle.journal.specs.Lines.{of_revision, vote_data};
ghost use Rattle.journal_reports.specs.Json.{data_of, digest_found, json_of};

use journal::Placed;
use journal::members::{
    write_enrolment, write_founding, write_on_profile, write_on_revision, write_vote,
};
use json_tree::{Writer, written_text};
use office_judging::number_of;
use office_policy::{Deed, Event};
use office_words::{ProfileName, RevisionRow, Text, Word};
use profile_text::digest;
use review_policy::RevisionAct;
use std::alloc::{AllocError, Global};

// How many bytes a text has room for before it grows.
const FIRST_ROOM: usize = 1024;

// The digest of a revision, where it is there.
fn digest_found(found: &Option<RevisionRow>) -> Option<&[u8; 32]>
    ensures { option_map (λ d. d.now) result ≡ digest_found found.now }
{
    match found {
        Some(row) => Some(&row.digest),
        None => None,
    }
}

// What was done to a revision that was looked up.
fn write_found(
    out: &mut Writer,
    alloc: Global,
    act: RevisionAct,
    line: u64,
    caller: &Word,
    name: &ProfileName,
    number: u32,
    found: &Option<RevisionRow>,
) -> Result<(), AllocError>
    ensures { OnOk result (Appends out.old out.new (tokens_of
        (of_revision (Some line) (revision_act_word act) caller.now name.now number
        (digest_found found.now)))) }
{
    let digest = digest_found(found);
    write_on_revision(
        out,
        alloc,
        Some(line),
        act.word(),
        caller,
        name,
        number as u64,
        digest,
    )
}

// A submission.
fn write_submission(
    out: &mut Writer,
    alloc: Global,
    line: u64,
    caller: &Word,
    name: &ProfileName,
    document: &Text,
    found: &Option<RevisionRow>,
) -> Result<(), AllocError>
    ensures { OnOk result (Appends out.old out.new (tokens_of
        (data_of line (submitted caller.now name.now document.now) found.now))) }
{
    let digest = digest(document.as_str().as_bytes());
    let number = number_of(found) as u64 + 1;
    let line = Some(line);
    write_on_revision(
        out,
        alloc,
        line,
        "submit",
        caller,
        name,
        number,
        Some(&digest),
    )
}

// A vote.
fn write_cast_vote(
    out: &mut Writer,
    alloc: Global,
    line: u64,
    caller: &Word,
    name: &ProfileName,
    revision: u32,
    digest: &[u8; 32],
    approves: bool,
) -> Result<(), AllocError>
    ensures { OnOk result (Appends out.old out.new (tokens_of
        (vote_data (Some line) caller.now name.now revision digest.now approves))) }
{
    let number = revision as u64;
    write_vote(
        out,
        alloc,
        Some(line),
        caller,
        name,
        number,
        digest,
        approves,
    )
}

// What a user did, by what was looked up.
fn write_deed(
    out: &mut Writer,
    alloc: Global,
    line: u64,
    caller: &Word,
    deed: &Deed,
    found: &Option<RevisionRow>,
) -> Result<(), AllocError>
    ensures { OnOk result (Appends out.old out.new (tokens_of
        (data_of line (did caller.now deed.now) found.now))) }
{
    match deed {
        Deed::Enrol {
            user,
            team,
            roles,
            digest,
        } => write_enrolment(out, alloc, Some(line), caller, user, team, *roles, digest),
        Deed::Submit { name, text } => {
            write_submission(out, alloc, line, caller, name, text, found)
        }
        Deed::Vote {
            name,
            revision,
            digest,
            approves,
        } => write_cast_vote(out, alloc, line, caller, name, *revision, digest, *approves),
        Deed::ActOnRevision {
            act,
            name,
            revision,
        } => write_found(out, alloc, *act, line, caller, name, *revision, found),
        Deed::ActOnProfile { act, name } => {
            write_on_profile(out, Some(line), act.word(), caller, name)
        }
    }
}

// Who did what, by what was looked up.
fn write_event(
    out: &mut Writer,
    alloc: Global,
    line: u64,
    event: &Event,
    found: &Option<RevisionRow>,
) -> Result<(), AllocError>
    ensures { OnOk result (Appends out.old out.new (tokens_of
        (data_of line (event_meant event.now) found.now))) }
{
    match event {
        Event::Founded {
            user,
            team,
            digest,
            listed,
        } => write_founding(out, alloc, Some(line), user, team, digest, *listed),
        Event::Did { caller, deed } => write_deed(out, alloc, line, caller, deed, found),
    }
}

/// The line of an event, with its line feed, by what was looked up: JSON with no space, its members
/// in byte order.
///
/// # Errors
///
/// Memory was refused. No contract can say when.
pub fn json_text(
    alloc: Global,
    placed: &Placed,
    found: &Option<RevisionRow>,
) -> Result<String, AllocError>
    ensures { IfOk result (λ text. string_bytes text
        ≡ json_of placed.now.line (event_meant placed.now.event) found.now) }
{
    let mut out = Writer::with_capacity(alloc, FIRST_ROOM)?;
    write_event(&mut out, alloc, placed.line, &placed.event, found)?;
    let mut text = written_text(out);
    text.push('\n')?;
    Ok(text)
}
