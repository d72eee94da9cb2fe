//! The line by which people read what happened.

ghost use Rattle.std.specs.Prelude.{◌≡◌, ◌+◌, ◌∷◌, ◌++◌, ◌==◌, [], IfOk, OnOk, codes};
ghost use Rattle.std.specs.Prelude.{string_bytes};
ghost use Rattle.std.specs.Prelude.{if◌then◌else◌, length};
ghost use Rattle.cap_sets.specs.Capability.{names_of};
ghost use Rattle.profile_text.specs.Digest.{digest_of};
ghost use Rattle.review_sheet.specs.Layout.{Adds, spaced};
ghost use Rattle.office_policy.specs.Happened.{event_meant};
ghost use Rattle.office_policy.specs.History.{did};
ghost use Rattle.office_policy.specs.Revisions.{number_of};
ghost use Rattle.office_words.specs.WordTables.{role_words, words_among};
ghost use Rattle.journal_reports.specs.Lines.{deed, digest_in, each_spaced, on_profile};
ghost use Rattle.journal_reports.specs.Lines.{on_revision, profile_word, revision_word};
ghost use Rattle.journal_reports.specs.Lines.{short_digest, text_of, voted_word};

use cap_sets::{Caps, Names};
use journal::Placed;
use office_judging::number_of;
use office_policy::{Deed, Event};
use office_words::{ProfileName, RevisionRow, Role, Roles, Text, Word};
use profile_text::digest;
use review_policy::{ProfileAct, RevisionAct};
use std::alloc::{AllocError, Global};

// Adds an item behind a space.
fn push_spaced(text: &mut String, item: &str) -> Result<(), AllocError>
    ensures { OnOk result (Adds text.old text.new (spaced (item.now ∷ []))) }
{
    text.push(' ')?;
    text.push_str(item)
}

// Adds `none` behind a space, where the text has this length.
fn push_none_at(text: &mut String, before: usize) -> Result<(), AllocError>
    ensures { OnOk result (Adds text.old text.new
        (if length (string_bytes text.old) == before then codes " none" else [])) }
{
    if text.len() == before {
        text.push_str(" none")
    } else {
        Ok(())
    }
}

// Adds names, each behind a space.
fn push_each_name(text: &mut String, names: Names) -> Result<(), AllocError>
    ensures { OnOk result (Adds text.old text.new (spaced names)) }
{
    for name in names {
        push_spaced(text, name)?;
    }
    Ok(())
}

// Adds the names of capabilities, each behind a space, or `none`.
fn push_names(text: &mut String, caps: Caps) -> Result<(), AllocError>
    ensures { OnOk result (Adds text.old text.new (each_spaced (names_of caps))) }
{
    let before = text.len();
    push_each_name(text, caps.names())?;
    push_none_at(text, before)?;
    Ok(())
}

// Adds the word of a role behind a space, where it is one of these.
fn push_role(text: &mut String, roles: Roles, role: Role) -> Result<(), AllocError>
    ensures { OnOk result (Adds text.old text.new (spaced (words_among roles (role ∷ [])))) }
{
    if roles.has(role) {
        push_spaced(text, role.word())
    } else {
        Ok(())
    }
}

// Adds the words of those of these roles that are in the set, each behind a space.
fn push_among(text: &mut String, roles: Roles, among: &[Role]) -> Result<(), AllocError>
    ensures { OnOk result (Adds text.old text.new (spaced (words_among roles among.now))) }
{
    for role in among {
        push_role(text, roles, *role)?;
    }
    Ok(())
}

// Adds the words of roles, each behind a space.
fn push_each_role(text: &mut String, roles: Roles) -> Result<(), AllocError>
    ensures { OnOk result (Adds text.old text.new (spaced (role_words roles))) }
{
    push_among(text, roles, Role::ALL.as_slice())
}

// Adds the words of roles, each behind a space, or `none`.
fn push_roles(text: &mut String, roles: Roles) -> Result<(), AllocError>
    ensures { OnOk result (Adds text.old text.new (each_spaced (role_words roles))) }
{
    let before = text.len();
    push_each_role(text, roles)?;
    push_none_at(text, before)?;
    Ok(())
}

// Adds the first six hexadecimal digits of a digest.
fn push_digest(alloc: Global, text: &mut String, digest: &[u8; 32]) -> Result<(), AllocError>
    ensures { OnOk result (Adds text.old text.new (short_digest digest.now)) }
{
    let digits = hex::encode(alloc, &digest.as_slice()[..3])?;
    let digits = digits.as_str();
    write!(text, " ({digits}..)")
}

// Adds those of a revision's digest, where it is there.
fn push_found(
    alloc: Global,
    text: &mut String,
    found: &Option<RevisionRow>,
) -> Result<(), AllocError>
    ensures { OnOk result (Adds text.old text.new (digest_in found.now)) }
{
    match found {
        Some(row) => push_digest(alloc, text, &row.digest),
        None => Ok(()),
    }
}

// Adds who did what to a profile.
fn push_on_profile(
    text: &mut String,
    caller: &Word,
    did: &str,
    name: &ProfileName,
) -> Result<(), AllocError>
    ensures { OnOk result (Adds text.old text.new (on_profile caller.now did.now name.now)) }
{
    let caller = caller.as_str();
    let team = name.team.as_str();
    let profile = name.profile.as_str();
    write!(text, "{caller} {did} {team}/{profile}")
}

// Adds who did what to a revision.
fn push_on_revision(
    text: &mut String,
    caller: &Word,
    did: &str,
    name: &ProfileName,
    number: u64,
) -> Result<(), AllocError>
    ensures { OnOk result
        (Adds text.old text.new (on_revision caller.now did.now name.now number)) }
{
    push_on_profile(text, caller, did, name)?;
    write!(text, " {number}")?;
    Ok(())
}

// Adds who did what to a revision that was looked up.
fn push_on_found(
    alloc: Global,
    text: &mut String,
    caller: &Word,
    did: &str,
    name: &ProfileName,
    number: u32,
    found: &Option<RevisionRow>,
) -> Result<(), AllocError>
    ensures { OnOk result (Adds text.old text.new
        (on_revision caller.now did.now name.now number ++ digest_in found.now)) }
{
    push_on_revision(text, caller, did, name, number as u64)?;
    push_found(alloc, text, found)?;
    Ok(())
}

// Adds a founding.
fn push_founding(
    text: &mut String,
    user: &Word,
    team: &Word,
    listed: Caps,
) -> Result<(), AllocError>
    ensures { OnOk result (Adds text.old text.new
        ((user.now ++ codes " founded " ++ team.now ++ codes ", listed")
        ++ each_spaced (names_of listed))) }
{
    let user = user.as_str();
    let team = team.as_str();
    write!(text, "{user} founded {team}, listed")?;
    push_names(text, listed)?;
    Ok(())
}

// Adds an enrolment.
fn push_enrolment(
    alloc: Global,
    text: &mut String,
    caller: &Word,
    user: &Word,
    team: &Word,
    roles: Roles,
    digest: &[u8; 32],
) -> Result<(), AllocError>
    ensures { OnOk result (Adds text.old text.new
        ((caller.now ++ codes " enrolled " ++ user.now ++ codes " of " ++ team.now ++ codes ":")
        ++ each_spaced (role_words roles) ++ short_digest digest.now)) }
{
    let caller = caller.as_str();
    let user = user.as_str();
    let team = team.as_str();
    write!(text, "{caller} enrolled {user} of {team}:")?;
    push_roles(text, roles)?;
    push_digest(alloc, text, digest)?;
    Ok(())
}

// Adds a submission.
fn push_submission(
    alloc: Global,
    text: &mut String,
    caller: &Word,
    name: &ProfileName,
    document: &Text,
    found: &Option<RevisionRow>,
) -> Result<(), AllocError>
    ensures { OnOk result (Adds text.old text.new
        (on_revision caller.now (codes "submitted") name.now (number_of found.now + 1)
        ++ short_digest (digest_of document.now))) }
{
    push_on_revision(text, caller, "submitted", name, number_of(found) as u64 + 1)?;
    push_digest(alloc, text, &digest(document.as_str().as_bytes()))?;
    Ok(())
}

// What a vote did.
fn voted_word(approves: bool) -> &'static str
    ensures { result.now ≡ voted_word approves }
{
    if approves { "approved" } else { "rejected" }
}

// What an act did to a revision.
fn revision_word(act: RevisionAct) -> &'static str
    ensures { result.now ≡ revision_word act }
{
    match act {
        RevisionAct::Issue => "issued",
        RevisionAct::Withdraw => "withdrew",
        RevisionAct::Adopt => "adopted",
    }
}

// What an act did to a profile.
fn profile_word(act: ProfileAct) -> &'static str
    ensures { result.now ≡ profile_word act }
{
    match act {
        ProfileAct::Hold => "held",
        ProfileAct::Release => "released",
    }
}

// Adds what a user did, by what was looked up.
fn push_deed(
    alloc: Global,
    text: &mut String,
    caller: &Word,
    done: &Deed,
    found: &Option<RevisionRow>,
) -> Result<(), AllocError>
    ensures { OnOk result (Adds text.old text.new (deed (did caller.now done.now) found.now)) }
{
    match done {
        Deed::Enrol {
            user,
            team,
            roles,
            digest,
        } => push_enrolment(alloc, text, caller, user, team, *roles, digest),
        Deed::Submit {
            name,
            text: document,
        } => push_submission(alloc, text, caller, name, document, found),
        Deed::Vote {
            name,
            revision,
            approves,
            ..
        } => {
            let word = voted_word(*approves);
            push_on_found(alloc, text, caller, word, name, *revision, found)
        }
        Deed::ActOnRevision {
            act,
            name,
            revision,
        } => {
            let word = revision_word(*act);
            push_on_found(alloc, text, caller, word, name, *revision, found)
        }
        Deed::ActOnProfile { act, name } => push_on_profile(text, caller, profile_word(*act), name),
    }
}

// Adds who did what, by what was looked up.
fn push_event(
    alloc: Global,
    text: &mut String,
    event: &Event,
    found: &Option<RevisionRow>,
) -> Result<(), AllocError>
    ensures { OnOk result (Adds text.old text.new (deed (event_meant event.now) found.now)) }
{
    match event {
        Event::Founded {
            user,
            team,
            listed,
            ..
        } => push_founding(text, user, team, *listed),
        Event::Did { caller, deed } => push_deed(alloc, text, caller, deed, found),
    }
}

/// The line of an event, with its line feed, by what was looked up.
///
/// # Errors
///
/// Memory was refused. No contract can say when.
pub fn text(
    alloc: Global,
    placed: &Placed,
    found: &Option<RevisionRow>,
) -> Result<String, AllocError>
    ensures { IfOk result (λ text. string_bytes text
        ≡ text_of placed.now.line (event_meant placed.now.event) found.now) }
{
    let line = placed.line;
    let mut text = String::new(alloc);
    write!(text, "{line}  ")?;
    push_event(alloc, &mut text, &placed.event, found)?;
    text.push('\n')?;
    Ok(text)
}
