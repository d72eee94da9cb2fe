//! What happened, as JSON that is written a token at a time: what the lines of a journal share with
//! what is told of one. Where it is told, it has the number of its line.

ghost use Rattle.std.specs.Prelude.{OnOk, Some, codes, option_map};
ghost use Rattle.hex.specs.Hex.{encode_lower};
ghost use Rattle.serde_json.specs.Data.{no_members, string};
ghost use Rattle.json_tree.specs.Tokens.{Appends, member_tokens, open_tokens, tokens_of};
ghost use Rattle.journal.specs.Lines.{deed_members, enrolment_data, founding_data, kind_members};
ghost use Rattle.journal.specs.Lines.{of_profile, of_revision, profile_members, revision_members};
ghost use Rattle.journal.specs.Lines.{user_members, vote_data};

use cap_sets::Caps;
use json_requests::roles::write_roles;
use json_requests::write::{write_digest, write_number, write_text};
use json_tree::Writer;
use office_words::{ProfileName, Roles, Word};
use profile_text::write_set;
use review_sheet::vote_word;
use std::alloc::{AllocError, Global};

/// The word of what happened, and the number of a line where there is one.
///
/// # Errors
///
/// Memory was refused. No contract can say when.
pub(crate) fn write_kind(out: &mut Writer, word: &str, line: Option<u64>) -> Result<(), AllocError>
    ensures { OnOk result (Appends out.old out.new
        (open_tokens (kind_members word.now line no_members))) }
{
    write_text(out, "event", word)?;
    match line {
        Some(line) => write_number(out, "line", line),
        None => Ok(()),
    }
}

// A digest, where there is one.
fn write_digest_if(
    out: &mut Writer,
    alloc: Global,
    digest: Option<&[u8; 32]>,
) -> Result<(), AllocError>
    ensures { OnOk result (Appends out.old out.new (member_tokens (codes "digest")
        (option_map (λ d. string (encode_lower d.now)) digest.entry))) }
{
    match digest {
        Some(digest) => write_digest(out, alloc, digest),
        None => Ok(()),
    }
}

// Who did what, with a digest where there is one.
fn write_deed(
    out: &mut Writer,
    alloc: Global,
    caller: &Word,
    digest: Option<&[u8; 32]>,
    word: &str,
    line: Option<u64>,
) -> Result<(), AllocError>
    ensures { OnOk result (Appends out.old out.new (open_tokens
        (deed_members caller.now (option_map (λ d. d.now) digest.entry) word.now line no_members))) }
{
    write_text(out, "by", caller.as_str())?;
    write_digest_if(out, alloc, digest)?;
    write_kind(out, word, line)
}

/// A profile.
///
/// # Errors
///
/// Memory was refused. No contract can say when.
pub(crate) fn write_profile(out: &mut Writer, name: &ProfileName) -> Result<(), AllocError>
    ensures { OnOk result (Appends out.old out.new
        (open_tokens (profile_members name.now no_members))) }
{
    write_text(out, "profile", name.profile.as_str())?;
    write_text(out, "team", name.team.as_str())
}

// A revision.
fn write_revision(out: &mut Writer, name: &ProfileName, number: u64) -> Result<(), AllocError>
    ensures { OnOk result (Appends out.old out.new
        (open_tokens (revision_members name.now number no_members))) }
{
    write_text(out, "profile", name.profile.as_str())?;
    write_number(out, "revision", number)?;
    write_text(out, "team", name.team.as_str())
}

// A user.
fn write_user(out: &mut Writer, user: &Word, team: &Word) -> Result<(), AllocError>
    ensures { OnOk result (Appends out.old out.new
        (open_tokens (user_members user.now team.now no_members))) }
{
    write_text(out, "team", team.as_str())?;
    write_text(out, "user", user.as_str())
}

/// A founding.
///
/// # Errors
///
/// Memory was refused. No contract can say when.
pub fn write_founding(
    out: &mut Writer,
    alloc: Global,
    line: Option<u64>,
    user: &Word,
    team: &Word,
    digest: &[u8; 32],
    listed: Caps,
) -> Result<(), AllocError>
    ensures { OnOk result (Appends out.old out.new
        (tokens_of (founding_data line user.now team.now digest.now listed))) }
{
    out.begin_object()?;
    write_digest(out, alloc, digest)?;
    write_kind(out, "found", line)?;
    write_set(out, "listed", listed)?;
    write_user(out, user, team)?;
    out.end_object()
}

/// An enrolment.
///
/// # Errors
///
/// Memory was refused. No contract can say when.
pub fn write_enrolment(
    out: &mut Writer,
    alloc: Global,
    line: Option<u64>,
    caller: &Word,
    user: &Word,
    team: &Word,
    roles: Roles,
    digest: &[u8; 32],
) -> Result<(), AllocError>
    ensures { OnOk result (Appends out.old out.new
        (tokens_of (enrolment_data line caller.now user.now team.now roles digest.now))) }
{
    out.begin_object()?;
    write_deed(out, alloc, caller, Some(digest), "enrol", line)?;
    write_roles(out, roles)?;
    write_user(out, user, team)?;
    out.end_object()
}

/// What happened to a profile.
///
/// # Errors
///
/// Memory was refused. No contract can say when.
pub fn write_on_profile(
    out: &mut Writer,
    line: Option<u64>,
    word: &str,
    caller: &Word,
    name: &ProfileName,
) -> Result<(), AllocError>
    ensures { OnOk result (Appends out.old out.new
        (tokens_of (of_profile line word.now caller.now name.now))) }
{
    out.begin_object()?;
    write_text(out, "by", caller.as_str())?;
    write_kind(out, word, line)?;
    write_profile(out, name)?;
    out.end_object()
}

/// What happened to a revision, with a digest where one is given.
///
/// # Errors
///
/// Memory was refused. No contract can say when.
pub fn write_on_revision(
    out: &mut Writer,
    alloc: Global,
    line: Option<u64>,
    word: &str,
    caller: &Word,
    name: &ProfileName,
    number: u64,
    digest: Option<&[u8; 32]>,
) -> Result<(), AllocError>
    ensures { OnOk result (Appends out.old out.new (tokens_of
        (of_revision line word.now caller.now name.now number
        (option_map (λ d. d.now) digest.entry)))) }
{
    out.begin_object()?;
    write_deed(out, alloc, caller, digest, word, line)?;
    write_revision(out, name, number)?;
    out.end_object()
}

/// A vote.
///
/// # Errors
///
/// Memory was refused. No contract can say when.
pub fn write_vote(
    out: &mut Writer,
    alloc: Global,
    line: Option<u64>,
    caller: &Word,
    name: &ProfileName,
    number: u64,
    digest: &[u8; 32],
    approves: bool,
) -> Result<(), AllocError>
    ensures { OnOk result (Appends out.old out.new
        (tokens_of (vote_data line caller.now name.now number digest.now approves))) }
{
    out.begin_object()?;
    write_deed(out, alloc, caller, Some(digest), "vote", line)?;
    write_revision(out, name, number)?;
    write_text(out, "vote", vote_word(approves))?;
    out.end_object()
}
