//! The texts of answers, written a token at a time.

ghost use Rattle.std.specs.Prelude.{◌≡◌, codes, IfOk, OnOk, string_bytes};
ghost use Rattle.serde_json.specs.Data.{member, no_members, object};
ghost use Rattle.json_tree.specs.Tokens.{Appends, open_tokens, tokens_of};
ghost use Rattle.json_requests.specs.Answers.{answer_data, answer_members, answer_text, line_of};
ghost use Rattle.json_requests.specs.Answers.{fault_members, listed_data, listing_data};
ghost use Rattle.json_requests.specs.Answers.{reply_members, text_member, digest_member};
ghost use Rattle.json_requests.specs.Answers.{number_member, roles_data};

use crate::denial::write_denied;
use crate::revisions::write_revisions;
use crate::roles::write_roles;
use crate::write::{write_digest, write_number, write_text};
use json_tree::{Writer, written_text};
use office_words::{Fault, Roles, Word};
use review_policy::{Answer, ListedProfile, Reply};
use std::alloc::{AllocError, Global};

// How many bytes a text has room for before it grows.
const FIRST_ROOM: usize = 8192;

// A profile of a list.
fn write_listed(out: &mut Writer, listed: &ListedProfile) -> Result<(), AllocError>
    ensures { OnOk result (Appends out.old out.new (tokens_of (listed_data listed.now))) }
{
    out.begin_object()?;
    write_number(out, "issued", listed.issued as u64)?;
    write_text(out, "profile", listed.profile.as_str())?;
    write_number(out, "revisions", listed.revisions as u64)?;
    write_text(out, "state", listed.state.word())?;
    out.end_object()
}

// The profiles of a list.
fn write_listing(out: &mut Writer, profiles: &[ListedProfile]) -> Result<(), AllocError>
    ensures { OnOk result (Appends out.old out.new
        (open_tokens (member (codes "profiles") (listing_data profiles.now) no_members))) }
{
    out.key("profiles")?;
    out.begin_array()?;
    for listed in profiles {
        write_listed(out, listed)?;
    }
    out.end_array()
}

// A revision by its digest and its number.
fn write_numbered(
    out: &mut Writer,
    alloc: Global,
    digest: &[u8; 32],
    revision: u32,
) -> Result<(), AllocError>
    ensures { OnOk result (Appends out.old out.new (open_tokens
        (digest_member digest.now (number_member (codes "revision") revision no_members)))) }
{
    write_digest(out, alloc, digest)?;
    write_number(out, "revision", revision as u64)
}

// Who a user is.
fn write_user(out: &mut Writer, user: &Word, team: &Word, roles: Roles) -> Result<(), AllocError>
    ensures { OnOk result (Appends out.old out.new (open_tokens
        (member (codes "roles") (roles_data roles)
        (text_member (codes "team") team.now (text_member (codes "user") user.now no_members))))) }
{
    write_roles(out, roles)?;
    write_text(out, "team", team.as_str())?;
    write_text(out, "user", user.as_str())
}

// What an answer that a request is done has besides `answer`.
fn write_reply(out: &mut Writer, alloc: Global, reply: &Reply) -> Result<(), AllocError>
    ensures { OnOk result (Appends out.old out.new (open_tokens (reply_members reply.now))) }
{
    match reply {
        Reply::Submitted { digest, revision } => write_numbered(out, alloc, digest, *revision),
        Reply::Issued { digest } => write_digest(out, alloc, digest),
        Reply::Shown {
            digest,
            document,
            state,
        } => {
            write_digest(out, alloc, digest)?;
            write_text(out, "document", document.as_str())?;
            write_text(out, "state", state.word())
        }
        Reply::Sheet { sheet } => write_text(out, "sheet", sheet.as_str()),
        Reply::Listed { profiles } => write_listing(out, profiles.profiles()),
        Reply::Fetched {
            digest,
            document,
            revision,
        } => {
            write_digest(out, alloc, digest)?;
            write_text(out, "document", document.as_str())?;
            write_number(out, "revision", *revision as u64)
        }
        Reply::Me { user, team, roles } => write_user(out, user, team, *roles),
        Reply::Revisions { revisions, more } => {
            write_revisions(out, alloc, revisions.revisions(), *more)
        }
        Reply::IssuedNow { digest, revision } => write_numbered(out, alloc, digest, *revision),
        Reply::Nothing => Ok(()),
    }
}

// The answer that a request is done, by its kind.
fn write_done(out: &mut Writer, alloc: Global, reply: &Reply) -> Result<(), AllocError>
    ensures { OnOk result (Appends out.old out.new
        (tokens_of (object (answer_members (codes "done") (reply_members reply.now))))) }
{
    out.begin_object()?;
    write_text(out, "answer", "done")?;
    write_reply(out, alloc, reply)?;
    out.end_object()
}

// The answer that a request failed.
fn write_fault(out: &mut Writer, fault: Fault) -> Result<(), AllocError>
    ensures { OnOk result (Appends out.old out.new
        (tokens_of (object (answer_members (codes "fault") (fault_members fault))))) }
{
    out.begin_object()?;
    write_text(out, "answer", "fault")?;
    write_text(out, "word", fault.word())?;
    out.end_object()
}

// An answer.
fn write_answer(out: &mut Writer, alloc: Global, answer: &Answer) -> Result<(), AllocError>
    ensures { OnOk result (Appends out.old out.new (tokens_of (answer_data answer.now))) }
{
    match answer {
        Answer::Done(reply) => write_done(out, alloc, reply),
        Answer::Denied { denial, fault } => write_denied(out, *denial, fault),
        Answer::Fault(fault) => write_fault(out, *fault),
    }
}

/// The text of an answer: JSON with no space, its members in byte order.
pub fn answer_text(alloc: Global, answer: &Answer) -> Result<String, AllocError>
    ensures { IfOk result (λ text. string_bytes text ≡ answer_text answer.now) }
{
    let mut out = Writer::with_capacity(alloc, FIRST_ROOM)?;
    write_answer(&mut out, alloc, answer)?;
    Ok(written_text(out))
}

/// The line of an answer: its text and a line feed.
#[tactic(auto, unfolding(crate::specs::Answers::line_of))]
pub fn line(alloc: Global, answer: &Answer) -> Result<String, AllocError>
    ensures { IfOk result (λ text. string_bytes text ≡ line_of answer.now) }
{
    let mut text = answer_text(alloc, answer)?;
    text.push('\n')?;
    Ok(text)
}
