//! The revisions of a profile as JSON, written a token at a time.

ghost use Rattle.std.specs.Prelude.{OnOk, codes};
ghost use Rattle.serde_json.specs.Data.{boolean, member, no_members};
ghost use Rattle.json_tree.specs.Tokens.{Appends, open_tokens, tokens_of};
ghost use Rattle.json_requests.specs.Answers.{revision_data, revisions_data};

use crate::write::{write_digest, write_number, write_text};
use json_tree::Writer;
use office_words::ProfileRevision;
use std::alloc::{AllocError, Global};

// A revision.
fn write_revision(
    out: &mut Writer,
    alloc: Global,
    revision: &ProfileRevision,
) -> Result<(), AllocError>
    ensures { OnOk result (Appends out.old out.new (tokens_of (revision_data revision.now))) }
{
    out.begin_object()?;
    write_text(out, "by", revision.by.as_str())?;
    write_digest(out, alloc, &revision.digest)?;
    write_number(out, "revision", revision.revision as u64)?;
    write_text(out, "state", revision.state.word())?;
    out.end_object()
}

// The revisions of a list.
fn write_each(
    out: &mut Writer,
    alloc: Global,
    revisions: &[ProfileRevision],
) -> Result<(), AllocError>
    ensures { OnOk result (Appends out.old out.new (tokens_of (revisions_data revisions.now))) }
{
    out.begin_array()?;
    for revision in revisions {
        write_revision(out, alloc, revision)?;
    }
    out.end_array()
}

/// Revisions of a profile, and whether there are older ones.
///
/// # Errors
///
/// Memory was refused. No contract can say when.
pub(crate) fn write_revisions(
    out: &mut Writer,
    alloc: Global,
    revisions: &[ProfileRevision],
    more: bool,
) -> Result<(), AllocError>
    ensures { OnOk result (Appends out.old out.new (open_tokens
        (member (codes "more") (boolean more)
        (member (codes "revisions") (revisions_data revisions.now) no_members)))) }
{
    out.key("more")?;
    out.bool(more)?;
    out.key("revisions")?;
    write_each(out, alloc, revisions)
}
