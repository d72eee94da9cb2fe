//! Review sheets of revisions.

ghost use Rattle.std.specs.Prelude.{◌≡◌, IfOk, option_map};
ghost use Rattle.sqlite.specs.Held.{state};
ghost use Rattle.review_sheet.specs.Sheet.{sheet_text};
ghost use Rattle.office_store.specs.Connections.{Reads};
ghost use Rattle.office_store.specs.Shown.{IsIdle};
ghost use Rattle.office_policy.specs.LooksBack.{LooksBack};
ghost use Rattle.office_judging.specs.Compared.{sheet_against};
ghost use Rattle.office_judging.specs.Sheets.{sheet_at, sheet_text_of};

use crate::baseline::{Comparison, base, compared_with};
use crate::need::document;
use office_store::{revision, standing};
use office_words::{Fault, ProfileName, RevisionRow, Text, VoteRow, Word};
use review_sheet::SheetFacts;
use sqlite::{Alter, Connection};
use std::alloc::{AllocError, Global};

// The profile and the number of an adopted revision.
fn adopted_name(adopted: Option<(Word, RevisionRow)>) -> Option<(Word, u32)>
    ensures { result ≡ option_map (λ found. (found.0, found.1.number)) adopted }
{
    match adopted {
        Some((profile, row)) => Some((profile, row.number)),
        None => None,
    }
}

// The sheet of a revision, against what it is compared with, with its votes.
fn sheet_of(
    alloc: Global,
    name: &ProfileName,
    row: &RevisionRow,
    compared: Comparison,
    votes: Vec<VoteRow>,
) -> Result<Text, AllocError>
    ensures { IfOk result (λ text.
        text ≡ sheet_text (sheet_against compared votes.items name.now row.now)) }
{
    let base = base(alloc, &compared)?;
    let shown = document(alloc, &row.body)?;
    let facts = SheetFacts {
        team: &name.team,
        profile: &name.profile,
        number: row.number,
        state: row.state,
        digest: row.digest,
        listed: compared.listed,
        baseline: adopted_name(compared.adopted),
        base: &base,
        shown: &shown,
        votes,
    };
    Ok(Text::new(review_sheet::sheet(alloc, &facts)?))
}

// The review sheet of a revision that is there, at this moment.
pub(crate) fn sheet_now<S: Alter>(
    alloc: Global,
    conn: &mut Connection<S>,
    name: &ProfileName,
    row: &RevisionRow,
) -> Result<Text, Fault>
    requires { IsIdle (state S.Store conn.old) }
    ensures { Reads S.Store conn.old conn.new result
        (LooksBack (sheet_text_of name.now row.now)) }
{
    let votes = standing(alloc, conn, name, row.number)?;
    let compared = compared_with(alloc, conn, &name.team)?;
    Ok(sheet_of(alloc, name, row, compared, votes)?)
}

/// The review sheet of a revision, where that is there.
///
/// # Errors
///
/// The fault of the store; `NoMemory` too.
pub fn sheet_at<S: Alter>(
    alloc: Global,
    conn: &mut Connection<S>,
    name: &ProfileName,
    number: u32,
) -> Result<Option<Text>, Fault>
    requires { IsIdle (state S.Store conn.old) }
    ensures { Reads S.Store conn.old conn.new result (LooksBack (sheet_at name.now number)) }
{
    let Some(row) = revision(alloc, conn, name, number)? else {
        return Ok(None);
    };
    let sheet = sheet_now(alloc, conn, name, &row)?;
    Ok(Some(sheet))
}
