//! Documents that are handed in.

ghost use Rattle.std.specs.Prelude.{◌≡◌, ◌<◌, suc, Some, not, IfOk, IfErr};
ghost use Rattle.sqlite.specs.Held.{state};
ghost use Rattle.review_policy.specs.declared.ask.Ask.TheVariants as ask;
ghost use Rattle.review_policy.specs.declared.facts.TheConstants.SubmitFacts.{PASSING};
ghost use Rattle.office_words.specs.Limits.{max_revisions};
ghost use Rattle.profile_text.specs.Digest.{digest_of};
ghost use Rattle.profile_text.specs.Reading.{reading_of};
ghost use Rattle.office_words.specs.Lists.{holds_role};
ghost use Rattle.office_words.specs.Reads.{submitted};
ghost use Rattle.office_store.specs.Shown.{IsIdle};
ghost use Rattle.office_policy.specs.Users.{is_of_team};
ghost use Rattle.office_policy.specs.Revisions.{if_open, number_of};
ghost use Rattle.office_policy.specs.Facts.{canonical, is_text_of};
ghost use Rattle.office_policy.specs.Verdict.{verdict_of};
ghost use Rattle.office_judging.specs.AtOnce.{IsRefusedAtOnce};
ghost use Rattle.office_judging.specs.Judged.{IsAskedBy, JudgesChange, added_by};

use crate::refusal::Refusal;
use office_policy::{Allowed, Change};
use office_store::last;
use office_words::{Fault, ProfileName, RevisionRow, Role, State, Text, UserRow, Word};
use profile_text::{DocFault, digest, fault_text, read_with_text};
use review_policy::Reply;
use review_policy::decide::decide_submit;
use review_policy::facts::SubmitFacts;
use sqlite::{Alter, Connection};
use std::alloc::{AllocError, Global};

// What the rules ask of a caller and a team.
fn facts_of_caller(caller: &UserRow, team: &Word) -> SubmitFacts
    ensures { result ≡ record PASSING {
      role_missing = not (holds_role (Some caller.now) Role.Author);
      other_team = not (is_of_team (Some caller.now) team.now);
    } }
{
    SubmitFacts {
        role_missing: !caller.roles.has(Role::Author),
        other_team: !caller.team.is(team),
        ..SubmitFacts::PASSING
    }
}

// Whether the text is that of the last revision, and this one is open.
fn is_open_text(text: &Text, last: &Option<RevisionRow>) -> bool
    ensures { result ≡ is_text_of (Some text.now) (if_open last.now) }
{
    match last {
        Some(row) => row.state == State::Open && text.is(&row.body),
        None => false,
    }
}

/// The number of a revision, from 1, or 0 where there is none.
pub fn number_of(revision: &Option<RevisionRow>) -> u32
    ensures { result ≡ number_of revision.now }
{
    match revision {
        Some(row) => row.number,
        None => 0,
    }
}

// All that the rules ask of a document that reads, by its text and the last revision.
fn all_facts(caller: &UserRow, team: &Word, text: &Text, last: &Option<RevisionRow>) -> SubmitFacts
    ensures { result ≡ record PASSING {
      role_missing = not (holds_role (Some caller.now) Role.Author);
      other_team = not (is_of_team (Some caller.now) team.now);
      same_as_open = is_text_of (Some text.now) (if_open last.now);
      revisions = number_of last.now;
    } }
{
    SubmitFacts {
        same_as_open: is_open_text(text, last),
        revisions: number_of(last),
        ..facts_of_caller(caller, team)
    }
}

// The revision after the last one.
fn next_revision(
    caller: &UserRow,
    last: &Option<RevisionRow>,
    text: Text,
) -> Result<RevisionRow, AllocError>
    requires { number_of last.now < max_revisions }
    ensures { IfOk result (λ row. row
        ≡ submitted (suc (number_of last.now)) caller.now.name text (digest_of text)) }
{
    Ok(RevisionRow {
        number: number_of(last) + 1,
        author: caller.name.clone()?,
        state: State::Open,
        digest: digest(text.as_str().as_bytes()),
        body: text,
    })
}

// What is allowed where the caller adds a revision.
fn addition(caller: UserRow, name: &ProfileName, row: RevisionRow) -> Result<Allowed, AllocError>
    ensures { IfOk result (λ allowed. allowed ≡ added_by caller name.now row) }
{
    let reply = Reply::Submitted {
        digest: row.digest,
        revision: row.number,
    };
    let change = Change::AddRevision {
        name: name.clone()?,
        row,
    };
    Ok(Allowed {
        caller,
        change,
        reply,
    })
}

// The canonical text of the document, where the caller may hand in one of this team, and it reads;
// else the refusal, which says of a document that doesn't read why.
fn handed_in(
    alloc: Global,
    caller: &UserRow,
    name: &ProfileName,
    document: &Vec<u8>,
) -> Result<Text, Refusal>
    ensures text { IfOk result (λ text. canonical (reading_of document.now.items) ≡ Some text) }
    ensures refused { IfErr result (λ refusal. IsRefusedAtOnce refusal
        (λ h. verdict_of h (Some caller.now) (ask.Submit name.now document.now))) }
{
    let asked = facts_of_caller(caller, &name.team);
    decide_submit(&asked)?;
    match read_with_text(alloc, document.as_slice()) {
        Ok(document) => Ok(Text::new(document.text)),
        Err(DocFault::NoMemory(witness)) => Err(Refusal::Fault(Fault::NoMemory(witness))),
        Err(fault) => {
            let text = Text::new(fault_text(alloc, &fault)?);
            match decide_submit(&SubmitFacts {
                document: true,
                ..asked
            }) {
                Ok(()) => unreachable!(),
                Err(denial) => Err(Refusal::Denied {
                    denial,
                    fault: Some(text),
                }),
            }
        }
    }
}

// Reads a document, and judges whether its canonical text becomes the next revision of the profile.
pub(crate) fn judge_submission<S: Alter>(
    alloc: Global,
    conn: &mut Connection<S>,
    caller: UserRow,
    name: &ProfileName,
    document: &Vec<u8>,
) -> Result<Allowed, Refusal>
    requires { IsIdle (state S.Store conn.old) }
    ensures judged { JudgesChange (state S.Store conn.old) (state S.Store conn.new) result
        caller (ask.Submit name.now document.now) }
    ensures asked { IfOk result (IsAskedBy (ask.Submit name.now document.now)) }
{
    let text = handed_in(alloc, &caller, name, document)?;
    let last = last(alloc, conn, name)?;
    decide_submit(&all_facts(&caller, &name.team, &text, &last))?;
    let row = next_revision(&caller, &last, text)?;
    Ok(addition(caller, name, row)?)
}
