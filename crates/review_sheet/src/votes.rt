//! The lines of the votes.

ghost use Rattle.std.specs.Prelude.{◌≡◌, OnOk, count_by, map};
ghost use Rattle.office_words.specs.Votes.{is_approval, is_rejection};
ghost use Rattle.review_sheet.specs.Layout.{Adds, AddsLines, ended};
ghost use Rattle.review_sheet.specs.Review.{tally_lines, vote_line, vote_mark, vote_word};
ghost use Rattle.review_sheet.specs.Review.{votes_lines};

use crate::layout::push_count;
use office_words::VoteRow;
use std::alloc::AllocError;

/// Adds the votes.
pub(crate) fn push_votes(text: &mut String, votes: &[VoteRow]) -> Result<(), AllocError>
    ensures { OnOk result (AddsLines text.old text.new (votes_lines votes.now)) }
{
    push_count(text, "votes: ", votes.len())?;
    push_each(text, votes)?;
    Ok(())
}

// Adds the lines of votes.
fn push_each(text: &mut String, votes: &[VoteRow]) -> Result<(), AllocError>
    ensures { OnOk result (AddsLines text.old text.new (map vote_line votes.now)) }
{
    for vote in votes {
        push_vote(text, vote)?;
    }
    Ok(())
}

/// The word of a vote, by whether it approves.
pub fn vote_word(approve: bool) -> &'static str
    ensures { result.now ≡ vote_word approve }
{
    if approve { "approve" } else { "reject" }
}

// What follows the word of a vote.
fn vote_mark(vote: &VoteRow) -> &'static str
    ensures { result.now ≡ vote_mark vote.now }
{
    if !vote.counts {
        " lapsed"
    } else if vote.security {
        " security"
    } else {
        ""
    }
}

// Adds a vote.
fn push_vote(text: &mut String, vote: &VoteRow) -> Result<(), AllocError>
    ensures { OnOk result (Adds text.old text.new (ended (vote_line vote.now))) }
{
    let voter = vote.voter.as_str();
    let word = vote_word(vote.approve);
    let mark = vote_mark(vote);
    writeln!(text, "  {voter} {word}{mark}")
}

// How many votes count and approve.
fn approvals(votes: &[VoteRow]) -> usize
    ensures { result ≡ count_by is_approval votes.now }
{
    votes.iter().filter(|vote| vote.is_approval()).count()
}

// How many votes count and reject.
fn rejections(votes: &[VoteRow]) -> usize
    ensures { result ≡ count_by is_rejection votes.now }
{
    votes.iter().filter(|vote| vote.is_rejection()).count()
}

/// Adds how many of the votes count, by what they say.
pub(crate) fn push_tally(text: &mut String, votes: &[VoteRow]) -> Result<(), AllocError>
    ensures { OnOk result (AddsLines text.old text.new (tally_lines votes.now)) }
{
    push_count(text, "approvals: ", approvals(votes))?;
    push_count(text, "rejections: ", rejections(votes))?;
    Ok(())
}
