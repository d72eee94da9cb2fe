//! What a review sheet shows.

use cap_sets::Caps;
use office_words::{State, VoteRow, Word};
use profile_text::Profile;
use std::marker::Model;

/// What a review sheet shows of a revision.
#[derive(Drop)]
pub struct SheetFacts<'a> {
    /// The team of its profile.
    pub team: &'a Word,
    /// The name of its profile within the team.
    pub profile: &'a Word,
    /// Its number, from 1.
    pub number: u32,
    /// Where it stands.
    pub state: State,
    /// SHA-256 of its canonical text.
    pub digest: [u8; 32],
    /// The adopted revision that it is compared with, by the name of its profile and its number;
    /// none where it is compared with the closed profile.
    pub baseline: Option<(Word, u32)>,
    /// The document that it is compared with.
    pub base: &'a Profile,
    /// Its own document.
    pub shown: &'a Profile,
    /// The capabilities that the office lists.
    pub listed: Caps,
    /// Its standing votes, by voter.
    pub votes: Vec<VoteRow>,
}

impl<'a> Model for SheetFacts<'a> {
    ghost use Rattle.review_sheet.specs.Facts.{SheetValue};

    ghost Value = { SheetValue };

    ghost view = { λ f. record {
      team = f.team.now;
      profile = f.profile.now;
      number = f.number;
      state = f.state;
      digest = f.digest;
      baseline = f.baseline;
      base = f.base.now;
      shown = f.shown.now;
      listed = f.listed;
      votes = f.votes.items;
    } };
}
