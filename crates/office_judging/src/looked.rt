//! What has been looked up for the rules of a request, each part once.

ghost use Rattle.std.specs.Prelude.{◌≡◌, OnOk, IsTrue};
ghost use Rattle.sqlite.specs.Held.{state};
ghost use Rattle.sqlite.specs.State.{HasCleanDisk};
ghost use Rattle.office_store.specs.Calls.{IsRead};
ghost use Rattle.office_store.specs.Shown.{IsIdle};
ghost use Rattle.office_judging.specs.Memo.{Learns, IsPartOf, asks, is_askable, is_there};
ghost use Rattle.office_judging.specs.Memo.{issued_part, revision_part};
ghost use Rattle.office_judging.specs.declared.looked.Looked.{Looked as Memo};

use crate::asking::{number_in, profile_in};
use office_store::{
    Brief, Summary, has_revision, is_author, is_held, issued, issued_brief, revision, summary_at,
};
use office_words::{Fault, RevisionRow, UserRow};
use review_policy::{Ask, ProfileView, Rule};
use sqlite::{Alter, Connection};
use std::alloc::Global;

// A part of what the rules ask of the store.
#[derive(Clone, Copy)]
pub(crate) enum Part {
    // The caller and the request say it.
    Nothing,
    // The revision, without its text.
    Summary,
    // The revision with its text.
    Revision,
    // Whether the caller is an author of the profile.
    Authorship,
    // The issued revision of the profile.
    Issued,
    // The issued revision of the profile, without its text.
    Brief,
    // Whether the profile has no revision.
    Profile,
    // Whether the profile is held.
    Hold,
}

// The part that a rule asks of a revision, which is seen with its text.
fn revision_part(ask: &Ask) -> Part
    ensures { result ≡ revision_part ask.now }
{
    match ask {
        Ask::SeeRevision { .. } => Part::Revision,
        _ => Part::Summary,
    }
}

// The part that a rule asks of the issued revision, which is fetched with its text.
fn issued_part(ask: &Ask) -> Part
    ensures { result ≡ issued_part ask.now }
{
    match ask {
        Ask::SeeProfile {
            view: ProfileView::Fetch,
            ..
        } => Part::Issued,
        _ => Part::Brief,
    }
}

// The part that a rule asks.
fn asks(ask: &Ask, rule: Rule) -> Part
    ensures { result ≡ asks ask.now rule }
{
    match rule {
        Rule::NoRevision | Rule::NotOpen | Rule::NotStanding | Rule::NotIssued => {
            revision_part(ask)
        }
        Rule::OtherBytes => Part::Summary,
        Rule::AuthorVotes | Rule::AuthorAdopts => Part::Authorship,
        Rule::NothingIssued => issued_part(ask),
        Rule::NoProfile => Part::Profile,
        Rule::AlreadyHeld | Rule::NotHeld | Rule::Held => Part::Hold,
        _ => Part::Nothing,
    }
}

// What has been looked up so far.
#[derive(Drop)]
pub(crate) struct Looked {
    pub(crate) summary: Option<Option<Summary>>,
    pub(crate) revision: Option<Option<RevisionRow>>,
    pub(crate) is_author: Option<bool>,
    pub(crate) issued: Option<Option<RevisionRow>>,
    pub(crate) brief: Option<Option<Brief>>,
    pub(crate) no_profile: Option<bool>,
    pub(crate) held: Option<bool>,
}

impl Looked {
    pub(crate) const NOTHING: Looked = Looked {
        summary: None,
        revision: None,
        is_author: None,
        issued: None,
        brief: None,
        no_profile: None,
        held: None,
    };

    // Whether a part has been looked up.
    fn has(&self, part: Part) -> bool
        ensures { result ≡ is_there self.now part }
    {
        match part {
            Part::Nothing => true,
            Part::Summary => self.summary.is_some(),
            Part::Revision => self.revision.is_some(),
            Part::Authorship => self.is_author.is_some(),
            Part::Issued => self.issued.is_some(),
            Part::Brief => self.brief.is_some(),
            Part::Profile => self.no_profile.is_some(),
            Part::Hold => self.held.is_some(),
        }
    }

    // Looks up what a rule asks, unless that has been done.
    pub(crate) fn look<S: Alter>(
        &mut self,
        alloc: Global,
        conn: &mut Connection<S>,
        caller: &UserRow,
        ask: &Ask,
        rule: Rule,
    ) -> Result<(), Fault>
        requires askable { IsTrue (is_askable ask.now rule) }
        requires idle { IsIdle (state S.Store conn.old) }
        requires is_open { HasCleanDisk (state S.Store conn.old)
            → IsTrue (state S.Store conn.old).is_open }
        ensures read { IsRead (state S.Store conn.old) (state S.Store conn.new) result
            (λ t done. Learns caller.now ask.now t self.old self.new) }
        ensures kept { (m : Memo) → IsPartOf self.new m → IsPartOf self.old m }
        ensures there { OnOk result (IsTrue (is_there self.new (asks ask.now rule))) }
    {
        let part = asks(ask, rule);
        if self.has(part) {
            return Ok(());
        }
        let name = profile_in(ask);
        let number = number_in(ask);
        match part {
            Part::Nothing => {}
            Part::Summary => self.summary = Some(summary_at(conn, name, number)?),
            Part::Revision => self.revision = Some(revision(alloc, conn, name, number)?),
            Part::Authorship => self.is_author = Some(is_author(conn, name, &caller.name)?),
            Part::Issued => self.issued = Some(issued(alloc, conn, name)?),
            Part::Brief => self.brief = Some(issued_brief(conn, name)?),
            Part::Profile => self.no_profile = Some(!has_revision(conn, name)?),
            Part::Hold => self.held = Some(is_held(conn, name)?),
        }
        Ok(())
    }
}
