//! What a route and a body ask.

ghost use Rattle.json_requests.specs.Faults.{Gives};
ghost use Rattle.json_requests.specs.Plain.{plain_ask};
ghost use Rattle.http_requests.specs.Asks.{asked_of, of_profile, of_revision, without_body};

use crate::route::{ProfileAsk, RevisionAsk, Route};
use json_requests::{LineFault, read_enrol, read_vote};
use json_tree::Scratch;
use office_words::ProfileName;
use review_policy::Ask;
use std::alloc::Global;

// What has no body, with this one.
fn without_body(ask: Ask, body: &[u8]) -> Result<Ask, LineFault>
    ensures { Gives plain_ask result (without_body body.now (plain_ask ask)) }
{
    if body.is_empty() {
        Ok(ask)
    } else {
        Err(LineFault::NotARequest)
    }
}

// What is asked of a profile.
fn of_profile(asked: ProfileAsk, name: ProfileName, body: &[u8]) -> Result<Ask, LineFault>
    ensures { Gives plain_ask result (of_profile asked name body.now) }
{
    match asked {
        ProfileAsk::Act(act) => without_body(Ask::ActOnProfile { act, name }, body),
        ProfileAsk::See(view) => without_body(Ask::SeeProfile { view, name }, body),
    }
}

// What is asked of a revision.
fn of_revision(
    alloc: Global,
    asked: RevisionAsk,
    name: ProfileName,
    revision: u32,
    body: &[u8],
    scratch: &mut Scratch,
) -> Result<Ask, LineFault>
    ensures { Gives plain_ask result (of_revision asked name revision body.now) }
{
    match asked {
        RevisionAsk::Vote => read_vote(alloc, name, revision, body, scratch),
        RevisionAsk::Act(act) => {
            let ask = Ask::ActOnRevision {
                act,
                name,
                revision,
            };
            without_body(ask, body)
        }
        RevisionAsk::See(view) => {
            let ask = Ask::SeeRevision {
                view,
                name,
                revision,
            };
            without_body(ask, body)
        }
    }
}

/// What a request with this route and this body asks. Of an enrolment the body is an object of just
/// `user`, `team`, `roles` and `digest`; of a vote one of just `digest` and `vote`; of a submission
/// it is the document, whatever its bytes; and of all else it is empty.
///
/// # Errors
///
/// `NotARequest` where the body isn't so; `NoMemory`, which may stand in place of any answer.
pub(crate) fn ask_of(
    alloc: Global,
    route: Route,
    body: Vec<u8>,
    scratch: &mut Scratch,
) -> Result<Ask, LineFault>
    ensures { Gives plain_ask result (asked_of route body.items) }
{
    match route {
        Route::Users => read_enrol(alloc, &body, scratch),
        Route::Me => without_body(Ask::Me, &body),
        Route::Team(team) => without_body(Ask::List { team }, &body),
        Route::Revisions(name, before) => without_body(Ask::Revisions { name, before }, &body),
        Route::Submit(name) => Ok(Ask::Submit {
            name,
            document: body,
        }),
        Route::Profile(asked, name) => of_profile(asked, name, &body),
        Route::Revision(asked, name, number) => of_revision(
            alloc, asked, name, number, &body, scratch,
        ),
    }
}
