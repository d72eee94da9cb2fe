//! The bodies of requests, with just the members that neither a path nor a field gives.

ghost use Rattle.json_tree.specs.View.{view};
ghost use Rattle.json_requests.specs.Bodies.{enrol_body, vote_body, enrol_in, vote_in};
ghost use Rattle.json_requests.specs.Faults.{Gives};
ghost use Rattle.json_requests.specs.Plain.{plain_ask};
ghost use Rattle.json_requests.specs.Requests.{value_of};

use crate::ask::enrol_of;
use crate::fault::LineFault;
use crate::member::{digest_of, vote_of};
use crate::object::only;
use json_tree::{ReadFault, Scratch, Tree};
use office_words::ProfileName;
use review_policy::Ask;
use std::alloc::Global;

// The value that a body is.
fn value_of<'a>(
    alloc: Global,
    body: &'a [u8],
    scratch: &'a mut Scratch,
) -> Result<Tree<'a>, LineFault>
    ensures { Gives view result (value_of body.now) }
{
    match Tree::from_slice(alloc, body, scratch) {
        Ok(value) => Ok(value),
        Err(ReadFault::NotJson) => Err(LineFault::NotARequest),
        Err(ReadFault::NoMemory(witness)) => Err(LineFault::NoMemory(witness)),
    }
}

// The enrolment that a value is.
#[tactic(auto, unfolding(crate::specs::Bodies::enrol_body))]
fn enrol_at(alloc: Global, value: &Tree<'_>) -> Result<Ask, LineFault>
    ensures { Gives plain_ask result (enrol_body (view value.now)) }
{
    only(&["user", "team", "roles", "digest"], value)?;
    enrol_of(alloc, value)
}

// The vote on a revision that a value is.
#[tactic(auto, unfolding(crate::specs::Bodies::vote_body))]
fn vote_at(name: ProfileName, revision: u32, value: &Tree<'_>) -> Result<Ask, LineFault>
    ensures { Gives plain_ask result (vote_body name revision (view value.now)) }
{
    let digest = digest_of(value)?;
    let approve = vote_of(value)?;
    only(&["digest", "vote"], value)?;
    Ok(Ask::Vote {
        name,
        revision,
        digest,
        approve,
    })
}

/// The enrolment that a body asks: an object of just `user`, `team`, `roles` and `digest`, each as
/// in a line. A scratch is kept from body to body.
///
/// # Errors
///
/// `NotARequest` where it is none, also where it is no JSON; `NoMemory`, which may stand in place
/// of any answer.
pub fn read_enrol(alloc: Global, body: &[u8], scratch: &mut Scratch) -> Result<Ask, LineFault>
    ensures { Gives plain_ask result (enrol_in body.now) }
{
    let value = value_of(alloc, body, scratch)?;
    enrol_at(alloc, &value)
}

/// The vote on this revision that a body asks: an object of just `digest` and `vote`, each as in a
/// line. A scratch is kept from body to body.
///
/// # Errors
///
/// `NotARequest` where it is none, also where it is no JSON; `NoMemory`, which may stand in place
/// of any answer.
pub fn read_vote(
    alloc: Global,
    name: ProfileName,
    revision: u32,
    body: &[u8],
    scratch: &mut Scratch,
) -> Result<Ask, LineFault>
    ensures { Gives plain_ask result (vote_in name revision body.now) }
{
    let value = value_of(alloc, body, scratch)?;
    vote_at(name, revision, &value)
}
