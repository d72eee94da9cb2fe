//! The route of a target.

ghost use Rattle.std.specs.Prelude.{◌≡◌, IfOk, IsUtf8, option_map};
ghost use Rattle.http_requests.specs.Heard.{HasRoute};
ghost use Rattle.http_requests.specs.Parts.{part_at};
ghost use Rattle.http_requests.specs.Targets.{answer_of, of_before, of_profile, of_query};
ghost use Rattle.http_requests.specs.Targets.{of_revision, of_revisions, of_team, resource_at};
ghost use Rattle.http_requests.specs.Targets.{resource_of, resource_with};

use crate::form::Form;
use crate::method::Method;
use crate::parameter::{name, revision_number, word};
use crate::part::split_part;
use crate::query::{before_of, split_query};
use crate::refusal::Refusal;
use crate::resource::Resource;
use crate::route::{ProfileAsk, RevisionAsk, Route};
use crate::router::OfficeRouter;
use crate::unheard::Unheard;
use std::alloc::{AllocError, Global};
use std::str;

/// The route of a target and a method, both as written: nothing is decoded.
///
/// # Errors
///
/// [`Refusal::NoRoute`] where the target isn't UTF-8; where the parts of its path between slashes
/// aren't those of a route, with words for team and profile and a number from 1 to 9,999 without
/// leading zeros; or where it has a query, other than that of such a number for the revisions of a
/// profile. Else [`Refusal::WrongMethod`] where the target has other methods. Out of memory may come
/// in place of any answer.
pub(crate) fn find_route(
    alloc: Global,
    router: &OfficeRouter,
    method: &[u8],
    target: &[u8],
) -> Result<Route, Unheard>
    ensures { IsUtf8 target.now → HasRoute (answer_of method.now (resource_of target.now)) result }
{
    let resource = resource_of(alloc, router, target)?;
    Ok(route_for(method, resource)?)
}

// What a method asks of what a target names.
fn route_for(method: &[u8], resource: Option<Resource>) -> Result<Route, Refusal>
    ensures { result ≡ answer_of method.now resource }
{
    match resource {
        Some(resource) => resource.route(Method::from_name(method)),
        None => Err(Refusal::NoRoute),
    }
}

// What a target names.
fn resource_of(
    alloc: Global,
    router: &OfficeRouter,
    target: &[u8],
) -> Result<Option<Resource>, AllocError>
    ensures { IsUtf8 target.now → IfOk result (λ named. named ≡ resource_of target.now) }
{
    let Ok(text) = str::from_utf8(target) else {
        return Ok(None);
    };
    let (path, query) = split_query(text);
    match router.form_of(path) {
        Some(form) => resource_at(alloc, form, path.as_bytes(), query),
        None => Ok(None),
    }
}

// What a path of this form and a query name.
fn resource_at(
    alloc: Global,
    form: Form,
    path: &[u8],
    query: Option<&str>,
) -> Result<Option<Resource>, AllocError>
    ensures { IfOk result (λ named. named
        ≡ resource_at path.now (option_map (λ query. query.now) query.entry) form) }
{
    let (team, profile, number) = parameters(path);
    match query {
        Some(query) => of_query(alloc, form, team, profile, query.as_bytes()),
        None => resource_with(alloc, form, team, profile, number),
    }
}

// The parts of a path at the places of team, profile and number.
fn parameters(path: &[u8]) -> (&[u8], &[u8], &[u8])
    ensures team { part_at path.now 2 ≡ result.0.now }
    ensures profile { part_at path.now 3 ≡ result.1.now }
    ensures number { part_at path.now 4 ≡ result.2.now }
{
    let (_, rest) = split_part(path);
    let (_, rest) = split_part(rest);
    let (team, rest) = split_part(rest);
    let (profile, rest) = split_part(rest);
    let (number, _) = split_part(rest);
    (team, profile, number)
}

// What a path of this form with these parameters names, with no query.
fn resource_with(
    alloc: Global,
    form: Form,
    team: &[u8],
    profile: &[u8],
    number: &[u8],
) -> Result<Option<Resource>, AllocError>
    ensures { IfOk result (λ named. named ≡ resource_with form team.now profile.now number.now) }
{
    match form {
        Form::OfUsers => Ok(Some(Resource::One(Route::Users))),
        Form::OfMe => Ok(Some(Resource::One(Route::Me))),
        Form::OfTeam => of_team(alloc, team),
        Form::OfRevisions => of_revisions(alloc, team, profile),
        Form::OfProfile(act) => of_profile(alloc, act, team, profile),
        Form::OfRevision(act) => of_revision(alloc, act, team, profile, number),
    }
}

// What a path of this form with these parameters names with a query, which the revisions of a
// profile alone have.
fn of_query(
    alloc: Global,
    form: Form,
    team: &[u8],
    profile: &[u8],
    query: &[u8],
) -> Result<Option<Resource>, AllocError>
    ensures { IfOk result (λ named. named ≡ of_query form team.now profile.now query.now) }
{
    match form {
        Form::OfRevisions => of_before(alloc, team, profile, query),
        Form::OfUsers | Form::OfMe | Form::OfTeam | Form::OfProfile(_) | Form::OfRevision(_) => Ok(
            None,
        ),
    }
}

// The profiles of a team.
fn of_team(alloc: Global, team: &[u8]) -> Result<Option<Resource>, AllocError>
    ensures { IfOk result (λ named. named ≡ of_team team.now) }
{
    match word(alloc, team)? {
        Some(team) => Ok(Some(Resource::One(Route::Team(team)))),
        None => Ok(None),
    }
}

// The revisions of a profile.
fn of_revisions(alloc: Global, team: &[u8], profile: &[u8]) -> Result<Option<Resource>, AllocError>
    ensures { IfOk result (λ named. named ≡ of_revisions team.now profile.now) }
{
    match name(alloc, team, profile)? {
        Some(name) => Ok(Some(Resource::Revisions(name))),
        None => Ok(None),
    }
}

// The revisions of a profile before the number that a query has.
fn of_before(
    alloc: Global,
    team: &[u8],
    profile: &[u8],
    query: &[u8],
) -> Result<Option<Resource>, AllocError>
    ensures { IfOk result (λ named. named ≡ of_before team.now profile.now query.now) }
{
    let Some(number) = before_of(query) else {
        return Ok(None);
    };
    match name(alloc, team, profile)? {
        Some(name) => Ok(Some(Resource::One(Route::Revisions(name, Some(number))))),
        None => Ok(None),
    }
}

// A profile.
fn of_profile(
    alloc: Global,
    act: ProfileAsk,
    team: &[u8],
    profile: &[u8],
) -> Result<Option<Resource>, AllocError>
    ensures { IfOk result (λ named. named ≡ of_profile act team.now profile.now) }
{
    match name(alloc, team, profile)? {
        Some(name) => Ok(Some(Resource::One(Route::Profile(act, name)))),
        None => Ok(None),
    }
}

// A revision.
fn of_revision(
    alloc: Global,
    act: RevisionAsk,
    team: &[u8],
    profile: &[u8],
    number: &[u8],
) -> Result<Option<Resource>, AllocError>
    ensures { IfOk result (λ named. named ≡ of_revision act team.now profile.now number.now) }
{
    let Some(number) = revision_number(number) else {
        return Ok(None);
    };
    match name(alloc, team, profile)? {
        Some(name) => Ok(Some(Resource::One(Route::Revision(act, name, number)))),
        None => Ok(None),
    }
}
