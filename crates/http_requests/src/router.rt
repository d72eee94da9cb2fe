//! The router of the office.

ghost use Rattle.std.specs.Prelude.{◌≡◌, IfErr, OnOk, true, fold, map, option_map};
ghost use Rattle.matchit.specs.Seek.{first};
ghost use Rattle.http_requests.specs.Parts.{form_of};
ghost use Rattle.http_requests.specs.Table.{fits, office_rows, with_route};

use crate::form::Form;
use crate::route::{ProfileAsk, RevisionAsk};
use matchit::{InsertError, Router};
use no_memory::NoMemory;
use review_policy::{ProfileAct, ProfileView, RevisionAct, RevisionView};
use std::alloc::{AllocError, Global};

// The routes, with what each asks for.
static ROUTES: [(&str, Form); 14] = [
    ("/users", Form::OfUsers),
    ("/me", Form::OfMe),
    ("/p/{team}/{profile}", Form::OfRevisions),
    ("/p/{team}", Form::OfTeam),
    (
        "/p/{team}/{profile}/{n}",
        Form::OfRevision(RevisionAsk::See(RevisionView::Show)),
    ),
    (
        "/p/{team}/{profile}/{n}/sheet",
        Form::OfRevision(RevisionAsk::See(RevisionView::Sheet)),
    ),
    (
        "/p/{team}/{profile}/{n}/vote",
        Form::OfRevision(RevisionAsk::Vote),
    ),
    (
        "/p/{team}/{profile}/{n}/issue",
        Form::OfRevision(RevisionAsk::Act(RevisionAct::Issue)),
    ),
    (
        "/p/{team}/{profile}/{n}/withdraw",
        Form::OfRevision(RevisionAsk::Act(RevisionAct::Withdraw)),
    ),
    (
        "/p/{team}/{profile}/{n}/adopt",
        Form::OfRevision(RevisionAsk::Act(RevisionAct::Adopt)),
    ),
    (
        "/issued/{team}/{profile}",
        Form::OfProfile(ProfileAsk::See(ProfileView::Fetch)),
    ),
    (
        "/issued/{team}/{profile}/digest",
        Form::OfProfile(ProfileAsk::See(ProfileView::Issued)),
    ),
    (
        "/hold/{team}/{profile}",
        Form::OfProfile(ProfileAsk::Act(ProfileAct::Hold)),
    ),
    (
        "/release/{team}/{profile}",
        Form::OfProfile(ProfileAsk::Act(ProfileAct::Release)),
    ),
];

/// The router of the office's routes. It is made once, for all exchanges.
#[derive(Drop)]
pub struct OfficeRouter {
    router: Router<Form>,
    ghost routes: { router ≡ office_rows },
}

impl OfficeRouter {
    /// The router with the routes of the office.
    ///
    /// # Errors
    ///
    /// Out of memory. No contract can say when.
    pub fn new(alloc: Global) -> Result<OfficeRouter, AllocError> {
        let mut router = Router::new(alloc);
        match insert_all(&mut router, &ROUTES) {
            Ok(()) => Ok(OfficeRouter { router }),
            Err(InsertError::OutOfMemory) => Err(NoMemory::told().into()),
            Err(_) => unreachable!(),
        }
    }

    /// What a path asks for, whatever its parameters are.
    pub(crate) fn form_of(&self, path: &str) -> Option<Form>
        ensures { result ≡ form_of path.now }
    {
        look_up(&self.router, path)
    }
}

// Inserts the routes, none of which is ill-formed or in conflict with another.
fn insert_all(router: &mut Router<Form>, routes: &[(&str, Form)]) -> Result<(), InsertError>
    requires { fits router.old (map (λ e. (e.0.now, e.1)) routes.now) ≡ true }
    ensures ok { OnOk result (router.new
        ≡ fold with_route router.old (map (λ e. (e.0.now, e.1)) routes.now)) }
    ensures err { IfErr result (λ e. e ≡ InsertError.OutOfMemory) }
{
    for (text, form) in routes {
        router.insert(text, *form)?;
    }
    Ok(())
}

// What the router finds at a path.
fn look_up(router: &Router<Form>, path: &str) -> Option<Form>
    requires { router.now ≡ office_rows }
    ensures { result ≡ option_map (λ route. route.value) (first office_rows path.now) }
{
    match router.at(path) {
        Ok(found) => Some(*found.value),
        Err(_) => None,
    }
}
