//! What targets name.

ghost use Rattle.std.specs.Prelude.{◌≡◌};
ghost use Rattle.http_requests.specs.Methods.{by_method, with_method};

use crate::method::{Method, Methods};
use crate::refusal::Refusal;
use crate::route::Route;
use office_words::ProfileName;

/// What a target names (RFC 9110, section 3.1).
#[derive(Drop)]
pub(crate) enum Resource {
    /// What this route asks for, by its one method.
    One(Route),
    /// The revisions of a profile, which are seen, and to which one is handed in.
    Revisions(ProfileName),
}

impl Resource {
    /// What is asked of it by a method.
    ///
    /// # Errors
    ///
    /// [`Refusal::WrongMethod`], with the methods that it has, where the method is none of them.
    pub(crate) fn route(self, method: Option<Method>) -> Result<Route, Refusal>
        ensures { result ≡ with_method self method }
    {
        match self {
            Resource::One(route) => route_by(route, method),
            Resource::Revisions(name) => match method {
                Some(Method::Get) => Ok(Route::Revisions(name, None)),
                Some(Method::Post) => Ok(Route::Submit(name)),
                None => Err(Refusal::WrongMethod(Methods::GetAndPost)),
            },
        }
    }
}

// The route, where the method is its own.
fn route_by(route: Route, method: Option<Method>) -> Result<Route, Refusal>
    ensures { result ≡ by_method method route }
{
    let allowed = route.method();
    if allowed.is_of(method) {
        Ok(route)
    } else {
        Err(Refusal::WrongMethod(Methods::only(allowed)))
    }
}
