//! The methods that requests may have.

ghost use Rattle.std.specs.Prelude.{◌≡◌};
ghost use Rattle.http_requests.specs.Message.{method_text, methods_text};
ghost use Rattle.http_requests.specs.Methods.{is_method, method_named, only};

use crate::same::is_same;

/// The method of a request (RFC 9110, section 9).
#[derive(Clone, Copy)]
pub enum Method {
    /// To be shown something.
    Get,
    /// To have something done.
    Post,
}

impl Method {
    /// The method as requests name it, in capitals.
    pub fn as_str(self) -> &'static str
        ensures { result.now ≡ method_text self }
    {
        match self {
            Method::Get => "GET",
            Method::Post => "POST",
        }
    }

    /// The method of this name, as written.
    pub(crate) fn from_name(name: &[u8]) -> Option<Method>
        ensures { result ≡ method_named name.now }
    {
        if is_same(name, b"GET") {
            Some(Method::Get)
        } else if is_same(name, b"POST") {
            Some(Method::Post)
        } else {
            None
        }
    }

    /// Whether it is the method of a request, which has this one.
    pub(crate) fn is_of(self, method: Option<Method>) -> bool
        ensures { result ≡ is_method self method }
    {
        match (self, method) {
            (Method::Get, Some(Method::Get)) | (Method::Post, Some(Method::Post)) => true,
            _ => false,
        }
    }
}

/// The methods that a target has.
#[derive(Clone, Copy)]
pub enum Methods {
    Get,
    Post,
    GetAndPost,
}

impl Methods {
    /// Just this one.
    pub(crate) fn only(method: Method) -> Methods
        ensures { result ≡ only method }
    {
        match method {
            Method::Get => Methods::Get,
            Method::Post => Methods::Post,
        }
    }

    /// The methods as the field `Allow` names them (RFC 9110, section 10.2.1).
    pub fn as_str(self) -> &'static str
        ensures { result.now ≡ methods_text self }
    {
        match self {
            Methods::Get => "GET",
            Methods::Post => "POST",
            Methods::GetAndPost => "GET, POST",
        }
    }
}
