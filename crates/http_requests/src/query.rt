//! The query of a target.

ghost use Rattle.std.specs.Prelude.{◌≡◌, option_map};
ghost use Rattle.http_requests.specs.Queries.{before_of, path_of, query_of};

use crate::parameter::revision_number;
use crate::same::is_same;

/// The path of a target, and the query behind its first question mark where there is one (RFC 3986,
/// section 3.4).
pub(crate) fn split_query(target: &str) -> (&str, Option<&str>)
    ensures path { path_of target.now ≡ result.0.now }
    ensures query { query_of target.now ≡ option_map (λ query. query.now) result.1 }
{
    match target.split_once('?') {
        Some((path, query)) => (path, Some(query)),
        None => (target, None),
    }
}

/// The number N of the query `before=N`: 1 to 9,999 without leading zeros. None where the query is
/// another.
pub(crate) fn before_of(query: &[u8]) -> Option<u32>
    ensures { result ≡ before_of query.now }
{
    if query.len() >= 7 && is_same(&query[..7], b"before=") {
        revision_number(&query[7..])
    } else {
        None
    }
}
