//! The values of a head's fields by their names.

ghost use Rattle.std.specs.Prelude.{◌≡◌, ℕ, List, length, map, All};
ghost use Rattle.httparse.specs.Spans.{header_bytes, span_bytes, IsHeaderWithin, IsWithin};
ghost use Rattle.http_requests.specs.Fields.{is_named, next, same_in_any_case, shown, values_of};
ghost use Rattle.http_requests.specs.Fields.{IsFoundWithin};

use httparse::spans::{HeaderSpan, Span};

/// The value of the fields of a name.
#[derive(Clone, Copy)]
pub(crate) enum Found {
    /// There is no such field.
    Absent,
    /// There is one, with its value here.
    One(Span),
    /// There are two or more.
    Several,
}

impl Found {
    // The same with one more value.
    fn and(self, value: Span) -> Found
        ensures within { (n : ℕ) → IsFoundWithin n self → IsWithin n value
            → IsFoundWithin n result }
        ensures shown { (bytes : List ℕ)
            → shown bytes result ≡ next (shown bytes self) (span_bytes bytes value) }
    {
        match self {
            Found::Absent => Found::One(value),
            Found::One(_) | Found::Several => Found::Several,
        }
    }
}

// The value of the fields of this name, in any case.
pub(crate) fn value_of(bytes: &[u8], headers: &[HeaderSpan], name: &[u8]) -> Found
    requires { All (IsHeaderWithin (length bytes.now)) headers.now }
    ensures within { IsFoundWithin (length bytes.now) result }
    ensures values { shown bytes.now result
        ≡ values_of name.now (map (header_bytes bytes.now) headers.now) }
{
    let mut found = Found::Absent;
    for header in headers {
        if has_name(bytes, header, name) {
            found = found.and(header.value);
        }
    }
    found
}

// Whether a header has this name, in any case.
fn has_name(bytes: &[u8], header: &HeaderSpan, name: &[u8]) -> bool
    requires { IsHeaderWithin (length bytes.now) header.now }
    ensures { result ≡ is_named name.now (header_bytes bytes.now header.now) }
{
    same_in_any_case(header.name.of(bytes), name)
}

// Whether two texts are the same but for the case of their letters.
pub(crate) fn same_in_any_case(a: &[u8], b: &[u8]) -> bool
    ensures { result ≡ same_in_any_case a.now b.now }
{
    a.eq_ignore_ascii_case(b)
}
