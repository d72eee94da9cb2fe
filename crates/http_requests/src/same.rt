//! Whether two texts are the same.

ghost use Rattle.std.specs.Prelude.{◌≡◌, bytes_eq};

/// Whether two texts are the same.
pub(crate) fn is_same(a: &[u8], b: &[u8]) -> bool
    ensures { result ≡ bytes_eq a.now b.now }
{
    a == b
}
