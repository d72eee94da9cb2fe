//! The parts of a path between slashes.

ghost use Rattle.std.specs.Prelude.{◌≡◌, ℕ, suc};
ghost use Rattle.http_requests.specs.Parts.{part_at};

// The first part of a path, and what follows its slash, which is empty where there is no slash.
pub(crate) fn split_part(path: &[u8]) -> (&[u8], &[u8])
    ensures first { part_at path.now 0 ≡ result.0.now }
    ensures rest { (k : ℕ) → part_at path.now (suc k) ≡ part_at result.1.now k }
{
    for (i, byte) in path.iter().enumerate() {
        if *byte == b'/' {
            return (&path[..i], &path[i + 1..]);
        }
    }
    (path, &path[path.len()..])
}
