//! Where a line ends.

ghost use Rattle.std.specs.Prelude.{◌≡◌, ◌≢◌, ◌<◌, ◌≤◌, ℕ, length, slice_index};

use memchr::memchr;

/// The place of the first line feed from a place on and before an end, or that end.
pub fn feed_from(bytes: &[u8], from: usize, end: usize) -> usize
    requires ordered { from ≤ end }
    requires in_bounds { end ≤ length bytes.now }
    ensures low { from ≤ result }
    ensures high { result ≤ end }
    ensures before { (k : ℕ) → from ≤ k → k < result → slice_index bytes.now k ≢ 10 }
    ensures at { result < end → slice_index bytes.now result ≡ 10 }
{
    match memchr(b'\n', &bytes[from..end]) {
        Some(place) => from + place,
        None => end,
    }
}
