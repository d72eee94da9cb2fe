//! Numbers in a file, the most significant byte first.

ghost use Rattle.std.specs.Prelude.{◌≡◌, ◌+◌, ◌<◌, ◌≤◌, ◌^◌, length};
ghost use Rattle.database_files.specs.Numbers.{long_at, short_at};

/// The number in two bytes.
pub(crate) fn short_at(bytes: &[u8], at: usize) -> u64
    requires { at + 2 ≤ length bytes.now }
    ensures value { result ≡ short_at bytes.now at }
    ensures bound { result < 2 ^ 16 }
{
    bytes[at] as u64 * 256 + bytes[at + 1] as u64
}

/// The number in four bytes.
pub(crate) fn long_at(bytes: &[u8], at: usize) -> u64
    requires { at + 4 ≤ length bytes.now }
    ensures value { result ≡ long_at bytes.now at }
    ensures bound { result < 2 ^ 32 }
{
    short_at(bytes, at) * 65536 + short_at(bytes, at + 2)
}
