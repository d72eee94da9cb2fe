//! Decimal numbers.

ghost use Rattle.std.specs.Prelude.{◌≡◌, ◌≤◌, None, Some, min, if◌then◌else◌};
ghost use Rattle.std.specs.Str.Parse.{digits_value};
ghost use Rattle.http_requests.specs.Numbers.{is_number};

/// The number that decimal digits write, or `cap` where it is greater. None where the text is none.
pub(crate) fn decimal(text: &[u8], cap: u32) -> Option<u32>
    requires { cap ≤ 400000000 }
    ensures { result
        ≡ (if is_number text.now then Some (min (digits_value 10 text.now) cap) else None) }
{
    if text.is_empty() {
        return None;
    }
    let mut n = 0u32;
    for b in text {
        if !b.is_ascii_digit() {
            return None;
        }
        n = (n * 10 + u32::from(*b - b'0')).min(cap);
    }
    Some(n)
}
