//! The numbers of JSON.

ghost use Rattle.std.specs.Prelude.{◌≡◌, ◌==◌, ◌<◌, length, slice_index};
ghost use Rattle.std.specs.Prelude.{IsTrue, false, option_map, true};
ghost use Rattle.serde_json.specs.Find.{as_u64};
ghost use Rattle.serde_json.specs.Read.{float_of, number_from, number_of};
ghost use Rattle.json_tree.specs.View.{number_view};

use fast_float::Numeral;

/// A number: an integer of 64 bits, or a finite float.
#[derive(Clone, Copy, Drop)]
pub enum Number {
    Unsigned(u64),
    Negative(i64),
    Float(f64),
}

impl Number {
    /// The number, where it is a whole number from 0 to 2^64 - 1.
    pub fn as_u64(self) -> Option<u64>
        ensures { result ≡ as_u64 (number_view self) }
    {
        match self {
            Number::Unsigned(number) => Some(number),
            Number::Negative(_) | Number::Float(_) => None,
        }
    }

    // The number that a token writes, where it is in range.
    pub(crate) fn parse(text: &str) -> Option<Number>
        ensures { option_map number_view result ≡ number_of text.now }
    {
        let bytes = text.as_bytes();
        if has_minus(bytes) {
            Number::below_zero(&Numeral::scan(&bytes[1..]))
        } else {
            Number::from_zero(&Numeral::scan(bytes))
        }
    }

    fn from_zero(numeral: &Numeral<'_>) -> Option<Number>
        ensures { option_map number_view result ≡ number_from false numeral.now }
    {
        match numeral.to_u64() {
            Some(number) => Some(Number::Unsigned(number)),
            None => Number::nearest(false, numeral),
        }
    }

    fn below_zero(numeral: &Numeral<'_>) -> Option<Number>
        ensures { option_map number_view result ≡ number_from true numeral.now }
    {
        if let Some(number) = numeral.to_i64(true) {
            if number < 0 {
                return Some(Number::Negative(number));
            }
        }
        Number::nearest(true, numeral)
    }

    fn nearest(negative: bool, numeral: &Numeral<'_>) -> Option<Number>
        ensures { option_map number_view result ≡ float_of negative numeral.now }
    {
        let float = numeral.to_float::<f64>(negative);
        if float.is_finite() {
            Some(Number::Float(float))
        } else {
            None
        }
    }
}

fn has_minus(bytes: &[u8]) -> bool
    ensures value { result ≡ (slice_index bytes.now 0 == 45) }
    ensures not_empty { IsTrue result → 0 < length bytes.now }
{
    !bytes.is_empty() && bytes[0] == b'-'
}
