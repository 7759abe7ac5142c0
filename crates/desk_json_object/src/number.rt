//! The number that a token of JSON writes, as `serde_json` reads it.

ghost use Rattle.std.specs.Prelude.{◌≡◌, true, false, option_map};
ghost use Rattle.serde_json.specs.Read.{number_of, number_from, float_of};
ghost use Rattle.serde_json.specs.View.{number_view};

use fast_float::Numeral;
use serde_json::Number;

// The nearest float, if it is in range.
fn float(numeral: &Numeral<'_>, is_negative: bool) -> Option<Number>
    ensures { option_map number_view result ≡ float_of is_negative numeral.now }
{
    Number::from_f64(numeral.to_float::<f64>(is_negative))
}

fn positive(numeral: &Numeral<'_>) -> Option<Number>
    ensures { option_map number_view result ≡ number_from false numeral.now }
{
    match numeral.to_u64() {
        Some(whole) => Some(Number::from(whole)),
        None => float(numeral, false),
    }
}

fn negative(numeral: &Numeral<'_>) -> Option<Number>
    ensures { option_map number_view result ≡ number_from true numeral.now }
{
    match numeral.to_i64(true) {
        Some(whole) if whole < 0 => Some(Number::from(whole)),
        _ => float(numeral, true),
    }
}

/// The number that a text writes: an integer of 64 bits, or else the nearest float; none if it is
/// too large for a float.
pub(crate) fn number_of(text: &str) -> Option<Number>
    ensures { option_map number_view result ≡ number_of text.now }
{
    let bytes = text.as_bytes();
    let Some((first, digits)) = bytes.split_first() else {
        return positive(&Numeral::scan(bytes));
    };
    if *first == b'-' {
        negative(&Numeral::scan(digits))
    } else {
        positive(&Numeral::scan(bytes))
    }
}
