//! Days as they are written (ISO 8601-1, 5.2.2.1, the extended format).

ghost use Rattle.std.specs.Prelude.{◌≡◌, ◌↔◌, IfSome, IsSome, IsTrue};
ghost use Rattle.desk_base.specs.Day.{is_day, exists, number_from};
ghost use Rattle.std.specs.Char.{is_ascii_digit};
ghost use Rattle.std.specs.Prelude.{ℕ, ◌<◌, ◌∷◌, []};
ghost use Rattle.std.specs.List.{list_all};

use jiff::civil::Date;
use std::marker::Model;

/// A day that exists, seen as its ten bytes `YYYY-MM-DD`. The order of these bytes is the order of
/// the days.
#[derive(Drop)]
pub struct Day {
    text: [u8; 10],
}

impl Model for Day {
    ghost use Rattle.std.specs.Prelude.{List, ℕ, IsTrue};
    ghost use Rattle.desk_base.specs.Day.{is_day};

    ghost Value = { List ℕ };

    ghost view = { λ d. d.text };

    ghost inverse = { λ bytes. record { text = bytes } };

    ghost invariant = { λ d. IsTrue (is_day d.text) };
}

impl Clone for Day {
    ghost is_clone = { λ a b. b ≡ a };

    fn clone(&self) -> Result<Day, std::alloc::AllocError> {
        Ok(*self)
    }
}

impl Copy for Day {}

/// Whether the calendar has the day.
fn exists(year: u16, month: u8, day: u8) -> bool
    requires year { year < 10000 }
    requires month { month < 100 }
    requires day { day < 100 }
    ensures { result ≡ exists year month day }
{
    Date::new(year as i16, month as i8, day as i8).is_ok()
}

/// The number below a hundred that two digits write.
fn two_digits(tens: u8, ones: u8) -> u8
    requires tens { IsTrue (is_ascii_digit tens) }
    requires ones { IsTrue (is_ascii_digit ones) }
    ensures value { result ≡ number_from 0 (tens ∷ ones ∷ []) }
    ensures bound { result < 100 }
{
    (tens - b'0') * 10 + (ones - b'0')
}

/// The number below ten thousand that four digits write.
fn four_digits(thousands: u8, hundreds: u8, tens: u8, ones: u8) -> u16
    requires thousands { IsTrue (is_ascii_digit thousands) }
    requires hundreds { IsTrue (is_ascii_digit hundreds) }
    requires tens { IsTrue (is_ascii_digit tens) }
    requires ones { IsTrue (is_ascii_digit ones) }
    ensures value { result ≡ number_from 0 (thousands ∷ hundreds ∷ tens ∷ ones ∷ []) }
    ensures bound { result < 10000 }
{
    let century = u16::from(thousands - b'0') * 10 + u16::from(hundreds - b'0');
    (century * 10 + u16::from(tens - b'0')) * 10 + u16::from(ones - b'0')
}

fn are_digits(bytes: &[u8]) -> bool
    ensures { result ≡ list_all is_ascii_digit bytes.now }
{
    bytes.iter().all(|byte| byte.is_ascii_digit())
}

/// Whether the ten bytes write a day that exists.
fn is_day(text: [u8; 10]) -> bool
    ensures { result ≡ is_day text }
{
    let [y, e, a, r, f, m, n, s, d, c] = text;
    if !are_digits(&[y, e, a, r, m, n, d, c]) {
        return false;
    }
    if f != b'-' {
        return false;
    }
    if s != b'-' {
        return false;
    }
    exists(four_digits(y, e, a, r), two_digits(m, n), two_digits(d, c))
}

impl Day {
    /// The day that the text writes as `YYYY-MM-DD`, if it does and the day exists.
    pub fn parse(text: &str) -> Option<Day>
        ensures found { IfSome result (λ d. d ≡ text.now) }
        ensures exact { IsSome result ↔ IsTrue (is_day text.now) }
    {
        let Ok(text) = <[u8; 10]>::try_from(text.as_bytes()) else {
            return None;
        };
        if is_day(text) {
            Some(Day { text })
        } else {
            None
        }
    }
}

impl Day {
    /// The day as it is written.
    pub fn as_bytes(&self) -> &[u8]
        ensures { result.now ≡ self.now }
    {
        &self.text
    }

    /// The day as it is written, as text.
    pub fn as_str(&self) -> &str
        ensures { result.now ≡ self.now }
    {
        match str::from_utf8(&self.text) {
            Ok(text) => text,
            // Digits and hyphens are text.
            Err(_) => unreachable!(),
        }
    }
}
