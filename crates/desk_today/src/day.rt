//! The day that a clock shows.

ghost use Rattle.std.specs.Prelude.{◌≡◌, IfOk, IfErr, IfSome, IsNone};
ghost use Rattle.jiff_fmt.specs.Text.{date_text};
ghost use Rattle.jiff_core.specs.declared.civil.date.Date.{Date as Plain};
ghost use Rattle.jiff.specs.ZoneView.{plain_zone};
ghost use Rattle.desk_today.specs.Days.{IsFaultAt, ShowsDay};
ghost use Rattle.desk_today.specs.declared.day.NoDay.TheVariants.{Range};

use desk_base::Text;
use jiff::Timestamp;
use jiff::civil::Date;
use jiff::tz::TimeZone;
use std::alloc::{AllocError, Global};
use thiserror::Error;

/// Why there is no day.
#[derive(Clone, Copy, Debug, Drop, PartialEq, Eq, Error)]
pub enum NoDay {
    #[error("no memory is left")]
    Memory,
    /// The instant is outside the years of the calendar.
    #[error("the system's clock shows no day of the calendar")]
    Range,
}

impl From<AllocError> for NoDay {
    ghost use Rattle.std.specs.Prelude.{◌≡◌};
    ghost use Rattle.desk_today.specs.declared.day.NoDay.TheVariants.{Memory};

    ghost from_gives = { λ _ fault. fault ≡ Memory };

    fn from(_error: AllocError) -> NoDay {
        NoDay::Memory
    }
}

// The date that a clock in a time zone shows.
fn date_at(seconds: i64, zone: &TimeZone<'_>) -> Option<Date>
    ensures day { IfSome result (ShowsDay seconds (plain_zone zone.now)) }
    ensures none { IsNone result → IsFaultAt seconds Range }
{
    match Timestamp::from_second(seconds) {
        Ok(instant) => Some(zone.to_datetime(instant).date()),
        Err(_) => None,
    }
}

/// The day that a clock in a time zone shows so many seconds after 1970-01-01T00:00:00Z, as ISO
/// 8601-1 writes it: `YYYY-MM-DD` in the years 0000 to 9999.
///
/// # Errors
///
/// Out of memory, or an instant outside the years -9999 to 9999.
pub fn day_at(alloc: Global, seconds: i64, zone: &TimeZone<'_>) -> Result<Text, NoDay>
    ensures day { IfOk result (λ text. (date : Plain) × ShowsDay seconds (plain_zone zone.now) date
        × (text ≡ date_text date)) }
    ensures fault { IfErr result (IsFaultAt seconds) }
{
    match date_at(seconds, zone) {
        Some(date) => {
            let text = format!(in alloc; "{date}")?;
            Ok(Text::of(alloc, text.as_str())?)
        }
        None => Err(NoDay::Range),
    }
}
