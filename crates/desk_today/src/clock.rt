//! The day that the system's clock shows in the system's zone: the one that `TZ` names or, without
//! it, that of /etc/localtime. If there is none, or it isn't known, the zone is UTC.

ghost use Rattle.std.specs.Prelude.{IfOk, IfSome};
ghost use Rattle.desk_today.specs.Days.{IsSomeDay};

use crate::day::{NoDay, day_at};
use desk_base::Text;
use jiff::tz::{SystemTimeZone, TimeZone, TimeZoneDatabase};
use jiff::{Error, Timestamp};
use std::alloc::{AllocError, Global};
use std::rt::{Clock, Env, Files};

// What was found, or nothing.
fn found<T>(read: Result<T, Error>) -> Result<Option<T>, AllocError> {
    match read {
        Ok(value) => Ok(Some(value)),
        Err(Error::OutOfMemory) => Err(AllocError),
        Err(_) => Ok(None),
    }
}

// The day that a clock in a zone shows, if the calendar has one.
fn day_in(alloc: Global, seconds: i64, zone: &TimeZone<'_>) -> Result<Option<Text>, AllocError>
    ensures { IfOk result (λ found. IfSome found IsSomeDay) }
{
    match day_at(alloc, seconds, zone) {
        Ok(day) => Ok(Some(day)),
        Err(NoDay::Memory) => Err(AllocError),
        Err(NoDay::Range) => Ok(None),
    }
}

// The day in the system's zone, which is looked for among these zones.
fn day_among(
    alloc: Global,
    seconds: i64,
    system: &SystemTimeZone,
    zones: &TimeZoneDatabase,
) -> Result<Option<Text>, AllocError>
    ensures { IfOk result (λ found. IfSome found IsSomeDay) }
{
    match found(system.time_zone(zones))? {
        Some(zone) => day_in(alloc, seconds, &zone),
        None => Ok(None),
    }
}

// The day in the system's zone. All zones that are installed are read only if its own file doesn't
// say what it is.
fn day_by_system<R: Env + Files + AllocGlobal + Clone + Drop>(
    rt: &R,
    seconds: i64,
    system: &SystemTimeZone,
) -> Result<Option<Text>, AllocError>
    ensures { IfOk result (λ found. IfSome found IsSomeDay) }
{
    let none = TimeZoneDatabase::new(rt.alloc());
    if let Some(day) = day_among(rt.alloc(), seconds, system, &none)? {
        return Ok(Some(day));
    }
    match found(TimeZoneDatabase::from_env(rt))? {
        Some(zones) => day_among(rt.alloc(), seconds, system, &zones),
        None => Ok(None),
    }
}

/// The day of today, or nothing if the clock can't be read or shows no day of the calendar. The only
/// error is that no memory is left.
pub fn today<R: Clock + Env + Files + AllocGlobal + Clone + Drop>(
    rt: &R,
) -> Result<Option<Text>, AllocError>
    ensures { IfOk result (λ found. IfSome found IsSomeDay) }
{
    let Some(now) = found(Timestamp::now(rt))? else {
        return Ok(None);
    };
    let seconds = now.as_second();
    if let Some(system) = found(SystemTimeZone::read(rt))? {
        if let Some(day) = day_by_system(rt, seconds, &system)? {
            return Ok(Some(day));
        }
    }
    day_in(rt.alloc(), seconds, &TimeZone::UTC)
}
