//! Values in the form that a statement takes.

ghost use Rattle.std.specs.Prelude.{◌≡◌, if◌then◌else◌};
ghost use Rattle.desk_base.specs.Profiles.{profile_number};
ghost use Rattle.desk_model.specs.Names.{release_state_name, duty_state_name, word_name};
ghost use Rattle.sqlite_value.specs.Value.{owned};
ghost use Rattle.sqlite.specs.Values.{bound_value};
ghost use Rattle.sqlite_value.specs.declared.value.Value.TheVariants.{Text as Words, Blob};
ghost use Rattle.desk_sql_layout.specs.Cells.{number, text_or_null};

use desk_base::{Day, Profile, Text};
use desk_model::{DutyState, ReleaseState, Word};
use sqlite_value::value::ValueRef;

/// A number.
pub fn number(n: u32) -> ValueRef<'static>
    ensures { bound_value (owned result) ≡ number n }
{
    ValueRef::Int(i64::from(n))
}

/// A text.
pub fn text<'a>(text: &'a Text) -> ValueRef<'a>
    ensures { bound_value (owned result) ≡ Words text.now }
{
    let bytes = text.as_str().as_bytes();
    ValueRef::Text(bytes)
}

/// A text, or NULL if there is none.
pub fn text_or_null<'a>(text: &'a Option<Text>) -> ValueRef<'a>
    ensures { bound_value (owned result) ≡ text_or_null text.now }
{
    match text {
        Some(text) => ValueRef::Text(text.as_str().as_bytes()),
        None => ValueRef::Null,
    }
}

/// 1 if something is so, otherwise 0.
pub fn flag(is: bool) -> ValueRef<'static>
    ensures { bound_value (owned result) ≡ number (if is then 1 else 0) }
{
    ValueRef::Int(if is { 1 } else { 0 })
}

/// The number of a profile.
pub fn profile(profile: Profile) -> ValueRef<'static>
    ensures { bound_value (owned result) ≡ number (profile_number profile) }
{
    match profile {
        Profile::Capitals => ValueRef::Int(1),
        Profile::Either => ValueRef::Int(2),
    }
}

/// A day.
pub fn day<'a>(day: &'a Day) -> ValueRef<'a>
    ensures { bound_value (owned result) ≡ Words day.now }
{
    let written = day.as_bytes();
    ValueRef::Text(written)
}

/// A day, or NULL if there is none.
pub fn day_or_null<'a>(day: &'a Option<Day>) -> ValueRef<'a>
    ensures { bound_value (owned result) ≡ text_or_null day.now }
{
    match day {
        Some(day) => ValueRef::Text(day.as_bytes()),
        None => ValueRef::Null,
    }
}

/// The word for the state of a release.
pub fn release_state(state: ReleaseState) -> ValueRef<'static>
    ensures { bound_value (owned result) ≡ Words (release_state_name state) }
{
    ValueRef::Text(state.name().as_bytes())
}

/// The word for the state of a duty.
pub fn duty_state(state: DutyState) -> ValueRef<'static>
    ensures { bound_value (owned result) ≡ Words (duty_state_name state) }
{
    let name = state.name();
    ValueRef::Text(name.as_bytes())
}

/// The word for a change.
pub fn word(word: Word) -> ValueRef<'static>
    ensures { bound_value (owned result) ≡ Words (word_name word) }
{
    ValueRef::Text(word.name().as_bytes())
}
