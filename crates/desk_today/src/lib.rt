//! The word `today` in a request, and the day that it stands for.
//!
//! `day_at` is the day that a clock in a time zone shows at an instant (`specs/Days.antt`), as ISO
//! 8601-1 writes it. `mentions_today` says whether a request in words has `day=today` or
//! `until=today`, and `with_day` writes a day in their place (`specs/Words.antt`). `today` is the day
//! that the system's clock shows in the system's zone.
#![tactic(auto)]

mod clock;
mod day;
mod words;

pub use clock::today;
pub use day::{NoDay, day_at};
pub use words::{mentions_today, with_day};
