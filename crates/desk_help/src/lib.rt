//! The words of `desk --help`: what each subcommand is for, as the command line, the manual page and
//! the completions show it. No contract covers them; `tests/acceptance` has them byte for byte.
#![tactic(auto)]

mod alternatives;
mod audit;
mod backup;
mod catalogue;
mod check;
mod convert;
mod credits;
mod explain;
mod freezing;
mod gaps;
mod gather;
mod import;
mod lint;
mod lists;
mod migrate;
mod propose;
mod ready;
mod reports;
mod script;
mod serve;
mod texts;
mod words;

pub use alternatives::ALTERNATIVES;
pub use audit::AUDIT;
pub use backup::BACKUP;
pub use catalogue::CATALOGUE;
pub use check::CHECK;
pub use convert::CONVERT;
pub use credits::CREDITS;
pub use explain::EXPLAIN;
pub use freezing::{CHOICES, WANTING};
pub use gaps::GAPS;
pub use gather::GATHER;
pub use import::IMPORT;
pub use lint::LINT;
pub use lists::LISTS;
pub use migrate::MIGRATE;
pub use propose::PROPOSE;
pub use ready::READY;
pub use reports::{CHANGES, DUTIES, NOTICES, PAGE, TOTALS};
pub use script::SCRIPT;
pub use serve::SERVE;
pub use texts::TEXTS;
pub use words::{ASK, DO};

/// The help of a subcommand.
#[derive(Clone, Copy)]
pub struct Help {
    /// One line, in the list of subcommands.
    pub about: &'static str,
    /// What it does, over its usage.
    pub long_about: &'static str,
    /// What follows its arguments: examples and statuses.
    pub after_help: &'static str,
}
