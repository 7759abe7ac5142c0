//! The command line of the desk: which subcommand its words name, with which values.
//!
//! `clap` reads the words, by a command that is a constant: `desk_app` of `specs/Words.antt`. Each
//! function here that builds a part of it states that part, so the contract of `line` is about
//! `clap`'s own reading of the words: the result is the call that they hold, and an error comes
//! exactly if they hold none.
//!
//! No contract covers the texts of help and usage.
#![tactic(auto)]

mod arguments;
mod call;
mod calls;
mod entries;
mod fields;
mod files;
mod lists;
mod propose;
mod reading;
mod reports;
mod script;
mod subcommands;
mod texts;
mod trees;
mod values;

pub use call::{Call, FileCall, LineFault, Listed, Package};
pub use reading::line;
