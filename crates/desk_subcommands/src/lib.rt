//! The subcommands of the desk, each a function over what it reads and writes.
//!
//! A subcommand is given its values, a desk if it works on one, and a writer. It writes what its
//! definition says and returns the program's status: 0 done, 1 refused. A failure says why the
//! subcommand could not do its work, and has a status of its own. The contracts are the same over
//! any desk, reader and writer, so they hold for the desk in memory and for the one in a file.
//!
//! - `check` judges a choice of terms (`specs/Report.antt`), and `alternatives` lists the possible
//!   choices (`specs/Listing.antt`).
//! - `script` replies to requests, and `Explainer` says in words which lines aren't carried out.
//!   `import` and `catalogue` carry out one request each (`specs/Filing.antt`).
//! - `tell_report` writes what an audit reports (`specs/Auditing.antt`), and `tell_migration`
//!   between which versions a file was migrated (`specs/Migrating.antt`).
//! - `gather` writes the document of a tree of files (`specs/Gathering.antt`), and `lint` what is
//!   wrong in it (`specs/Linting.antt`).
//! - `convert` writes the tag-value document that says the same as one in JSON
//!   (`specs/Converting.antt`).
//! - `explain` writes what a name means (`specs/Meaning.antt`).
//! - `tell` writes the reply to a request, and a `Teller` says in words why it was refused.
//!   `desk_views` has the subcommands that show what a desk holds or propose.
//! - `Failure` and `Trouble` say in words what failed, and what to do.
#![tactic(auto)]

mod auditing;
mod checking;
mod converting;
mod explaining;
mod failure;
mod filing;
mod gathering;
mod linting;
mod listing;
mod meaning;
mod migrating;
mod report;
mod scripting;
mod teller;
mod trouble;

pub use auditing::tell_report;
pub use checking::check;
pub use converting::{convert, tell_look};
pub use explaining::Explainer;
pub use failure::Failure;
pub use filing::{
    NoDesk, catalogue, import, refuse_catalogue, refuse_database, tell, text_of, write_line,
    write_text,
};
pub use gathering::{Title, gather};
pub use linting::{lint, tell_blanks};
pub use listing::alternatives;
pub use meaning::explain;
pub use migrating::tell_migration;
pub use scripting::script;
pub use teller::Teller;
pub use trouble::{PortTrouble, Trouble};
