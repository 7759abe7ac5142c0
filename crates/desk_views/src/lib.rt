//! What an office looks at in a desk, written out: the texts of its answers, lists of what it
//! holds, what is proposed, what keeps a release from being frozen.
//!
//! Each function is given what it writes about and a writer, and returns the program's status, as
//! those of `desk_subcommands` do.
//!
//! - `answer_request` answers a request as a script does, or as a terminal shows the answer
//!   (`specs/Asking.antt`): `reply_to` is the reply, and `reply_in` writes it. `refuse_text` refuses
//!   a catalogue that isn't text. `number_held` is the number of a document that was imported before.
//! - `show` writes the text of an answer: notices, the table of duties, totals, changes
//!   (`specs/Showing.antt`). `show_ready` writes the duties that keep a release from being ready, and
//!   its status says whether there are any (`specs/Readying.antt`). `show_filled` writes notices with
//!   their gaps filled from files (`specs/Filling.antt`).
//! - `write_releases`, `write_documents` and `write_duties` write lists of `desk_lists` as
//!   comma-separated values or in columns (`specs/Listing.antt`).
//! - `page` writes a page on a release (`specs/Paging.antt`).
//! - `write_choices` writes choices as the requests that make them, and `tell_choices` writes them or
//!   why there are none (`specs/Choosing.antt`). `add_choices_for` adds those for a document to a
//!   text (`specs/Proposing.antt`).
//! - `tell_refusal` and `tell_fault` write the reply that a request is refused, or that the desk
//!   failed.
//! - `propose` writes the conclusions that are proposed for a document (`specs/Proposals.antt`), and
//!   `explain_document` says why there are none; `write_proposals` writes those for one that was
//!   read already, and `propose_held` those for one that a desk holds (`specs/Proposing.antt`).
//!   `document_row` finds it, and `open_releases` the releases for which choices of its packages
//!   are made.
//! - `tell_wanting` writes the refusals that keep a release from being frozen, one on each line
//!   (`specs/Wanting.antt`).
#![tactic(auto)]

mod asking;
mod choosing;
mod filling;
mod listing;
mod paging;
mod proposals;
mod proposing;
mod readying;
mod replying;
mod showing;
mod wanting;

pub use asking::{ReplyForm, answer_request, number_held, refuse_text, reply_in, reply_to};
pub use choosing::{add_choices_for, tell_choices, write_choices};
pub use filling::{Filling, show_filled};
pub use listing::{write_documents, write_duties, write_releases};
pub use paging::page;
pub use proposals::{explain_document, propose, refuse_document, write_proposals};
pub use proposing::{document_row, open_releases, propose_held};
pub use readying::show_ready;
pub use replying::{tell_fault, tell_refusal};
pub use showing::show;
pub use wanting::tell_wanting;
