//! The information of all files of a source tree (REUSE Specification 3.3): which annotations count
//! for a file, and what information these and the file itself give. The texts of annotations are
//! kept once.
//!
//! - At most one annotation counts for a file in each folder from the root to its own: the last that
//!   covers its path (`specs/Information.antt`, `last_annotation_counts`). The code goes down the
//!   folders once.
//! - A file's information is defined by cases: an override, or what the file states itself with the
//!   aggregates and the nearest `closest` annotation.
//! - What an annotation gives is kept once, however many files it counts for: each annotation has a
//!   number (`folders.rt`), and a file has its own texts and the numbers of the annotations that
//!   count (`specs/Sharing.antt`). Contracts see `Infos` as the list of the files' information; the
//!   texts of a file are joined only when it is asked for (`info_at`).
//! - `Infos::firsts` gives each text at the first file that has it (`specs/Firsts.antt`). It goes
//!   through each annotation once, so that questions about all files (their distinct texts, which
//!   licences they use, and which file names each first) take time and memory in proportion to the
//!   tree.
//! - Files come in the order of their paths, and what is looked up for one is used for the next:
//!   `Trail` keeps the annotations of the folders on the way.
//! - The definitions are over a `Reader`: the pieces of patterns, the licence expressions, the
//!   matches of paths and what files state themselves (`specs/Readers.antt`).
#![tactic(auto)]

mod covering;
mod firsts;
mod folders;
mod information;
mod infos;
mod laws;
mod sets;
mod trail;

pub use covering::counting;
pub use firsts::First;
pub use folders::{Folders, Toml, by_folder};
pub use information::{Sources, Subject, sources_of};
pub use infos::{Covered, FileInfo, Infos, Outline, info_at};
pub use laws::last_annotation_counts;
pub use sets::set_in;
pub use trail::Trail;
