//! Gathers the licensing of the files of a source tree (REUSE Specification 3.3): for each covered
//! file its copyright notices and its licences, from what it states itself and from the REUSE.toml
//! files between the root and its folder.
//!
//! - `gathered` (`specs/Gathering.antt`) is a function of the files: the information of each
//!   covered file by path, or the first fault. It sorts the files by path (`specs/Trees.antt`),
//!   reads the REUSE.toml files (`specs/Tomls.antt`), and takes for each file the annotations that
//!   count, at most one for each folder (`desk_tree_infos`).
//! - The texts of a file are joined only when it is asked for (`ToldFiles::file`).
//! - `survey` continues after faults: it returns all that is wrong in a tree, and the information
//!   of the files from what can be read (`specs/Survey.antt`), with the licences of REUSE.toml
//!   files that no document can hold (`specs/Blanks.antt`). Gathering stops at the first of these
//!   flaws (`gathered_is_surveyed`), so `survey_or_fault` and `gather` return a survey without
//!   flaws, or the fault for the first one.
//! - `gather_files` takes the files by value: it returns what is gathered with the digest of each
//!   file (`specs/Telling.antt`), and drops the bytes of a file once this is known.
//! - The definitions are over a `Reader`: the pieces of patterns, the licence expressions, the
//!   matches of paths and what files state themselves. `gather` returns what they say for each
//!   reader that is right by the definitions of `desk_tree_annotations` and `desk_expr`
//!   (`IsRightReader`), and there is only one right reader (`one_reader`).
#![tactic(auto)]

mod blanks;
mod fault;
mod files;
mod flaw;
mod gathering;
mod holding;
mod laws;
mod paths;
mod surveying;
mod telling;
mod tomls;

pub use blanks::Blank;
pub use desk_tree_infos::{FileInfo, First, Infos, Outline, Subject};
pub use fault::GatherFault;
pub use files::{SourceFile, bytes_at};
pub use flaw::Flaw;
pub use gathering::{gather, survey_or_fault};
pub use laws::{gathered_is_surveyed, one_reader};
pub use surveying::{Surveyed, survey};
pub use telling::{ToldFile, ToldFiles, gather_files};
