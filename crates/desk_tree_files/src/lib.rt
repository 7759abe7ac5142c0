//! The files of a folder, as they are passed to `desk_tree_gather`.
//!
//! `files_of` walks a folder of the file system. It leaves out `.git` at its root, follows no link,
//! and returns the files by path. The library's contracts don't say what a file system contains, so
//! the contract here says only that the files are in the order of their paths
//! (`specs/Walking.antt`).
#![tactic(auto)]

mod fault;
mod reading;
mod walking;

pub use fault::TreeFault;
pub use reading::files_of;
