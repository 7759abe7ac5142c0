//! Entries of files that fill what notices lack (`desk_fill`), from files that an office has.
//!
//! - `sift` takes the texts of a folder, each named after what it is a text of, and says which
//!   files are left out and why (`specs/Sifting.antt`).
//! - `text_file` writes them as TOML. `fill_of` of `desk_fill` reads what is written back as
//!   exactly these texts.
#![tactic(auto)]

mod answers;
mod laws;
mod sifting;
mod tables;
mod written;

pub use answers::{Answer, refused, texts};
pub use laws::written_texts_are_read;
pub use sifting::{Left, Reason, Sifted, sift, text_at};
pub use written::{printed, text_file};
