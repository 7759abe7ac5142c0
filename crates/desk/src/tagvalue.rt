//! Documents in tag-value form (SPDX 2.3), read and written.

pub use desk_fields::{DocFault, Field, Tag, fields};
pub use desk_tagvalue::{
    Document, Draft, DraftFile, DraftLine, Edge, Extracted, FileEntry, Package, Snippet,
    WriteFault, read, write,
};
