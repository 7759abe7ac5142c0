//! Days, idstrings, keys, lines, texts, and the limits.

pub use desk_base::{Day, Items, Key, Line, LineEnd, Lines, Text, TextList, is_idstring, limits};
