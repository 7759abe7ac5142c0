//! Copyright notices, and where they are.

use desk_base::Text;

/// A line of a file.
#[derive(Drop)]
pub struct Place {
    /// The path of the file.
    pub path: Text,
    /// The number of the line, from 1.
    pub line: u64,
}

/// A copyright notice.
#[derive(Drop)]
pub struct Notice {
    /// Its text.
    pub text: Text,
    /// Where it was found by pattern, or none if a tag or a REUSE.toml states it.
    pub place: Option<Place>,
}
