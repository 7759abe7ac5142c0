//! What entries are for.

use desk_base::Key;

/// What an entry is for: a package and its version, or any; or the name of a text.
#[derive(Drop, PartialEq, Eq, PartialOrd, Ord)]
pub struct Subject {
    /// The name of the package or of the text.
    pub name: Key,
    /// The version of the package, or none for any.
    pub version: Option<Key>,
}
