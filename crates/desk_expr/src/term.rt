//! Licence terms.

use desk_base::Key;

/// A word of a licence expression, perhaps with an exception (SPDX 2.3, Annex D.2 to D.4).
///
/// Terms are ordered by key, then without a plus before with one, then without an exception before
/// with one, then by the exception.
#[derive(Clone, Drop, PartialEq, Eq, PartialOrd, Ord)]
pub struct Term {
    /// The folded licence id, or the reference byte for byte.
    pub key: Key,
    /// Whether `+` follows the licence id.
    pub plus: bool,
    /// The folded exception id that follows `WITH`.
    pub exception: Option<Key>,
}
