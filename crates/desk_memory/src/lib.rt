//! Rows kept in memory: a `desk_access::Store` whose only fault is lack of memory.
//!
//! The store is seen as its tables, each list in the order of its key. A change is committed whole,
//! after all room for it was taken, or not at all.
#![tactic(auto)]

mod documents;
mod keys;
mod rules;
mod store;

pub use store::MemStore;
