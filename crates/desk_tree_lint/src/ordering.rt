//! Texts in their order.

ghost use Rattle.std.specs.Prelude.{◌≡◌, true, IfOk};
ghost use Rattle.std.specs.Cmp.Lexicographic.{slice_cmp};
ghost use Rattle.std.specs.List.Sorted.{IsStrictlySortedBy};
ghost use Rattle.std.specs.Ordering.{is_lt, nat_cmp};
ghost use Rattle.desk_base.specs.Borrowed.{texts_in};
ghost use Rattle.desk_model.specs.Texts.{sorted_set};

use desk_base::TextList;
use std::alloc::{AllocError, Global};
use std::cmp::Ordering;

// The texts themselves.
fn borrow_keys(alloc: Global, keys: &TextList) -> Result<Vec<&str>, AllocError>
    ensures { IfOk result (λ v. texts_in v ≡ keys.now) }
{
    let mut borrowed = Vec::with_capacity(alloc, keys.len())?;
    for place in 0..keys.len() {
        borrowed.push(keys.at(place))?;
    }
    Ok(borrowed)
}

/// The keys in byte order, each once.
pub(crate) fn sorted_keys(alloc: Global, keys: &TextList) -> Result<Vec<&str>, AllocError>
    ensures { IfOk result (λ v. texts_in v ≡ sorted_set keys.now) }
{
    let mut keys = borrow_keys(alloc, keys)?;
    keys.sort_unstable();
    keys.dedup();
    Ok(keys)
}

// Whether a key is below another.
fn is_below(one: &str, other: &str) -> bool
    ensures { result ≡ is_lt (slice_cmp nat_cmp one.now other.now) }
{
    matches!(one.cmp(other), Ordering::Less)
}

/// Whether each key is below the next.
pub(crate) fn are_in_order(keys: &TextList) -> bool
    ensures { result ≡ true → IsStrictlySortedBy (slice_cmp nat_cmp) keys.now }
{
    for place in 1..keys.len() {
        let last = keys.at(place - 1);
        let next = keys.at(place);
        if !is_below(last, next) {
            return false;
        }
    }
    true
}
