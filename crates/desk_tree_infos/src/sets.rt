//! Sets of shared texts.

ghost use Rattle.std.specs.Prelude.{◌≡◌, IfOk};
ghost use Rattle.desk_model.specs.Texts.{sorted_set};

use desk_base::{Items, TextList};
use desk_tree_annotations::{SharedText, SharedTexts};
use std::alloc::{AllocError, Global};

/// The texts sorted by their bytes, each once. The list takes no more room than it needs.
pub(crate) fn shared_set(listed: Vec<SharedText>) -> Items<SharedText>
    ensures { result ≡ sorted_set listed.items }
{
    let mut sorted = listed;
    sorted.sort_unstable();
    sorted.dedup();
    sorted.shrink_to_fit();
    Items::from_vec(sorted)
}

// Copies of texts in one buffer.
fn copy_texts(alloc: Global, texts: &[SharedText]) -> Result<TextList, AllocError>
    ensures { IfOk result (λ list. list ≡ texts.now) }
{
    let mut list = TextList::new(alloc);
    for text in texts {
        list.push(text.as_str())?;
    }
    Ok(list)
}

// The texts of a list, each of which holds it.
fn all_of(alloc: Global, list: &SharedTexts) -> Result<Vec<SharedText>, AllocError>
    ensures { IfOk result (λ v. v.items ≡ list.now) }
{
    let mut all = Vec::with_capacity(alloc, list.len())?;
    for place in 0..list.len() {
        all.push(list.share(place)?)?;
    }
    Ok(all)
}

// The same of a list that nothing else holds.
fn all_in(alloc: Global, list: TextList) -> Result<Vec<SharedText>, AllocError>
    ensures { IfOk result (λ v. v.items ≡ list) }
{
    let shared = SharedTexts::of(alloc, list)?;
    all_of(alloc, &shared)
}

/// The texts of a list sorted by their bytes, each once, in a buffer that has nothing else. The
/// only error is lack of memory.
pub fn set_in(alloc: Global, list: TextList) -> Result<Vec<SharedText>, AllocError>
    ensures { IfOk result (λ v. v.items ≡ sorted_set list) }
{
    let listed = all_in(alloc, list)?;
    let sorted = shared_set(listed);
    let list = copy_texts(alloc, sorted.as_slice())?;
    all_in(alloc, list)
}
