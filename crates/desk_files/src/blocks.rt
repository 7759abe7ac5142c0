//! The memory of large blocks.

use std::alloc::{AllocError, Global};

/// The size in bytes of a block larger than any that one request needs.
const LARGE_BYTES: usize = 16_777_216;

/// Makes the C library keep the memory of large blocks for later ones. It gives the pages of a
/// freed block back to the system, and taking new ones costs more than filling them; but a block
/// smaller than the largest freed so far leaves its pages where they are. So the first turn sets
/// the size, and the second leaves room in which blocks can grow in place.
pub fn keep_large(alloc: Global) {
    for _ in 0..2 {
        let block: Result<Vec<u8>, AllocError> = Vec::with_capacity(alloc, LARGE_BYTES);
        drop(block);
    }
}
