//! Why a text is not read as a catalogue.

use desk_model::CatalogueFault;
use std::alloc::AllocError;
use thiserror::Error;

/// Why a text is not read as a catalogue.
#[derive(Clone, Copy, Debug, PartialEq, Eq, Error)]
pub enum CatFault {
    /// It isn't one: its first fault.
    #[error("no catalogue: {0:?}")]
    Refused(CatalogueFault),
    /// No memory was left.
    #[error(transparent)]
    Memory(#[from(alloc)] AllocError),
}
