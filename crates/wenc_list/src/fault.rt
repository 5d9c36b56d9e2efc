//! The error of listing a component.
ghost use Rattle.std.specs.Prelude.{◌≡◌};
ghost use Rattle.wenc_list.specs.declared.fault.ListFault.TheVariants.{Memory};

use std::alloc::{AllocError, AllocFailed};
use thiserror::Error;

/// The error of listing a component. Each `place` is a byte offset in the component, of a section's
/// id.
#[derive(Clone, Copy, Debug, PartialEq, Eq, Error)]
pub enum ListFault {
    /// An allocation failed.
    #[error("Memory")]
    Memory,
    /// The bytes don't begin with the header of a component.
    #[error("NotAComponent at {place}")]
    NotAComponent {
        /// Always 0.
        place: usize,
    },
    /// The section has an id above 11, lacks a size, has a size past the end, or is a custom
    /// section without a name.
    #[error("BadSection at {place}")]
    BadSection {
        /// The byte offset of the first section that can't be read.
        place: usize,
    },
    /// The section's content isn't a count and that many items or, in a start section, isn't one
    /// start function.
    #[error("BadItem at {place}")]
    BadItem {
        /// The byte offset of the first section that can't be read.
        place: usize,
    },
    /// The section has component types and instance types that nest more than 100 deep.
    #[error("TooDeep at {place}")]
    TooDeep {
        /// The byte offset of the first section that can't be read.
        place: usize,
    },
}

impl From<AllocError> for ListFault {
    ghost from_gives = { λ _ e. e ≡ Memory };

    fn from(_error: AllocError) -> ListFault {
        ListFault::Memory
    }
}

impl<T: Drop> From<AllocFailed<T>> for ListFault {
    ghost from_gives = { λ _ e. e ≡ Memory };

    fn from(_error: AllocFailed<T>) -> ListFault {
        ListFault::Memory
    }
}
