//! Errors.
ghost use Rattle.std.specs.Prelude.{◌≡◌, alloc_error};
ghost use Rattle.wenc_base.specs.Prelude.{fault_number};
ghost use Rattle.wenc_base.specs.declared.fault.Fault.TheVariants.{Memory};

use std::alloc::{AllocError, AllocFailed};
use thiserror::Error;

/// Why a call failed.
///
/// A call that fails changes nothing, with two exceptions: arguments passed by value are consumed,
/// and an encoder leaves its parent unfinished.
#[derive(Clone, Copy, Debug, PartialEq, Eq, Error)]
pub enum Fault {
    /// An allocation failed.
    #[error("no memory")]
    Memory(AllocError),
    /// The length of a list, a count or an index space would exceed 4294967295.
    #[error("too many")]
    TooMany,
    /// A string, a name map, a section, or anything else preceded by its size, would exceed
    /// 4294967295 bytes.
    #[error("too large")]
    TooLarge,
    /// An item was begun and not ended.
    #[error("unfinished")]
    Unfinished,
}

impl Fault {
    /// Returns the number of the error, from 1 to 4 in the order of the variants.
    pub fn number(self) -> u8
        ensures { result ≡ fault_number self }
    {
        match self {
            Fault::Memory(_) => 1,
            Fault::TooMany => 2,
            Fault::TooLarge => 3,
            Fault::Unfinished => 4,
        }
    }
}

impl From<AllocError> for Fault {
    ghost from_gives = { λ x e. e ≡ Memory x };

    fn from(error: AllocError) -> Fault {
        Fault::Memory(error)
    }
}

impl<T: Drop> From<AllocFailed<T>> for Fault {
    ghost from_gives = { λ _ e. e ≡ Memory alloc_error };

    fn from(_error: AllocFailed<T>) -> Fault {
        Fault::Memory(AllocError)
    }
}
