//! The errors of the subcommand `list`.
ghost use Rattle.std.specs.Prelude.{◌≡◌};
ghost use Rattle.wenc.specs.declared.unlisted.Unlisted.TheVariants.{Fault as FaultUnlisted};
ghost use Rattle.wenc_list.specs.declared.fault.ListFault.TheVariants.{Memory};

use std::alloc::AllocError;
use wenc_list::ListFault;

/// Why a component can't be listed.
#[derive(Clone, Copy, Debug)]
pub enum Unlisted {
    /// The text isn't an even number of hexadecimal digits, followed by at most one LF.
    BadText,
    /// An allocation failed, or the bytes have this fault.
    Fault(ListFault),
    /// A read failed, or the input doesn't end.
    Transfer,
}

impl From<ListFault> for Unlisted {
    ghost from_gives = { λ fault e. e ≡ FaultUnlisted fault };

    fn from(fault: ListFault) -> Unlisted {
        Unlisted::Fault(fault)
    }
}

impl From<AllocError> for Unlisted {
    ghost from_gives = { λ _ e. e ≡ FaultUnlisted Memory };

    fn from(_error: AllocError) -> Unlisted {
        Unlisted::Fault(ListFault::Memory)
    }
}
