//! The errors of a run.
ghost use Rattle.std.specs.Prelude.{◌≡◌, alloc_error};
ghost use Rattle.wenc.specs.declared.failure.Failure.TheVariants.{Fault as FaultFailure};
ghost use Rattle.wenc_base.specs.declared.fault.Fault.TheVariants.{Memory};

use std::alloc::{AllocError, AllocFailed};
use wasm_encoder::Fault;

/// Why nothing is printed.
#[derive(Clone, Copy, Debug)]
pub enum Failure {
    /// The arguments are unknown.
    Arguments,
    /// The script's first bad line has this number, counted from 1.
    BadLine(usize),
    /// An allocation failed, or the build failed with this fault.
    Fault(Fault),
    /// A read or a write failed, or the input doesn't end.
    Transfer,
}

impl From<Fault> for Failure {
    ghost from_gives = { λ fault e. e ≡ FaultFailure fault };

    fn from(fault: Fault) -> Failure {
        Failure::Fault(fault)
    }
}

impl From<AllocError> for Failure {
    ghost from_gives = { λ x e. e ≡ FaultFailure (Memory x) };

    fn from(error: AllocError) -> Failure {
        Failure::Fault(Fault::Memory(error))
    }
}

impl<T: Drop> From<AllocFailed<T>> for Failure {
    ghost from_gives = { λ _ e. e ≡ FaultFailure (Memory alloc_error) };

    fn from(_error: AllocFailed<T>) -> Failure {
        Failure::Fault(Fault::Memory(AllocError))
    }
}
