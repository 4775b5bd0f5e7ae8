ghost use Rattle.std.specs.Prelude.{◌≡◌};
ghost use Rattle.i3c_model.specs.declared.faults.PlainFault.TheVariants.{OutOfMemory as PlainOutOfMemory};

use std::alloc::{AllocError, AllocFailed};
use thiserror::Error;

/// Why a machine can't start.
#[derive(Clone, Copy, Debug, PartialEq, Eq, Drop, Error)]
pub enum PlainFault {
    /// The main device's BCR isn't a controller's.
    #[error("the main device can't be a controller")]
    NotCapable,
    /// There was no memory for the machine.
    #[error("out of memory")]
    OutOfMemory,
}

impl<T: Drop> From<AllocFailed<T>> for PlainFault {
    ghost from_gives = { λ _ fault. fault ≡ PlainOutOfMemory };

    fn from(_failed: AllocFailed<T>) -> PlainFault {
        PlainFault::OutOfMemory
    }
}

/// There was no memory for what an event adds.
#[derive(Clone, Copy, Debug, PartialEq, Eq, Drop, Error)]
#[error("out of memory")]
pub struct OutOfMemory;

impl<T: Drop> From<AllocFailed<T>> for OutOfMemory {
    fn from(_failed: AllocFailed<T>) -> OutOfMemory {
        OutOfMemory
    }
}

impl From<AllocError> for OutOfMemory {
    fn from(_failed: AllocError) -> OutOfMemory {
        OutOfMemory
    }
}
