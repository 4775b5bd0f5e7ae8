use i3c_bus::RunFault;
use i3c_model::{OutOfMemory, PlainFault};
use std::alloc::{AllocError, AllocFailed};
use std::io;
use thiserror::Error;

/// Why nothing can be said of a script.
#[derive(Debug, Drop, Error)]
pub(crate) enum Fault {
    #[error("test_agreement: one FILE is wanted\n")]
    Usage,
    #[error("test_agreement: cannot read\n")]
    Read,
    #[error("test_agreement: memory\n")]
    Memory,
    #[error("test_agreement: the main device can't be a controller\n")]
    Start,
    #[error("test_agreement: the plain machine's policies except no device\n")]
    Exceptions,
}

impl From<AllocError> for Fault {
    fn from(_error: AllocError) -> Fault {
        Fault::Memory
    }
}

impl<T: Drop> From<AllocFailed<T>> for Fault {
    fn from(_failed: AllocFailed<T>) -> Fault {
        Fault::Memory
    }
}

impl From<OutOfMemory> for Fault {
    fn from(_error: OutOfMemory) -> Fault {
        Fault::Memory
    }
}

impl From<io::Error> for Fault {
    fn from(_error: io::Error) -> Fault {
        Fault::Read
    }
}

impl From<PlainFault> for Fault {
    fn from(fault: PlainFault) -> Fault {
        match fault {
            PlainFault::NotCapable => Fault::Start,
            PlainFault::OutOfMemory => Fault::Memory,
        }
    }
}

impl From<RunFault> for Fault {
    fn from(fault: RunFault) -> Fault {
        match fault {
            RunFault::NotCapable => Fault::Start,
            RunFault::OutOfMemory => Fault::Memory,
        }
    }
}
