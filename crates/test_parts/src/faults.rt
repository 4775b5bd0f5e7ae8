use i3c_base::OutOfRange;
use std::alloc::{AllocError, AllocFailed};
use std::io;

/// Why a line has no answer, or a text can't be read.
#[derive(Drop)]
pub(crate) enum Fault {
    Usage,
    Read,
    Memory,
    /// The text's first line names no crate.
    NoCrate,
    /// The line is no call, or its call wants other arguments, or may not be made.
    Unknown,
}

impl Fault {
    /// What the program says of it.
    pub fn text(&self) -> &'static str {
        match self {
            Fault::Usage => "test_parts: one FILE is wanted\n",
            Fault::Read => "test_parts: cannot read\n",
            Fault::Memory => "test_parts: memory\n",
            Fault::NoCrate => "test_parts: the first line names no crate\n",
            Fault::Unknown => "test_parts: a line isn't understood\n",
        }
    }
}

impl From<AllocError> for Fault {
    fn from(_error: AllocError) -> Fault {
        Fault::Memory
    }
}

impl<T: Drop> From<AllocFailed<T>> for Fault {
    fn from(_failed: AllocFailed<T>) -> Fault {
        Fault::Memory
    }
}

impl From<io::Error> for Fault {
    fn from(_error: io::Error) -> Fault {
        Fault::Read
    }
}

impl From<OutOfRange> for Fault {
    fn from(_error: OutOfRange) -> Fault {
        Fault::Unknown
    }
}
