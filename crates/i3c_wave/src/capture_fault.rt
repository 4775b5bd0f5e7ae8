use crate::signals::SignalNames;
use thiserror::Error;

/// Why a capture isn't read to its end. Lines are counted from 1.
#[derive(Debug, Drop, Error)]
pub enum CaptureFault {
    /// There was no memory.
    #[error("out of memory")]
    Memory,
    /// The reader failed.
    #[error("the capture can't be read")]
    Read,
    /// No signal has the name that SCL is to have. These are all signals.
    #[error("no signal for SCL among these:{0}")]
    NoScl(SignalNames),
    /// No signal has the name that SDA is to have.
    #[error("no signal for SDA among these:{0}")]
    NoSda(SignalNames),
    /// Several signals have the name that SCL is to have.
    #[error("several signals for SCL among these:{0}")]
    SeveralScl(SignalNames),
    /// Several signals have the name that SDA is to have.
    #[error("several signals for SDA among these:{0}")]
    SeveralSda(SignalNames),
    /// A timescale that is none, at this line.
    #[error("line {0} has no timescale")]
    BadTimescale(u64),
    /// A time that is no number, or is before the last one, at this line.
    #[error("line {0} has no later time")]
    BadTime(u64),
    /// What isn't part of a value change dump, at this line.
    #[error("line {0} is no part of a dump")]
    BadWord(u64),
}
