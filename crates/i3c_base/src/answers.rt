use crate::bytes::Bytes;
use crate::identity::Identity;
use crate::range::Addr7;

/// The answer to a frame's own part, after the request that it served.
#[derive(Clone, Copy, Debug, PartialEq, Eq)]
pub enum Answer {
    /// It was carried out.
    Done,
    /// These bytes were read, and ended.
    Bytes(Bytes),
    /// The header of this address was not acknowledged, or nobody took the role that was offered there.
    NoAnswer(Addr7),
    /// The data that was read did not end.
    NoEnd,
}

/// How one round of an assignment ended (I3C Basic 5.1.4.2).
#[derive(Clone, Copy, Debug, PartialEq, Eq)]
pub enum RoundReply {
    /// The device of this identity has this address.
    Assigned(Addr7, Identity),
    /// The address was not acknowledged.
    Nobody,
    /// Nobody hears the session any more.
    Done,
    /// No address is left to give.
    NoAddress,
}
