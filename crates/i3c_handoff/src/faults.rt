use i3c_base::Addr7;
use thiserror::Error;

/// Why a role isn't handed over.
#[derive(Clone, Copy, Debug, PartialEq, Eq, Drop, Error)]
pub enum HandFault {
    /// The active controller can't be cut.
    #[error("the active controller stays")]
    ActiveStays,
    /// The address is the active controller's own.
    #[error("the address is the active controller's")]
    IsActive,
    /// The table has no device at the address, or one that can't be a controller.
    #[error("no device at the address can be a controller")]
    NotCapable,
    /// The devices haven't got the list of the addresses as they are now.
    #[error("the list is out of date")]
    ListStale,
    /// Nobody took the role at the address. The frame was sent.
    #[error("no device takes the role")]
    NoAnswer(Addr7),
}
