use thiserror::Error;

/// Why a slot raises no interrupt.
#[derive(Clone, Copy, Debug, PartialEq, Eq, Drop, Error)]
pub enum RaiseRefusal {
    /// The slot holds no device.
    #[error("the slot holds no device")]
    NoDevice,
    /// The slot's device is the active controller.
    #[error("the device is the active controller")]
    IsActive,
    /// The device has no address.
    #[error("the device has no address")]
    NoAddress,
    /// The device's BCR says that it can't interrupt.
    #[error("the device can't interrupt")]
    NotCapable,
    /// The device's BCR asks for a mandatory byte and none was given, or the reverse.
    #[error("the mandatory byte and the device's BCR differ")]
    ByteMismatch,
    /// The device's interrupts are disabled.
    #[error("the device's interrupts are disabled")]
    Masked,
    /// Eight interrupts wait already, or the slot's raises can't be counted further.
    #[error("no more interrupts may wait")]
    Full,
}

/// Why a slot's device doesn't wish to join.
#[derive(Clone, Copy, Debug, PartialEq, Eq, Drop, Error)]
pub enum JoinRefusal {
    /// The slot holds no device.
    #[error("the slot holds no device")]
    NoDevice,
    /// The device has an address.
    #[error("the device has an address")]
    HasAddress,
    /// The device's joins are disabled.
    #[error("the device's joins are disabled")]
    Masked,
}

/// Why a slot's device doesn't wish for the controller role.
#[derive(Clone, Copy, Debug, PartialEq, Eq, Drop, Error)]
pub enum RoleRefusal {
    /// The slot holds no device.
    #[error("the slot holds no device")]
    NoDevice,
    /// The slot's device is the active controller.
    #[error("the device is the active controller")]
    IsActive,
    /// The device has no address.
    #[error("the device has no address")]
    NoAddress,
    /// The device's BCR isn't a controller's.
    #[error("the device can't be a controller")]
    NotCapable,
    /// The device's role requests are disabled.
    #[error("the device's role requests are disabled")]
    Masked,
}
