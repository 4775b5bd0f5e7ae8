use i3c_base::OutOfRange;
use i3c_bus::StartFault;
use std::io;
use thiserror::Error;

/// Why the hub gives up. Each `?` in this crate makes one of these.
#[derive(Debug, Drop, Error)]
pub enum HubFault {
    /// A number doesn't fit its type: an address, a slot, a provisioned ID.
    #[error("hub: {0}\n")]
    Range(#[from] OutOfRange),
    /// The bus can't start.
    #[error("hub: {0}\n")]
    Start(#[from] StartFault),
    /// The lines can't be printed.
    #[error("hub: write failed\n")]
    Write(#[from] io::Error),
}
