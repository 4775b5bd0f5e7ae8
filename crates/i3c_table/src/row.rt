use i3c_base::{Addr7, Bcr, Dcr, Identity};

/// A dynamic address, the BCR, DCR and static address of its device, and the identity that it is kept for (I3C Basic 5.1.4).
#[derive(Clone, Copy, Debug, PartialEq, Eq, Default, Drop)]
pub struct Row {
    /// The dynamic address.
    pub address: Addr7,
    /// The bus characteristics of the device that got it.
    pub bcr: Bcr,
    /// Its device characteristics.
    pub dcr: Dcr,
    /// The identity that the address is kept for, if it is.
    pub identity: Option<Identity>,
    /// The static address of the device that got it, if it has one. One that isn't `08` to `77` counts as none.
    pub fixed: Option<Addr7>,
}
