use i3c_base::Slot;

/// The result of an offer of the role to an address (GETACCCR, I3C Basic 5.1.9.3.16).
#[derive(Clone, Copy, Debug, PartialEq, Eq)]
pub enum Offer {
    /// No device that would take it was left to acknowledge the header.
    Nobody,
    /// This byte was read, and nobody was left to end it: T was read as 1.
    Torn(u8),
    /// The device in this slot takes it: T was read as 0.
    Taken(Slot),
}
