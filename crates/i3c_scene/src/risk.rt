use i3c_lines::Name;

/// The names of the devices that may lose power in a frame, at any bit.
#[derive(Clone, Copy)]
pub enum Risk {
    /// No device may.
    Nobody,
    /// One device may.
    One(Name),
    /// Each of two devices may.
    Two(Name, Name),
}
