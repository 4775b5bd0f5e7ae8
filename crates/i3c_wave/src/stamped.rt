use i3c_frame::Symbol;

/// A symbol of a capture, and the time of the level change that completes it, in units of the capture's timescale. A
/// START is complete where SDA falls.
#[derive(Clone, Copy)]
pub(crate) struct Stamped {
    pub symbol: Symbol,
    pub time: u64,
}
