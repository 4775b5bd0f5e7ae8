use arrayvec::ArrayVec;
use i3c_base::{SLOTS, Slot};

/// The number that a contest read, and its winners (I3C Basic 5.1.2.2.1).
#[derive(Debug, PartialEq, Clone, Drop)]
pub struct Contest {
    /// The slots that drove to the end, in the order of the keys. Those with equal keys win together.
    pub winners: ArrayVec<Slot, SLOTS>,
    /// The number that was read, its first bit the most significant one: below 2 to the power of the contest's width.
    pub bits: u64,
}
