use crate::faults::Fault;
use crate::script::Script;
use i3c_base::{Cuts, Slot};
use i3c_bus::{Event, Reply};

/// Every how many bits `Bits::Sevenths` has one.
const SEVEN: usize = 7;

/// At which bits of a frame a device is cut.
#[derive(Clone, Copy)]
pub(crate) enum Bits {
    /// At each of them.
    Each,
    /// At every seventh, from the remainder of the slot's number on. So seven neighbours are cut at each bit together.
    Sevenths,
}

impl Bits {
    /// Whether the device in a slot is cut at this bit.
    pub fn has(self, slot: Slot, bit: u16) -> bool {
        match self {
            Bits::Each => true,
            Bits::Sevenths => bit as usize % SEVEN == slot.index() % SEVEN,
        }
    }
}

/// A slot that is cut at a bit of the event of an index.
#[derive(Clone, Copy, Debug)]
pub(crate) struct PlacedCut {
    pub at: usize,
    pub slot: Slot,
    pub bit: u16,
    /// Another device has the address of the slot's.
    pub shared: bool,
}

impl PlacedCut {
    /// The cut alone.
    pub fn cuts(&self) -> Cuts {
        let mut cuts = Cuts::new();
        cuts.add(self.slot, self.bit);
        cuts
    }
}

/// The cuts of an event, if it is a frame.
pub(crate) fn cuts_of(event: &mut Event) -> Option<&mut Cuts> {
    match event {
        Event::Serve(_, cuts)
        | Event::Enec(_, _, _, cuts)
        | Event::Disec(_, _, _, cuts)
        | Event::Reset(_, cuts)
        | Event::SendList(_, cuts)
        | Event::ReadFrom(_, _, cuts)
        | Event::WriteTo(_, _, _, cuts)
        | Event::SetStatic(_, _, _, cuts)
        | Event::SetNew(_, _, _, cuts)
        | Event::Get(_, _, _, cuts)
        | Event::SetLength(_, _, _, _, cuts)
        | Event::HandOver(_, cuts)
        | Event::OpenDaa(cuts)
        | Event::Round(cuts) => Some(cuts),
        _ => None,
    }
}
