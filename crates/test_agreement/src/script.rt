use crate::faults::Fault;
use i3c_base::{
    Addr7, Answer, Bcr, Cuts, Dcr, Fixed, Identity, Kinds, Pid, RoundReply, Served, Setup, Slot,
    Verdict,
};
use i3c_bus::{Event, Framed, Refusal, Reply};
use i3c_legacy::Legacies;
use std::alloc::Global;

/// A script as what happens to a bus: its main device, what has a static address, and its events. Those after its own
/// show what is seen no other way.
#[derive(Drop)]
pub(crate) struct Script {
    pub main: Setup,
    pub legacies: Legacies,
    pub events: Vec<Event>,
    pub own: usize,
    /// The plain machine's replies.
    pub replies: Vec<Reply>,
    /// Whether a comment says the choice for the event.
    pub said: Vec<bool>,
}

impl Script {
    /// A script without events.
    pub fn new(alloc: Global, main: &Setup, legacies: Legacies) -> Script {
        Script {
            main: *main,
            legacies,
            events: Vec::new(alloc),
            own: 0,
            replies: Vec::new(alloc),
            said: Vec::new(alloc),
        }
    }

    /// The devices that came, or were to come, with their slots.
    pub fn attached(&self, alloc: Global) -> Result<Vec<(Slot, Setup)>, Fault> {
        let _ = KNOWN;
        let mut came = Vec::new(alloc);
        for event in &self.events {
            if let Event::Attach(slot, setup) = event {
                came.push((*slot, *setup))?;
            }
        }
        Ok(came)
    }
}

/// The types in an event and a reply: the prover wants them named in each function that moves one into a list.
pub(crate) type EventTypes = (
    Refusal,
    Framed,
    Served,
    Answer,
    RoundReply,
    Identity,
    Pid,
    Bcr,
    Dcr,
    Addr7,
    Fixed,
    Verdict,
    Kinds,
    Cuts,
    Setup,
    Slot,
);

// what a function names so that the prover knows the types inside a reply
pub(crate) const KNOWN: Option<EventTypes> = None;
