use crate::faults::Fault;
use crate::script::{KNOWN, Script};
use i3c_base::{Addr7, SLOTS, Slot};
use i3c_bus::{Bus, Event, Outcome, Records, Reply, run_events};
use i3c_model::{Choice, Plain};
use std::alloc::Global;

/// The readable state of a bus, without its records.
#[derive(Clone, Copy, Debug, PartialEq, Eq)]
pub(crate) struct BusView {
    active: Slot,
    in_session: bool,
    listed: bool,
    present: [bool; SLOTS],
    addresses: [Option<Addr7>; SLOTS],
    waiting: [usize; SLOTS],
}

impl BusView {
    fn of_bus(bus: &Bus) -> BusView {
        let slots = slots();
        BusView {
            active: bus.active(),
            in_session: bus.in_session(),
            listed: bus.listed(),
            present: slots.map(|slot| bus.present(slot)),
            addresses: slots.map(|slot| bus.address(slot)),
            waiting: slots.map(|slot| bus.waiting(slot)),
        }
    }

    fn of_plain(plain: &Plain) -> BusView {
        let slots = slots();
        BusView {
            active: plain.active(),
            in_session: plain.in_session(),
            listed: plain.listed(),
            present: slots.map(|slot| plain.present(slot)),
            addresses: slots.map(|slot| plain.address(slot)),
            waiting: slots.map(|slot| plain.waiting(slot)),
        }
    }

    /// Whether another device has the address of this slot's.
    pub fn shares_address(&self, slot: Slot) -> bool {
        let own = self.addresses[slot.index()];
        own.is_some()
            && self
                .addresses
                .iter()
                .filter(|address| **address == own)
                .count()
                > 1
    }
}

/// The results of events on the bus.
#[derive(Drop)]
pub(crate) struct BusRun {
    pub replies: Vec<Reply>,
    pub seen: BusView,
    pub records: Records,
}

/// Their results on the plain machine.
#[derive(Drop)]
pub(crate) struct PlainRun {
    pub replies: Vec<Reply>,
    pub seen: BusView,
    pub plain: Plain,
}

/// The slots, in order.
pub(crate) fn slots() -> [Slot; SLOTS] {
    let mut slots = [Slot::default(); SLOTS];
    for (slot, number) in slots.iter_mut().zip(0..SLOTS as u8) {
        if let Ok(place) = Slot::new(number) {
            *slot = place;
        }
    }
    slots
}

/// The first `count` events of a script.
fn first_of(script: &Script, count: usize) -> &[Event] {
    match script.events.get(..count) {
        Some(events) => events,
        None => script.events.as_slice(),
    }
}

/// Runs the first `count` events of a script on the bus.
pub(crate) fn on_bus(alloc: Global, script: &Script, count: usize) -> Result<BusRun, Fault> {
    let _ = KNOWN;
    let events = first_of(script, count);
    let Outcome { bus, hand, replies } = run_events(
        alloc,
        script.main,
        script.legacies.copied(),
        events,
    )?;
    let seen = BusView::of_bus(&bus);
    let records = bus.retire(hand);
    Ok(BusRun {
        replies,
        seen,
        records,
    })
}

/// Runs the first events of a script on the plain machine, with a choice for each.
pub(crate) fn on_plain(
    alloc: Global,
    script: &Script,
    choices: &[Choice],
    count: usize,
) -> Result<PlainRun, Fault> {
    let _ = KNOWN;
    let mut plain = Plain::new(alloc, script.main, script.legacies.copied())?;
    let replies = replies_of(alloc, &mut plain, first_of(script, count), choices)?;
    Ok(PlainRun {
        replies,
        seen: BusView::of_plain(&plain),
        plain,
    })
}

/// What the plain machine replies to these events, with a choice for each.
fn replies_of(
    alloc: Global,
    plain: &mut Plain,
    events: &[Event],
    choices: &[Choice],
) -> Result<Vec<Reply>, Fault> {
    let _ = KNOWN;
    let mut replies = Vec::new(alloc);
    for (event, choice) in events.iter().zip(choices) {
        replies.push(plain.step(event, *choice)?)?;
    }
    Ok(replies)
}
