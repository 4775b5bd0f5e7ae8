ghost use Rattle.std.specs.Prelude.{◌≡◌, List, ◌+◌, ◌++◌, OnOk, drop, false, suc, true};
ghost use Rattle.i3c_base.specs.declared.range.TheConstants.{ADDRESSES, SLOTS};
ghost use Rattle.i3c_bus.specs.Readings.{AreAskers};
ghost use Rattle.i3c_device.specs.Sets.{IsLowestOf};
ghost use Rattle.i3c_base.specs.State.{device_at};
ghost use Rattle.i3c_script.specs.Hearing.{all_heard};
ghost use Rattle.i3c_lines.specs.declared.names.Name.{Name as NameValue};
ghost use Rattle.i3c_script.specs.Pieces.{AreAsking, asker_of, askers_below, behind_pieces, device_pieces, devices_pieces, records_pieces, show_behind_pieces, show_pieces, target_pieces, targets_pieces};
ghost use Rattle.i3c_script.specs.Printed.{numbered_text, show_text};

use crate::piece::{Listener, Piece};
use crate::settings::sum_of;
use i3c_base::{ADDRESSES, Addr7, Record, SLOTS, Slot};
use i3c_bus::{Bus, Request, SlotSet};
use i3c_lines::{Name, Naming};
use i3c_text::Text;
use std::alloc::AllocError;

/// Prints the bus: the active controller, the present devices by slot, the legacy targets by address, and the records, where
/// `forgotten` ones have left the log.
pub fn show_bus<N: Naming>(
    bus: &Bus,
    names: &N,
    forgotten: usize,
    text: &mut Text,
) -> Result<(), AllocError>
    ensures { OnOk result (text.new ≡ text.old ++ show_text N.kept forgotten bus.now.state names.now) }
{
    hear_bus(bus, names, forgotten, text)
}

/// Prints the records behind the first `count`, each with its number, as `show` does: `forgotten` have left the log before.
pub fn show_records_behind(
    records: &[Record],
    count: usize,
    forgotten: usize,
    text: &mut Text,
) -> Result<(), AllocError>
    ensures { OnOk result (text.new ≡ text.old ++ numbered_text (suc (forgotten + count)) (drop count records.now)) }
{
    hear_records_behind(records, count, forgotten, text)
}

/// What `show_bus` prints.
pub(crate) fn hear_bus<N: Naming, L: Listener>(
    bus: &Bus,
    names: &N,
    forgotten: usize,
    listener: &mut L,
) -> Result<(), AllocError>
    ensures { OnOk result (listener.new ≡ all_heard L.heard listener.old (show_pieces N.kept forgotten bus.now.state names.now)) }
{
    hear_bus_behind(bus, names, 0, forgotten, listener)
}

/// The same, but of the log only what is behind its first `count` records.
pub(crate) fn hear_bus_behind<N: Naming, L: Listener>(
    bus: &Bus,
    names: &N,
    count: usize,
    forgotten: usize,
    listener: &mut L,
) -> Result<(), AllocError>
    ensures { OnOk result (listener.new ≡ all_heard L.heard listener.old (show_behind_pieces N.kept count forgotten bus.now.state names.now)) }
{
    listener.hear(Piece::Active(bus.address(bus.active())))?;
    hear_devices(bus, names, listener)?;
    hear_targets(names, listener)?;
    hear_records(bus.records(), count, forgotten, listener)
}

/// Each present device, by slot.
fn hear_devices<N: Naming, L: Listener>(
    bus: &Bus,
    names: &N,
    listener: &mut L,
) -> Result<(), AllocError>
    ensures { OnOk result (listener.new ≡ all_heard L.heard listener.old (devices_pieces N.kept bus.now.state names.now SLOTS)) }
{
    for number in 0..SLOTS as u8 {
        let slot = Slot::new(number).unwrap();
        hear_slot(bus, names, slot, listener)?;
    }
    Ok(())
}

/// The device of a slot, if there is one.
fn hear_slot<N: Naming, L: Listener>(
    bus: &Bus,
    names: &N,
    slot: Slot,
    listener: &mut L,
) -> Result<(), AllocError>
    ensures { OnOk result (listener.new ≡ all_heard L.heard listener.old (device_pieces (N.kept.in_slot names.now slot) (device_at bus.now.state slot))) }
{
    match names.in_slot(slot) {
        Some(name) if bus.present(slot) => {
            listener.hear(Piece::Device(name, bus.address(slot), bus.waiting(slot)))
        }
        _ => Ok(()),
    }
}

/// Each legacy target, by address.
fn hear_targets<N: Naming, L: Listener>(names: &N, listener: &mut L) -> Result<(), AllocError>
    ensures { OnOk result (listener.new ≡ all_heard L.heard listener.old (targets_pieces N.kept names.now ADDRESSES)) }
{
    for number in 0..ADDRESSES as u8 {
        let address = Addr7::new(number).unwrap();
        hear_target(names, address, listener)?;
    }
    Ok(())
}

/// The legacy target at a static address, if there is one.
fn hear_target<N: Naming, L: Listener>(
    names: &N,
    address: Addr7,
    listener: &mut L,
) -> Result<(), AllocError>
    ensures { OnOk result (listener.new ≡ all_heard L.heard listener.old (target_pieces (N.kept.at_address names.now address) address)) }
{
    match names.at_address(address) {
        Some(name) => listener.hear(Piece::Target(name, address)),
        None => Ok(()),
    }
}

/// How many records are in the log, and each behind the first `count`, the oldest first.
fn hear_records<L: Listener>(
    records: &[Record],
    count: usize,
    forgotten: usize,
    listener: &mut L,
) -> Result<(), AllocError>
    ensures { OnOk result (listener.new ≡ all_heard L.heard listener.old (records_pieces count forgotten records.now)) }
{
    listener.hear(Piece::Records(records.len()))?;
    hear_records_behind(records, count, forgotten, listener)
}

/// The records behind the first `count`, each with its number.
fn hear_records_behind<L: Listener>(
    records: &[Record],
    count: usize,
    forgotten: usize,
    listener: &mut L,
) -> Result<(), AllocError>
    ensures { OnOk result (listener.new ≡ all_heard L.heard listener.old (behind_pieces count forgotten records.now)) }
{
    for index in count..records.len() {
        let number = sum_of(forgotten, index + 1)?;
        listener.hear(Piece::Entry(number, records[index]))?;
    }
    Ok(())
}

/// Appends the names of those whose requests the next frame would meet, by slot.
pub fn push_askers<N: Naming>(
    bus: &Bus,
    names: &N,
    askers: &mut Vec<Name>,
) -> Result<(), AllocError>
    ensures { OnOk result ((found : List NameValue) × AreAsking bus.now.state (N.kept.in_slot names.now) found × (askers.new.items ≡ askers.old.items ++ found)) }
{
    match bus.asking() {
        Some((request, slots)) => return push_names(bus, names, &request, slots, askers),
        None => return Ok(()),
    }
}

/// Appends the names of these slots, whose devices drive a request.
fn push_names<N: Naming>(
    bus: &Bus,
    names: &N,
    request: &Request,
    slots: SlotSet,
    askers: &mut Vec<Name>,
) -> Result<(), AllocError>
    requires { AreAskers bus.now.state request.now slots }
    ensures { OnOk result (askers.new.items ≡ askers.old.items ++ askers_below bus.now.state (N.kept.in_slot names.now) request.now SLOTS) }
{
    let mut left = slots;
    for number in 0..SLOTS as u8 {
        let slot = Slot::new(number).unwrap();
        if is_lowest(left, slot) {
            push_name(names, slot, askers)?;
            left = left.but(slot);
        }
    }
    Ok(())
}

/// Whether a slot is the lowest of a set.
fn is_lowest(slots: SlotSet, slot: Slot) -> bool
    ensures lowest { result ≡ true → IsLowestOf slots slot }
    ensures other { result ≡ false → IsLowestOf slots slot → ⊥ }
{
    match slots.lowest() {
        Some(lowest) => lowest == slot,
        None => false,
    }
}

/// Appends the name of a slot.
fn push_name<N: Naming>(names: &N, slot: Slot, askers: &mut Vec<Name>) -> Result<(), AllocError>
    ensures { OnOk result (askers.new.items ≡ askers.old.items ++ asker_of (N.kept.in_slot names.now slot)) }
{
    match names.in_slot(slot) {
        Some(name) => match askers.push(name) {
            Ok(()) => Ok(()),
            Err(_) => Err(AllocError),
        },
        None => Ok(()),
    }
}
