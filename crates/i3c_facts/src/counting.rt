ghost use Rattle.std.specs.Prelude.{◌≡◌, ◌≤◌, ◌^◌, MatchOption};
ghost use Rattle.i3c_base.specs.declared.range.TheConstants.{SLOTS};
ghost use Rattle.i3c_base.specs.State.{device_at};
ghost use Rattle.i3c_facts.specs.Holding.{assigned_below, is_assigned, is_record_of, records_of, waiting_below};

use i3c_base::{Record, SLOTS, Slot};
use i3c_bus::Bus;

/// How many interrupts of all devices wait, if 64 bits hold it.
pub(crate) fn waiting(bus: &Bus) -> Option<usize>
    ensures { MatchOption result (2 ^ 64 ≤ waiting_below bus.now.state SLOTS) (λ count. count ≡ waiting_below bus.now.state SLOTS) }
{
    let mut count: usize = 0;
    for number in 0..SLOTS as u8 {
        let slot = Slot::new(number).unwrap();
        count = count.checked_add(bus.waiting(slot))?;
    }
    Some(count)
}

/// Whether each device that is there has an address.
pub(crate) fn are_assigned(bus: &Bus) -> bool
    ensures { result ≡ assigned_below bus.now.state SLOTS }
{
    let mut are = true;
    for number in 0..SLOTS as u8 {
        let slot = Slot::new(number).unwrap();
        are = are && is_assigned(bus, slot);
    }
    are
}

/// Whether a slot's device has an address, if it is there.
fn is_assigned(bus: &Bus, slot: Slot) -> bool
    ensures { result ≡ is_assigned (device_at bus.now.state slot) }
{
    !bus.present(slot) || bus.address(slot).is_some()
}

/// How many records are of a slot, with this mandatory byte or with none.
pub(crate) fn records_of(records: &[Record], slot: Slot, byte: Option<u8>) -> usize
    ensures { result ≡ records_of slot byte records.now }
{
    let mut count = 0;
    for index in 0..records.len() {
        if is_record_of(&records[index], slot, byte) {
            count += 1;
        }
    }
    count
}

/// Whether a record is of a slot, with this mandatory byte or with none.
fn is_record_of(recorded: &Record, slot: Slot, byte: Option<u8>) -> bool
    ensures { result ≡ is_record_of slot byte recorded.now }
{
    recorded.slot == slot && recorded.byte == byte
}
