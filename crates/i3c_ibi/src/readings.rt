ghost use Rattle.std.specs.Prelude.{◌≡◌, ℕ, is_some, ◌<◌, IfSome, IsSomeAnd, MatchOption, None, slice_index_or};
ghost use Rattle.i3c_base.specs.declared.range.TheConstants.{SLOTS as SLOT_COUNT};
ghost use Rattle.i3c_base.specs.declared.requests.Request.{Request as RequestValue};
ghost use Rattle.i3c_base.specs.Cutting.{cut_of};
ghost use Rattle.i3c_base.specs.State.{Population, State, entry_in, population};
ghost use Rattle.i3c_base.specs.Serve.{IsFrontOf, byte_due};
ghost use Rattle.i3c_device.specs.Sets.{IsLowestOf};
ghost use Rattle.i3c_device.specs.Walks.{AreDrivers};
ghost use Rattle.i3c_ibi.specs.Driving.{HaveBytes, IsDriven, IsReading, Together, byte_beside, driven, slot_byte};

use i3c_base::{Addr7, Cuts, Record, Slot, Waiting};
use i3c_device::{Devices, SlotSet};
use i3c_table::Table;

/// The last bit of a mandatory byte's word, its T: the ninth bit of the header is 0.
pub(crate) const END_BIT: u16 = 9;

/// The lowest of these slots, which drive an interrupt, and its front.
fn lowest_front(devices: &Devices, drivers: SlotSet) -> Option<(Slot, Waiting)>
    ensures { MatchOption result ((at : ℕ) → ¬ IsDriven devices.now (RequestValue.Interrupt at) drivers)
        (λ f. IsLowestOf drivers f.0 × IsFrontOf (slice_index_or devices.now f.0 None) f.1) }
{
    let slot = drivers.lowest()?;
    let front = devices.front(slot)?;
    Some((slot, front))
}

/// A mandatory byte, bits 1 to 8 of its frame, as a device drives it that is cut at this bit: ones from there on.
fn driven(byte: u8, cut: Option<u16>) -> u8
    ensures { result ≡ driven cut byte }
{
    match cut {
        None => byte,
        Some(bit) => {
            if bit >= END_BIT {
                byte
            } else if bit <= 1 {
                u8::MAX
            } else {
                byte | (u8::MAX >> (bit - 1))
            }
        }
    }
}

/// The byte that is read behind an interrupt: the AND of what these slots, its drivers, drive. `None` if the front of the
/// lowest has none.
fn byte_read(devices: &Devices, drivers: SlotSet, lowest: Slot, cuts: &Cuts) -> Option<u8>
    ensures read { MatchOption (slot_byte (slice_index_or devices.now lowest None)) (result ≡ None)
        (λ own. IsSomeAnd result (Together (λ s. byte_beside cuts.now drivers lowest s (slice_index_or devices.now s None)) (driven (cut_of cuts.now lowest) own) SLOT_COUNT)) }
    ensures byte { IfSome result (λ v. v < 256) }
{
    let own = byte_of(devices, lowest)?;
    let mut both = driven(own, cuts.at(lowest));
    let mut left = drivers.but(lowest);
    while let Some(index) = left.take_lowest() {
        let slot = Slot::from_index(index);
        match byte_of(devices, slot) {
            Some(byte) => {
                both &= driven(byte, cuts.at(slot));
            }
            None => {}
        }
    }
    Some(both)
}

/// The byte at the front of the device in this slot.
fn byte_of(devices: &Devices, slot: Slot) -> Option<u8>
    ensures { result ≡ slot_byte (slice_index_or devices.now slot None) }
{
    devices.answer_byte(slot)
}

/// What these slots, the drivers of the interrupt at this address, have at their fronts, as they drive it.
fn fronts_read(devices: &Devices, drivers: SlotSet, at: Addr7, cuts: &Cuts) -> Record
    requires driven { IsDriven devices.now (RequestValue.Interrupt at) drivers }
    ensures { (st : State) → st.devices ≡ devices.now → AreDrivers (population st) (RequestValue.Interrupt at) drivers → IsReading st cuts.now at result }
{
    let Some((slot, front)) = lowest_front(devices, drivers) else {
        unreachable!()
    };
    Record {
        slot,
        number: front.number,
        at,
        byte: byte_read(devices, drivers, slot, cuts),
    }
}

/// The record of the accepted interrupt at this address, which these slots drive: the controller reads the mandatory byte if
/// the table says that there is one (I3C Basic 5.1.6.2).
pub(crate) fn reading(
    devices: &Devices,
    drivers: SlotSet,
    at: Addr7,
    due: bool,
    cuts: &Cuts,
) -> Record
    requires driven { IsDriven devices.now (RequestValue.Interrupt at) drivers }
    ensures read { (st : State) → st.devices ≡ devices.now → AreDrivers (population st) (RequestValue.Interrupt at) drivers → HaveBytes (population st) at due → IsReading st cuts.now at result }
    ensures due { (all : Population) → all.devices ≡ devices.now → AreDrivers all (RequestValue.Interrupt at) drivers → HaveBytes all at due → is_some result.byte ≡ due }
{
    let read = fronts_read(devices, drivers, at, cuts);
    Record {
        byte: if due { read.byte } else { None },
        ..read
    }
}

/// Whether the interrupts at this address have a mandatory byte, by the BCR in the controller's table.
pub(crate) fn byte_is_due(table: &Table, at: Addr7) -> bool
    ensures { result ≡ byte_due (entry_in table.now.given at) }
{
    match table.row_of(at) {
        Some(row) => row.bcr.has_byte(),
        None => false,
    }
}
