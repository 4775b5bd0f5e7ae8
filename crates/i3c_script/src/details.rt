ghost use Rattle.std.specs.Prelude.{◌≡◌, ◌+◌, length, OnOk};
ghost use Rattle.i3c_base.specs.declared.range.TheConstants.{SLOTS};
ghost use Rattle.i3c_base.specs.State.{device_at};
ghost use Rattle.i3c_script.specs.Hearing.{all_heard};
ghost use Rattle.i3c_script.specs.Pieces.{description_pieces, descriptions_pieces, show_all_pieces, tenures_pieces};

use crate::past::Past;
use crate::piece::{Description, Listener, Piece};
use crate::settings::Settings;
use crate::show::hear_bus;
use i3c_base::{SLOTS, Slot};
use i3c_bus::Bus;
use i3c_lines::Naming;
use std::alloc::AllocError;

/// The bus as `show` tells it, then what each present device is, by slot, whether the list of devices is current, whether a
/// session is open, and the active controllers with their records.
pub(crate) fn hear_all<N: Naming, P: Past, L: Listener>(
    bus: &Bus,
    names: &N,
    settings: &Settings,
    past: &P,
    listener: &mut L,
) -> Result<(), AllocError>
    ensures { OnOk result (listener.new ≡ all_heard L.heard listener.old (show_all_pieces N.kept settings.now.forgotten bus.now.state names.now (P.kept.ended past.now))) }
{
    hear_bus(bus, names, settings.forgotten, listener)?;
    hear_descriptions(bus, names, listener)?;
    listener.hear(Piece::Listed(bus.listed()))?;
    listener.hear(Piece::Session(bus.in_session()))?;
    hear_times(bus, settings, past, listener)
}

/// The active controllers, with the numbers of the records of each.
fn hear_times<P: Past, L: Listener>(
    bus: &Bus,
    settings: &Settings,
    past: &P,
    listener: &mut L,
) -> Result<(), AllocError>
    ensures { OnOk result (listener.new ≡ all_heard L.heard listener.old (tenures_pieces (P.kept.ended past.now) bus.now.state.active (settings.now.forgotten + length bus.now.state.records))) }
{
    let recorded = settings.recorded(bus.records())?;
    past.hear_tenures(bus.active(), recorded, listener)
}

/// What each present device is, by slot.
fn hear_descriptions<N: Naming, L: Listener>(
    bus: &Bus,
    names: &N,
    listener: &mut L,
) -> Result<(), AllocError>
    ensures { OnOk result (listener.new ≡ all_heard L.heard listener.old (descriptions_pieces N.kept bus.now.state names.now SLOTS)) }
{
    for number in 0..SLOTS as u8 {
        let slot = Slot::new(number).unwrap();
        hear_slot(bus, names, slot, listener)?;
    }
    Ok(())
}

/// What the device of a slot is, if there is one.
fn hear_slot<N: Naming, L: Listener>(
    bus: &Bus,
    names: &N,
    slot: Slot,
    listener: &mut L,
) -> Result<(), AllocError>
    ensures { OnOk result (listener.new ≡ all_heard L.heard listener.old (description_pieces (N.kept.in_slot names.now slot) (device_at bus.now.state slot))) }
{
    match (names.in_slot(slot), bus.identity(slot)) {
        (Some(name), Some(identity)) => listener.hear(Piece::Description(Description {
            name,
            identity,
            interrupt: bus.may_interrupt(slot),
            role: bus.may_ask_role(slot),
            join: bus.may_join(slot),
            wish: bus.wish(slot),
        })),
        _ => Ok(()),
    }
}
