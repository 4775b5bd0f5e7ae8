ghost use Rattle.std.specs.Prelude.{◌≡◌, ℕ, length, true};
ghost use Rattle.i3c_base.specs.declared.requests.Request.{Request as RequestValue};
ghost use Rattle.i3c_base.specs.declared.requests.Verdict.{Verdict as VerdictValue};
ghost use Rattle.i3c_base.specs.State.{HasDevices, State, population};
ghost use Rattle.i3c_base.specs.Serve.{IsFirst, given_for};
ghost use Rattle.i3c_device.specs.Walks.{AreDrivers};
ghost use Rattle.i3c_ibi.specs.Driving.{IsDriven};
ghost use Rattle.i3c_ibi.specs.Policies.{Decides, is_known, verdict_in};
ghost use Rattle.i3c_ibi.specs.Serving.{FitsTable, IsServing, served_as};

use crate::policies::{Policy, decide};
use crate::readings::{END_BIT, byte_is_due, reading};
use i3c_base::{Addr7, Cuts, Record, Request, Slot, Verdict};
use i3c_device::{Devices, SlotSet};
use i3c_table::Table;
use i3c_word::WORD_BITS;

/// The result of a frame's first request, as the controller saw it on the wire.
#[derive(Clone, Copy, Debug, PartialEq, Eq)]
pub enum Reading {
    /// Nobody asked.
    Quiet,
    /// This request was turned down.
    Refused(Request),
    /// A Hot-Join was accepted.
    Joined,
    /// The role request of the device at this address was accepted.
    WantsRole(Addr7),
    /// An interrupt was accepted, and this is its record.
    Due(Record),
    /// The interrupt at this address was accepted, but each target that drove it lost power before the T of its byte,
    /// which was read as 1. The byte is as the controller read it.
    Torn(Addr7, u8),
}

impl Reading {
    ghost use Rattle.i3c_ibi.specs.Serving.{word_bits};

    /// How many bits of a mandatory byte and its T were read (I3C Basic 5.1.6.2): 9, or 0 without one.
    pub fn word_bits(&self) -> u16
        ensures { result ≡ word_bits self.now }
    {
        match self {
            Reading::Torn(_, _) => WORD_BITS,
            Reading::Due(record) => { if record.byte.is_some() { WORD_BITS } else { 0 } }
            _ => 0,
        }
    }
}

/// Reads the mandatory byte of the accepted interrupt at this address, which these slots drive, and takes the interrupt
/// out of their queues.
#[inline(always)]
fn interrupt(
    devices: &mut Devices,
    drivers: SlotSet,
    table: &Table,
    at: Addr7,
    cuts: &Cuts,
) -> Reading
    requires driven { IsDriven devices.old (RequestValue.Interrupt at) drivers }
    ensures served { (st : State) → st.devices ≡ devices.old → AreDrivers (population st) (RequestValue.Interrupt at) drivers → st.given ≡ table.now.given → FitsTable st
        → IsFirst st (RequestValue.Interrupt at) → is_known st.given (RequestValue.Interrupt at) ≡ true → IsServing st cuts.now result devices.new }
    ensures accepted { (count : ℕ) → (given_for (served_as count result)).interrupt ≡ VerdictValue.Accept }
{
    let record = reading(devices, drivers, at, byte_is_due(table, at), cuts);
    let ended = drivers.outlasts(cuts, END_BIT);
    devices.accept(drivers, &Request::Interrupt(at));
    match record.byte {
        Some(byte) if !ended => Reading::Torn(at, byte),
        _ => Reading::Due(record),
    }
}

/// Accepts this request, which comes first and which these slots drive.
#[inline(always)]
fn accept(
    devices: &mut Devices,
    drivers: SlotSet,
    table: &Table,
    request: &Request,
    cuts: &Cuts,
) -> Reading
    requires driven { IsDriven devices.old request.now drivers }
    ensures served { (st : State) → st.devices ≡ devices.old → AreDrivers (population st) request.now drivers → st.given ≡ table.now.given → FitsTable st → IsFirst st request.now
        → is_known st.given request.now ≡ true → IsServing st cuts.now result devices.new }
    ensures accepted { (count : ℕ) → verdict_in (given_for (served_as count result)) request.now ≡ VerdictValue.Accept }
{
    match request {
        Request::Join => {
            devices.accept(drivers, request);
            Reading::Joined
        }
        Request::Role(at) => {
            devices.accept(drivers, request);
            Reading::WantsRole(*at)
        }
        Request::Interrupt(at) => interrupt(devices, drivers, table, *at, cuts),
    }
}

/// Serves the first request of a frame, in which these devices are cut. The policy decides on it, unless its address has
/// no row in the table. Its drivers lose what was accepted, and the mandatory byte is read if the table says that there
/// is one (I3C Basic 5.1.6.2).
#[inline(always)]
pub fn serve<P: Policy>(
    devices: &mut Devices,
    active: Slot,
    table: &Table,
    policy: &mut P,
    cuts: &Cuts,
) -> Reading
    ensures serves { (st : State) → HasDevices st devices.old active → st.given ≡ table.now.given → FitsTable st → IsServing st cuts.now result devices.new }
    ensures asks { (st : State) → HasDevices st devices.old active → st.given ≡ table.now.given
        → Decides P.verdict_gives policy.old policy.new st (given_for (served_as (length st.records) result)) }
{
    let Some((request, drivers)) = devices.first_request(active) else {
        return Reading::Quiet;
    };
    match decide(table, policy, &request) {
        Verdict::Refuse => Reading::Refused(request),
        Verdict::Accept => accept(devices, drivers, table, &request, cuts),
    }
}
