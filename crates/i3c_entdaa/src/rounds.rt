ghost use Rattle.std.specs.Prelude.{◌≡◌, ◌≤◌, false, slice_set, Some};
ghost use Rattle.i3c_base.specs.Covered.{IsTable};
ghost use Rattle.i3c_base.specs.Places.{changed};
ghost use Rattle.i3c_base.specs.Round.{Rounds};
ghost use Rattle.i3c_base.specs.State.{State, IsPickIn, kept_entry_of};
ghost use Rattle.i3c_device.specs.Walks.{taken_at};
ghost use Rattle.i3c_entdaa.specs.Parts.{IsAddressIn};
ghost use Rattle.i3c_entdaa.specs.Rounds.{IsAcknowledged, IsRead, reply_of};

use crate::identities::{ADDRESS_ACK, HEADER_ACK, read_identity};
use crate::outcome::Round;
use i3c_base::{Addr7, Cuts, Identity};
use i3c_device::{Devices, SlotSet};
use i3c_picker::pick;
use i3c_table::{Row, Table};

/// The address that the controller sends to this identity: the one kept for it, or otherwise the one that it picked.
fn address_for(table: &Table, identity: &Identity, picked: Addr7) -> Addr7
    requires { IsPickIn table.now.given table.now.legacy table.now.declared picked }
    ensures chosen { IsAddressIn table.now identity.now result }
    ensures dynamic { 8 ≤ result }
{
    match table.address_known(identity) {
        Some(kept) => kept,
        None => picked,
    }
}

/// The winners acknowledged the address: they take it, and its row is put.
fn give(
    devices: &mut Devices,
    table: &mut Table,
    takers: SlotSet,
    identity: Identity,
    address: Addr7,
)
    requires chosen { IsAddressIn table.old identity address }
    requires dynamic { 8 ≤ address }
    ensures taken { devices.new ≡ changed (taken_at takers address) devices.old }
    ensures put { table.new ≡ record table.old { given = slice_set table.old.given address (Some (kept_entry_of table.old.declared identity)); listed = false } }
{
    devices.take_address(takers, address);
    table.put(Row {
        address,
        bcr: identity.bcr,
        dcr: identity.dcr,
        identity: Some(identity),
        fixed: table.legacies().fixed_of(&identity),
    });
}

/// One round of an open session, in which these devices are cut (I3C Basic 5.1.4.2): `7E`/R, the identities of the hearers,
/// the address and its ACK. Cuts count from the ninth bit of `7E`/R, which is bit 0. The identities are its bits 1 to 64, the
/// address byte bits 65 to 72, and its ACK is bit 73.
///
/// The least identity that isn't beaten by one that is lost wins. It takes the address kept for it, or otherwise the least
/// that may be picked; without a pickable address nothing is sent. Nobody wins where each winner is lost by the ACK. Then the
/// table gets no row, and the address stays free.
pub fn round(devices: &mut Devices, table: &mut Table, cuts: &Cuts) -> Round
    ensures rounds { (st : State) → st.devices ≡ devices.old → IsTable st table.old
        → Rounds st cuts.now (reply_of result) (record st { devices = devices.new; given = table.new.given; listed = table.new.listed }) }
    ensures legacy { table.new.legacy ≡ table.old.legacy }
    ensures declared { table.new.declared ≡ table.old.declared }
    ensures read { (st : State) → st.devices ≡ devices.old → IsTable st table.old → IsRead st cuts.now result }
    ensures acknowledged { (st : State) → st.devices ≡ devices.old → IsAcknowledged st cuts.now result }
{
    let Some(picked) = pick(table) else {
        return Round::NoAddress;
    };
    let Some(read) = read_identity(devices, cuts) else {
        devices.drop_lost(cuts, HEADER_ACK);
        return Round::Done;
    };
    let bits = read.bits;
    let identity = Identity::from_number(bits);
    let address = address_for(table, &identity, picked);
    if !read.acknowledged {
        devices.drop_lost(cuts, ADDRESS_ACK);
        return Round::Nobody { bits, address };
    }
    give(devices, table, read.takers, identity, address);
    devices.drop_lost(cuts, ADDRESS_ACK);
    Round::Assigned {
        bits,
        address,
        identity,
    }
}
