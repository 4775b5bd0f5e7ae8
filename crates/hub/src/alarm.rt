use crate::fault::HubFault;
use crate::policy::Quota;
use crate::tap::Count;
use i3c_base::{Bcr, Cuts, Dcr, Identity, Pid, Setup, Slot};
use i3c_bus::{Bus, Hand, Records};
use i3c_legacy::Legacies;
use std::alloc::Global;

/// A device of this identity, which would take over as controller.
fn device(pid: u64, bcr: u8, dcr: u8) -> Result<Setup, HubFault> {
    let (pid, bcr, dcr) = (Pid::new(pid)?, Bcr(bcr), Dcr(dcr));
    let identity = Identity { pid, bcr, dcr };
    Ok(Setup {
        identity,
        willing: true,
    })
}

/// A hub, and a sensor that interrupts.
fn devices() -> Result<(Setup, Setup), HubFault> {
    let hub = device(0x0204_0000_0001, 0x46, 0xC0)?;
    let sensor = device(0x0204_0000_0010, 0x06, 0x44)?;
    Ok((hub, sensor))
}

/// A sensor gets an address and raises two alarms, which the policy accepts or refuses: what was recorded.
pub fn alarm(alloc: Global, quota: &mut Quota, wire: &mut Count) -> Result<Records, HubFault> {
    let (hub, sensor) = devices()?;
    let (slot, uncut) = (Slot::new(1)?, Cuts::new());
    let (mut bus, role) = Bus::new(alloc, hub, Legacies::new())?;
    let _ = bus.attach(slot, sensor);
    let (role, _) = bus.assign_all(role, wire, &uncut);
    let _ = bus.raise(slot, Some(0x11));
    let _ = bus.raise(slot, Some(0x12));
    let _ = bus.serve(&role, quota, wire, &uncut);
    let _ = bus.serve(&role, quota, wire, &uncut);
    Ok(bus.retire(Hand::Role(role)))
}
