use crate::device::PlainDevice;
use crate::faults::PlainFault;
use crate::plain::Plain;
use crate::plain_entry::PlainEntry;
use i3c_base::{Addr7, Identity, LegacyTarget, REGISTERS, SLOTS, Setup, Slot};
use i3c_legacy::Legacies;
use std::alloc::Global;
use std::collections::BTreeMap;

impl Plain {
    ghost use Rattle.std.specs.Prelude.{◌≡◌, ◌↔◌, false, IfOk, IsErrOf};
    ghost use Rattle.i3c_base.specs.Numbers.{is_capable};
    ghost use Rattle.i3c_base.specs.State.{IsStart};

    /// A machine with its main controller, in slot 0 at the least pickable address, beside these legacy targets and
    /// declared identities. It answers `NotCapable` where the main device's BCR isn't a controller's.
    pub fn new(alloc: Global, main: Setup, legacies: Legacies) -> Result<Plain, PlainFault>
        ensures capable { IsErrOf result PlainFault.NotCapable ↔ (is_capable main.identity.bcr ≡ false) }
        ensures start { IfOk result (IsStart main legacies) }
    {
        if !main.identity.bcr.capable() {
            return Err(PlainFault::NotCapable);
        }
        // so few that one of the 108 usable addresses is left
        let _statics = legacies.addresses();
        let mut plain = Plain {
            alloc,
            devices: BTreeMap::new(alloc),
            raised: [0; SLOTS],
            active: Slot::default(),
            legacy: targets(alloc, &legacies)?,
            declared: identities(alloc, &legacies)?,
            given: BTreeMap::new(alloc),
            in_session: false,
            listed: false,
            records: Vec::new(alloc),
        };
        let Some(address) = plain.pick() else {
            unreachable!();
        };
        let fixed = legacies.fixed_of(&main.identity);
        let mut controller = PlainDevice::new(alloc, fixed, &main);
        controller.take_address(address);
        plain.devices.insert(plain.active, controller)?;
        let entry = PlainEntry::new(&main.identity, fixed);
        plain.given.insert(address, entry)?;
        Ok(plain)
    }
}

ghost use Rattle.std.specs.Prelude.{◌≡◌, IfErr, IfOk};
ghost use Rattle.i3c_model.specs.declared.faults.PlainFault.{PlainFault as FaultValue};
ghost use Rattle.i3c_model.specs.Views.{AreIdentities, AreTargets};

// The legacy targets that were declared, with cleared registers, at their static addresses.
fn targets(alloc: Global, legacies: &Legacies) -> Result<BTreeMap<Addr7, LegacyTarget>, PlainFault>
    ensures targets { IfOk result (AreTargets legacies.now.legacy) }
    ensures memory { IfErr result (λ fault. fault ≡ FaultValue.OutOfMemory) }
{
    let mut targets = BTreeMap::new(alloc);
    for value in 0..128 {
        let Ok(address) = Addr7::new(value) else {
            continue;
        };
        if let Some(lvr) = legacies.lvr_at(address) {
            let registers = [0; REGISTERS];
            targets.insert(address, LegacyTarget { lvr, registers })?;
        }
    }
    Ok(targets)
}

// The identities that were declared, at their static addresses.
fn identities(alloc: Global, legacies: &Legacies) -> Result<BTreeMap<Addr7, Identity>, PlainFault>
    ensures identities { IfOk result (AreIdentities legacies.now.declared) }
    ensures memory { IfErr result (λ fault. fault ≡ FaultValue.OutOfMemory) }
{
    let mut identities = BTreeMap::new(alloc);
    for value in 0..128 {
        let Ok(address) = Addr7::new(value) else {
            continue;
        };
        if let Some(identity) = legacies.declared_at(address) {
            identities.insert(address, identity)?;
        }
    }
    Ok(identities)
}
