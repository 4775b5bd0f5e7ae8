use crate::device::PlainDevice;
use crate::faults::OutOfMemory;
use crate::plain::Plain;
use i3c_base::{SLOTS, Setup, Slot, Waiting};

impl Plain {
    ghost use Rattle.std.specs.Prelude.{◌≡◌, suc, IfOk, None, OnErr, OnOk};
    ghost use Rattle.i3c_base.specs.Local.{ask_join, ask_role, attach, drop_off, raise};
    ghost use Rattle.i3c_base.specs.State.{raised_at};
    ghost use Rattle.i3c_step.specs.Step.{checks, first_refusal};
    ghost use Rattle.i3c_step.specs.declared.events.Event.{Event};

    // A device enters a slot, without an address.
    pub(crate) fn attach(&mut self, slot: Slot, setup: &Setup) -> Result<(), OutOfMemory>
        ensures attached { OnOk result (self.new ≡ attach slot setup.now self.old) }
        ensures unchanged { OnErr result (self.new ≡ self.old) }
    {
        prove!(slot.index() < SLOTS);
        let fixed = self.fixed_of(&setup.identity);
        let device = PlainDevice::new(self.alloc, fixed, setup);
        self.devices.insert(slot, device)?;
        Ok(())
    }

    // The slot's device is gone.
    pub(crate) fn drop_off(&mut self, slot: Slot)
        ensures { self.new ≡ drop_off slot self.old }
    {
        prove!(slot.index() < SLOTS);
        self.devices.remove(&slot);
    }

    // The slot's device raises an interrupt, which waits as its last one. The raise's number is answered.
    pub(crate) fn raise(&mut self, slot: Slot, byte: Option<u8>) -> Result<u64, OutOfMemory>
        requires allowed { first_refusal (checks self.old (Event.Raise slot byte)) ≡ None }
        ensures number { IfOk result (λ number. number ≡ suc (raised_at self.old slot)) }
        ensures raised { OnOk result (self.new ≡ raise slot byte self.old) }
        ensures unchanged { OnErr result (self.new ≡ self.old) }
    {
        let index = slot.index();
        let number = self.raised[index] + 1;
        let Some(device) = self.devices.get_mut(&slot) else {
            unreachable!();
        };
        device.raise(Waiting { number, byte })?;
        self.raised[index] = number;
        Ok(number)
    }

    // The slot's device wishes to join.
    pub(crate) fn ask_join(&mut self, slot: Slot)
        requires allowed { first_refusal (checks self.old (Event.AskJoin slot)) ≡ None }
        ensures { self.new ≡ ask_join slot self.old }
    {
        prove!(slot.index() < SLOTS);
        let Some(device) = self.devices.get_mut(&slot) else {
            unreachable!();
        };
        device.wish_join();
    }

    // The slot's device wishes for the role.
    pub(crate) fn ask_role(&mut self, slot: Slot)
        requires allowed { first_refusal (checks self.old (Event.AskRole slot)) ≡ None }
        ensures { self.new ≡ ask_role slot self.old }
    {
        prove!(slot.index() < SLOTS);
        let Some(device) = self.devices.get_mut(&slot) else {
            unreachable!();
        };
        device.wish_role();
    }
}
