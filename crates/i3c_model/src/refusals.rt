use crate::plain::Plain;
use i3c_base::{Addr7, Cuts, Direction, Identity, Slot, WAITING};
use i3c_step::{Event, Refusal};

impl Plain {
    ghost use Rattle.std.specs.Prelude.{◌≡◌, ◌++◌, Some};
    ghost use Rattle.i3c_base.specs.declared.device.Setup.{Setup};
    ghost use Rattle.i3c_base.specs.Frames.{active_has};
    ghost use Rattle.i3c_base.specs.State.{entry_at};
    ghost use Rattle.i3c_step.specs.Step.{checks, first_refusal, frame_checks, is_kept_for, is_no_controller, is_no_partner, is_no_target, new_checks, read_checks, static_checks, target_checks, write_checks};
    ghost use Rattle.i3c_step.specs.declared.events.Event.{Event as EventValue};

    // Why an event is refused, if it is.
    pub(crate) fn refusal(&self, event: &Event) -> Option<Refusal>
        ensures { result ≡ first_refusal (checks self.now event.now) }
    {
        match event {
            Event::Attach(slot, _) => self.attach_refusal(*slot),
            Event::DropOff(slot) => self.drop_refusal(*slot),
            Event::Raise(slot, byte) => self.raise_refusal(*slot, *byte),
            Event::AskJoin(slot) => self.join_refusal(*slot),
            Event::AskRole(slot) => self.role_refusal(*slot),
            Event::Serve(_, cuts) => self.frame_refusal(cuts),
            Event::Enec(to, _, _, cuts) => self.command_refusal(to, cuts),
            Event::Disec(to, _, _, cuts) => self.command_refusal(to, cuts),
            Event::Reset(_, cuts) => self.frame_refusal(cuts),
            Event::SendList(_, cuts) => self.frame_refusal(cuts),
            Event::ReadFrom(at, _, cuts) => self.read_refusal(*at, cuts),
            Event::WriteTo(at, bytes, _, cuts) => {
                self.write_refusal(*at, bytes.as_slice(), cuts)
            }
            Event::SetStatic(fixed, new, _, cuts) => self.static_refusal(*fixed, *new, cuts),
            Event::SetNew(old, new, _, cuts) => self.new_refusal(*old, *new, cuts),
            Event::Get(_, at, _, cuts) => self.command_refusal(&Some(*at), cuts),
            Event::SetLength(_, _, to, _, cuts) => self.command_refusal(to, cuts),
            Event::HandOver(to, cuts) => self.hand_refusal(*to, cuts),
            Event::OpenDaa(cuts) => self.frame_refusal(cuts),
            Event::Round(cuts) => self.round_refusal(cuts),
            Event::EndDaa => self.end_refusal(),
        }
    }

    // Why no device enters a slot.
    fn attach_refusal(&self, slot: Slot) -> Option<Refusal>
        ensures { (setup : Setup) → result ≡ first_refusal (checks self.now (EventValue.Attach slot setup)) }
    {
        if self.device(slot).is_some() {
            return Some(Refusal::SlotTaken);
        }
        None
    }

    // Why a slot's device doesn't drop off.
    fn drop_refusal(&self, slot: Slot) -> Option<Refusal>
        ensures { result ≡ first_refusal (checks self.now (EventValue.DropOff slot)) }
    {
        if self.device(slot).is_none() {
            return Some(Refusal::NoDevice);
        }
        if slot == self.active {
            return Some(Refusal::ActiveStays);
        }
        None
    }

    // Why a slot's device raises no interrupt with this byte.
    fn raise_refusal(&self, slot: Slot, byte: Option<u8>) -> Option<Refusal>
        ensures { result ≡ first_refusal (checks self.now (EventValue.Raise slot byte)) }
    {
        let Some(device) = self.device(slot) else {
            return Some(Refusal::NoDevice);
        };
        if slot == self.active {
            return Some(Refusal::IsActive);
        }
        if device.address().is_none() {
            return Some(Refusal::NoAddress);
        }
        let bcr = device.identity().bcr;
        if !bcr.interrupts() {
            return Some(Refusal::NotCapable);
        }
        if bcr.has_byte() != byte.is_some() {
            return Some(Refusal::ByteMismatch);
        }
        if !device.may_interrupt() {
            return Some(Refusal::Masked);
        }
        if device.waiting() >= WAITING || self.raised[slot.index()] == u64::MAX {
            return Some(Refusal::Full);
        }
        None
    }

    // Why a slot's device doesn't wish to join.
    fn join_refusal(&self, slot: Slot) -> Option<Refusal>
        ensures { result ≡ first_refusal (checks self.now (EventValue.AskJoin slot)) }
    {
        let Some(device) = self.device(slot) else {
            return Some(Refusal::NoDevice);
        };
        if device.address().is_some() {
            return Some(Refusal::HasAddress);
        }
        if !device.may_join() {
            return Some(Refusal::Masked);
        }
        None
    }

    // Why a slot's device doesn't wish for the role.
    fn role_refusal(&self, slot: Slot) -> Option<Refusal>
        ensures { result ≡ first_refusal (checks self.now (EventValue.AskRole slot)) }
    {
        let Some(device) = self.device(slot) else {
            return Some(Refusal::NoDevice);
        };
        if slot == self.active {
            return Some(Refusal::IsActive);
        }
        if device.address().is_none() {
            return Some(Refusal::NoAddress);
        }
        if !device.identity().bcr.capable() {
            return Some(Refusal::NotCapable);
        }
        if !device.may_ask_role() {
            return Some(Refusal::Masked);
        }
        None
    }

    // Why a frame isn't sent.
    fn frame_refusal(&self, cuts: &Cuts) -> Option<Refusal>
        ensures { result ≡ first_refusal (frame_checks self.now cuts.now) }
    {
        if self.in_session {
            return Some(Refusal::SessionOpen);
        }
        if cuts.at(self.active).is_some() {
            return Some(Refusal::ActiveStays);
        }
        None
    }

    // Why a command to these isn't sent.
    fn command_refusal(&self, to: &Option<Addr7>, cuts: &Cuts) -> Option<Refusal>
        ensures { result ≡ first_refusal (frame_checks self.now cuts.now ++ target_checks self.now to.now) }
    {
        if let Some(refusal) = self.frame_refusal(cuts) {
            return Some(refusal);
        }
        match to {
            Some(address) => {
                if self.is_no_target(*address) {
                    Some(Refusal::NoAnswer(*address))
                } else {
                    None
                }
            }
            None => None,
        }
    }

    // Whether the table has no entry at an address, or it is the active controller's own.
    fn is_no_target(&self, address: Addr7) -> bool
        ensures { result ≡ is_no_target self.now address }
    {
        !self.is_given(address) || self.is_own(address)
    }

    // Why a read isn't sent.
    fn read_refusal(&self, at: Addr7, cuts: &Cuts) -> Option<Refusal>
        ensures { result ≡ first_refusal (frame_checks self.now cuts.now ++ read_checks self.now at) }
    {
        if let Some(refusal) = self.frame_refusal(cuts) {
            return Some(refusal);
        }
        if self.is_no_partner(at) {
            return Some(Refusal::NoAnswer(at));
        }
        None
    }

    // Why a write of these bytes isn't sent.
    fn write_refusal(&self, at: Addr7, bytes: &[u8], cuts: &Cuts) -> Option<Refusal>
        ensures { result ≡ first_refusal (frame_checks self.now cuts.now ++ write_checks self.now at bytes.now) }
    {
        if let Some(refusal) = self.frame_refusal(cuts) {
            return Some(refusal);
        }
        if bytes.len() > self.transfer_length(Direction::Write, at) as usize {
            return Some(Refusal::TooLong);
        }
        if self.is_no_partner(at) {
            return Some(Refusal::NoAnswer(at));
        }
        None
    }

    // Whether there is nobody for a transfer: no legacy target has the address, nor any device of the table but the
    // active controller.
    fn is_no_partner(&self, address: Addr7) -> bool
        ensures { result ≡ is_no_partner self.now address }
    {
        self.target(address).is_none() && self.is_no_target(address)
    }

    // Why SETDASA isn't sent: nobody is declared at the static address, or the new one may not be picked and isn't kept for
    // the declared identity.
    fn static_refusal(&self, fixed: Addr7, new: Addr7, cuts: &Cuts) -> Option<Refusal>
        ensures { result ≡ first_refusal (frame_checks self.now cuts.now ++ static_checks self.now fixed new) }
    {
        if let Some(refusal) = self.frame_refusal(cuts) {
            return Some(refusal);
        }
        let Some(identity) = self.declared_at(fixed) else {
            return Some(Refusal::NoAnswer(fixed));
        };
        if !self.is_pickable(new) && !self.is_kept_for(&identity, new) {
            return Some(Refusal::BadAddress(new));
        }
        None
    }

    // Whether an address is the one that is kept for an identity.
    fn is_kept_for(&self, identity: &Identity, address: Addr7) -> bool
        ensures { result ≡ is_kept_for self.now (Some identity.now) address }
    {
        self.address_kept(identity) == Some(address)
    }

    // Why SETNEWDA isn't sent.
    fn new_refusal(&self, old: Addr7, new: Addr7, cuts: &Cuts) -> Option<Refusal>
        ensures { result ≡ first_refusal (frame_checks self.now cuts.now ++ new_checks self.now old new) }
    {
        if let Some(refusal) = self.frame_refusal(cuts) {
            return Some(refusal);
        }
        if self.is_no_target(old) {
            return Some(Refusal::NoAnswer(old));
        }
        if !self.is_pickable(new) {
            return Some(Refusal::BadAddress(new));
        }
        None
    }

    // Whether an address is the active controller's own.
    fn is_own(&self, address: Addr7) -> bool
        ensures { result ≡ active_has self.now address }
    {
        self.address(self.active) == Some(address)
    }

    // Why the role isn't offered to an address.
    fn hand_refusal(&self, to: Addr7, cuts: &Cuts) -> Option<Refusal>
        ensures { result ≡ first_refusal (checks self.now (EventValue.HandOver to cuts.now)) }
    {
        if let Some(refusal) = self.frame_refusal(cuts) {
            return Some(refusal);
        }
        if self.is_own(to) {
            return Some(Refusal::IsActive);
        }
        if self.is_no_controllers(to) {
            return Some(Refusal::NotCapable);
        }
        if !self.listed {
            return Some(Refusal::ListStale);
        }
        None
    }

    // Whether no device that can be a controller got an address, as the table has it.
    fn is_no_controllers(&self, address: Addr7) -> bool
        ensures { result ≡ is_no_controller (entry_at self.now address) }
    {
        match self.entry(address) {
            Some(entry) => !entry.is_capable(),
            None => true,
        }
    }

    // Why no round is sent.
    fn round_refusal(&self, cuts: &Cuts) -> Option<Refusal>
        ensures { result ≡ first_refusal (checks self.now (EventValue.Round cuts.now)) }
    {
        if !self.in_session {
            return Some(Refusal::NoSession);
        }
        if cuts.at(self.active).is_some() {
            return Some(Refusal::ActiveStays);
        }
        None
    }

    // Why no session is ended.
    fn end_refusal(&self) -> Option<Refusal>
        ensures { result ≡ first_refusal (checks self.now EventValue.EndDaa) }
    {
        if self.in_session {
            None
        } else {
            Some(Refusal::NoSession)
        }
    }
}
