use crate::plain::Plain;
use i3c_base::{Addr7, Request, Slot, Waiting};

impl Plain {
    ghost use Rattle.std.specs.Prelude.{◌≡◌, ◌<◌, ◌↔◌, ℕ, false, true, length, IfSome, MatchOption, Some};
    ghost use Rattle.i3c_base.specs.declared.device.Waiting.{Waiting as WaitingValue};
    ghost use Rattle.i3c_base.specs.declared.requests.Request.{Request as RequestValue};
    ghost use Rattle.i3c_base.specs.Cutting.{Lost};
    ghost use Rattle.i3c_base.specs.Serve.{DrivesByte, IsAnd, IsFront, IsLowestDriver, IsRead, drives};

    // The front of a slot's waiting list, if its device drives an interrupt at this address.
    fn front_driven(&self, slot: Slot, at: Addr7) -> Option<Waiting>
        ensures { MatchOption result (drives self.now (RequestValue.Interrupt at) slot ≡ false) (λ w. (drives self.now (RequestValue.Interrupt at) slot ≡ true) × IsFront self.now slot w) }
    {
        if !self.drives(slot, &Request::Interrupt(at)) {
            return None;
        }
        match self.device(slot) {
            Some(device) => device.front(),
            None => None,
        }
    }

    // The lowest slot that drives an interrupt at this address, and its front.
    pub(crate) fn lowest_front(&self, at: Addr7) -> Option<(Slot, Waiting)>
        ensures { MatchOption result ((s : ℕ) → drives self.now (RequestValue.Interrupt at) s ≡ false) (λ f. IsLowestDriver self.now (RequestValue.Interrupt at) f.0 × IsFront self.now f.0 f.1) }
    {
        for index in 0..self.slots() {
            let slot = Slot::from_index(index);
            if let Some(front) = self.front_driven(slot, at) {
                return Some((slot, front));
            }
        }
        None
    }

    // The byte at the front of a slot, if its device drives an interrupt at this address and its front has one.
    fn byte_driven(&self, slot: Slot, at: Addr7) -> Option<u8>
        ensures driven { (v : ℕ) → (result ≡ Some v) ↔ DrivesByte self.now (RequestValue.Interrupt at) slot v }
        ensures byte { IfSome result (λ v. v < 256) }
    {
        match self.front_driven(slot, at) {
            Some(front) => front.byte,
            None => None,
        }
    }

    // The AND of the bytes at the fronts of the devices that drive an interrupt at this address.
    fn bytes_together(&self, at: Addr7) -> u8
        ensures { IsAnd result (DrivesByte self.now (RequestValue.Interrupt at)) }
    {
        let mut both = u8::MAX;
        for index in 0..self.slots() {
            if let Some(byte) = self.byte_driven(Slot::from_index(index), at) {
                both &= byte;
            }
        }
        both
    }

    // What is read behind the interrupt at this address, which this slot drives: no byte where its front has none.
    pub(crate) fn byte_read(&self, slot: Slot, at: Addr7) -> Option<u8>
        ensures { (lost : Lost) (front : WaitingValue) → drives self.now (RequestValue.Interrupt at) slot ≡ true → IsFront self.now slot front → IsRead self.now lost (RequestValue.Interrupt at) slot front result }
    {
        match self.byte_driven(slot, at) {
            Some(_) => Some(self.bytes_together(at)),
            None => None,
        }
    }
}
