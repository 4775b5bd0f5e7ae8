use crate::plain::{Choice, Plain};
use i3c_base::{Addr7, Answer, Cuts, SLOTS, Slot};
use i3c_step::{Framed, Reply};

impl Plain {
    ghost use Rattle.std.specs.Prelude.{◌≡◌, ◌↔◌, ℕ, IsTrue, MatchOption};
    ghost use Rattle.i3c_base.specs.Cutting.{lost_by};
    ghost use Rattle.i3c_base.specs.Frames.{IsWillingAt, handed};
    ghost use Rattle.i3c_base.specs.State.{IsPresent};
    ghost use Rattle.i3c_step.specs.Step.{Acts};
    ghost use Rattle.i3c_step.specs.declared.events.Event.{Event};
    ghost use Rattle.i3c_model.specs.Choosing.{Follows, HandsAsChosen};
    ghost use Rattle.i3c_model.specs.Meaning.{IsHeir, MayDecline, NoHeir};

    // Offers the role to an address. The lowest willing device there that isn't lost by the end of its byte gets it.
    pub(crate) fn hand_over(&mut self, to: Addr7, cuts: &Cuts, choice: Choice) -> Reply
        ensures acts { Acts self.old (Event.HandOver to cuts.now) result self.new }
        ensures chosen { Follows (Acts self.old (Event.HandOver to cuts.now)) choice result }
        ensures handed { HandsAsChosen self.old to cuts.now choice self.new }
    {
        let served = self.refuse_first();
        let begin = self.header_bits();
        if let Some(slot) = self.heir(to, cuts, begin + 27) {
            self.give_role(slot, to);
            self.empty(cuts, begin + 27);
            return Reply::Handed(served);
        }
        let bits = self.declined_bits(to, cuts, begin + 18, choice);
        self.empty(cuts, begin + bits);
        let answer = Answer::NoAnswer(to);
        Reply::Framed(Framed { served, answer })
    }

    // Whether a slot other than the active controller's holds a willing device with this address.
    fn is_willing(&self, slot: Slot, at: Addr7) -> bool
        ensures { IsTrue result ↔ IsWillingAt self.now at slot }
    {
        match self.device(slot) {
            Some(device) => slot != self.active && device.has(at) && device.is_willing(),
            None => false,
        }
    }

    // The lowest slot of a willing device at the address that isn't lost by this bit.
    fn heir(&self, at: Addr7, cuts: &Cuts, last: u16) -> Option<Slot>
        ensures { MatchOption result (NoHeir self.now at (lost_by cuts.now last)) (IsHeir self.now at (lost_by cuts.now last)) }
    {
        for index in 0..self.slots() {
            let slot = Slot::from_index(index);
            if self.is_willing(slot, at) && !cuts.is_lost(slot, last) {
                return Some(slot);
            }
        }
        None
    }

    // The bits of an offer that nobody takes. It ends with its header, at this bit, if no device is willing, or if that is
    // chosen and all willing ones are lost by then.
    fn declined_bits(&self, to: Addr7, cuts: &Cuts, header_end: u16, choice: Choice) -> u16
        ensures { MayDecline self.now to (lost_by cuts.now header_end) choice result }
    {
        if choice == Choice::Silent && self.heir(to, cuts, header_end).is_none() {
            return 18;
        }
        let uncut = Cuts::new();
        if self.heir(to, &uncut, header_end).is_none() {
            18
        } else {
            27
        }
    }

    // The slot's device, at its own address, is the active controller. It got no identities with its list, which the
    // others haven't got.
    fn give_role(&mut self, slot: Slot, own: Addr7)
        requires present { IsPresent self.old slot }
        ensures { self.new ≡ handed slot own self.old }
    {
        prove!(slot.index() < SLOTS);
        let Some(device) = self.devices.get_mut(&slot) else {
            unreachable!();
        };
        device.lose_role_wish();
        self.active = slot;
        self.listed = false;
        self.take_over(own);
    }
}
