use crate::bus::Bus;
use crate::wire::{tell_list, tell_reset};
use i3c_base::{Answer, Cuts};
use i3c_ccc::Code;
use i3c_frame::Tap;
use i3c_handoff::Role;
use i3c_ibi::Policy;
use i3c_step::{FrameFault, Framed};
use i3c_word::WORD_BITS;

impl Bus {
    ghost use Rattle.std.specs.Prelude.{◌≡◌, ◌≤◌};
    ghost use Rattle.i3c_base.specs.Frames.{list, list_bits, reset};
    ghost use Rattle.i3c_frame.specs.Taps.{Tells};
    ghost use Rattle.i3c_step.specs.Giving.{given_by};
    ghost use Rattle.i3c_step.specs.declared.events.Event.{Event};
    ghost use Rattle.i3c_bus.specs.Asking.{Asks};
    ghost use Rattle.i3c_bus.specs.Calls.{Carries};
    ghost use Rattle.i3c_bus.specs.Hands.{HandFits};
    ghost use Rattle.i3c_bus.specs.Wire.{IsListPart};
    ghost use Rattle.i3c_bus.specs.declared.hand.Hand.{Hand};
    ghost use Rattle.i3c_step.specs.Replies.{announced_reply};

    /// Clears each address but the active controller's, what is kept for identities, and wishes for the role (RSTDAA, I3C
    /// Basic 5.1.9.3.3). Before its own part it serves the first request.
    #[inline(always)]
    pub fn reset<P: Policy, T: Tap>(
        &mut self,
        role: &Role,
        policy: &mut P,
        tap: &mut T,
        cuts: &Cuts,
    ) -> Result<Framed, FrameFault>
        requires fits { HandFits (Hand.Role role.now) self.old.state }
        ensures asks { Asks P.verdict_gives policy.old policy.new self.old.state (announced_reply result) }
        ensures carried { Carries self.old self.new (Event.Reset (given_by (announced_reply result)) cuts.now) (announced_reply result) (Hand.Role role.now) (Tells T.note_gives tap.old tap.new) }
    {
        if self.cuts_active(cuts) {
            return Err(FrameFault::ActiveStays);
        }
        let Ok(start) = self.begin_frame(policy, tap, cuts) else {
            return Err(FrameFault::OutOfMemory);
        };
        tell_reset(tap);
        self.clear();
        self.drop_lost(cuts, start.bits + WORD_BITS);
        Ok(Framed {
            served: start.served,
            answer: Answer::Done,
        })
    }

    /// Tells the devices of all addresses (DEFTGTS, I3C Basic 5.1.9.3.7): each device that can be a controller and has an
    /// address keeps the list. The first request is served before it.
    #[inline(always)]
    pub fn list<P: Policy, T: Tap>(
        &mut self,
        role: &Role,
        policy: &mut P,
        tap: &mut T,
        cuts: &Cuts,
    ) -> Result<Framed, FrameFault>
        requires fits { HandFits (Hand.Role role.now) self.old.state }
        ensures asks { Asks P.verdict_gives policy.old policy.new self.old.state (announced_reply result) }
        ensures carried { Carries self.old self.new (Event.SendList (given_by (announced_reply result)) cuts.now) (announced_reply result) (Hand.Role role.now) (Tells T.note_gives tap.old tap.new) }
    {
        if self.cuts_active(cuts) {
            return Err(FrameFault::ActiveStays);
        }
        let Ok(start) = self.begin_frame(policy, tap, cuts) else {
            return Err(FrameFault::OutOfMemory);
        };
        let bits = self.send_list(tap);
        self.drop_lost(cuts, start.bits + bits);
        Ok(Framed {
            served: start.served,
            answer: Answer::Done,
        })
    }

    /// The addresses are cleared, except the active controller's.
    fn clear(&mut self)
        ensures state { self.new.state ≡ reset self.old.state }
        ensures room { self.new.room ≡ self.old.room }
    {
        let active = self.active();
        let Some(own) = self.address(active) else {
            unreachable!();
        };
        self.devices.hear(active, &None, Code::Rstdaa, &[]);
        self.devices.lose_role_wish(active);
        self.table.clear(own);
    }

    /// The words of the active controller's list are told, what is read of them is kept, and the list is current. It
    /// answers how many bits they take with their code.
    fn send_list<T: Tap>(&mut self, tap: &mut T) -> u16
        ensures state { self.new.state ≡ list self.old.state }
        ensures told { Tells T.note_gives tap.old tap.new (IsListPart self.old.state) }
        ensures bits { result ≡ list_bits self.old.state }
        ensures few { result ≤ 4482 }
        ensures room { self.new.room ≡ self.old.room }
    {
        let Some(own) = self.address(self.active()) else {
            unreachable!();
        };
        self.list.rewrite(&self.table, own);
        self.table.mark_listed();
        tell_list(tap, &self.list);
        WORD_BITS * (2 + 4 * self.list.len() as u16)
    }
}
