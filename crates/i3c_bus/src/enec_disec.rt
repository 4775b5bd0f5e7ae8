use crate::bus::Bus;
use i3c_base::{Addr7, Answer, Change, Cuts, Kinds};
use i3c_events::{answer_of, hear_kinds, kinds_bits, tell_kinds};
use i3c_frame::Tap;
use i3c_handoff::Role;
use i3c_ibi::Policy;
use i3c_step::{Framed, TargetFault};

impl Bus {
    ghost use Rattle.std.specs.Prelude.{◌≡◌, ◌+◌, ◌≤◌, false};
    ghost use Rattle.i3c_base.specs.Frames.{Rekinds, changed_kinds, kinds_bits};
    ghost use Rattle.i3c_events.specs.Wire.{IsKindsWire};
    ghost use Rattle.i3c_frame.specs.Taps.{Tells};
    ghost use Rattle.i3c_step.specs.Commands.{kinds_event};
    ghost use Rattle.i3c_step.specs.Giving.{given_by};
    ghost use Rattle.i3c_step.specs.Replies.{framed_reply};
    ghost use Rattle.i3c_step.specs.Step.{cuts_active};
    ghost use Rattle.i3c_step.specs.declared.events.Event.{Event};
    ghost use Rattle.i3c_bus.specs.Asking.{Asks};
    ghost use Rattle.i3c_bus.specs.Beginning.{LeavesBy};
    ghost use Rattle.i3c_bus.specs.Calls.{Carries};
    ghost use Rattle.i3c_bus.specs.Hands.{HandFits};
    ghost use Rattle.i3c_bus.specs.Wire.{IsAnswered};
    ghost use Rattle.i3c_bus.specs.declared.hand.Hand.{Hand};

    /// Enables kinds of events (ENEC, I3C Basic 5.1.9.3.1): of the devices at an address, or without one of all but the
    /// active controller. Before its own part it serves the first request. It answers `NoAnswer`, without a frame, if the
    /// table has no row at the address or it is the active controller's own.
    pub fn enec<P: Policy, T: Tap>(
        &mut self,
        role: &Role,
        to: Option<Addr7>,
        kinds: Kinds,
        policy: &mut P,
        tap: &mut T,
        cuts: &Cuts,
    ) -> Result<Framed, TargetFault>
        requires fits { HandFits (Hand.Role role.now) self.old.state }
        ensures asks { Asks P.verdict_gives policy.old policy.new self.old.state (framed_reply result) }
        ensures carried { Carries self.old self.new (Event.Enec to kinds (given_by (framed_reply result)) cuts.now) (framed_reply result) (Hand.Role role.now) (Tells T.note_gives tap.old tap.new) }
    {
        self.change_kinds(role, Change::Enable, to, kinds, policy, tap, cuts)
    }

    /// Disables kinds of events (DISEC, I3C Basic 5.1.9.3.1), as `enec` enables them.
    pub fn disec<P: Policy, T: Tap>(
        &mut self,
        role: &Role,
        to: Option<Addr7>,
        kinds: Kinds,
        policy: &mut P,
        tap: &mut T,
        cuts: &Cuts,
    ) -> Result<Framed, TargetFault>
        requires fits { HandFits (Hand.Role role.now) self.old.state }
        ensures asks { Asks P.verdict_gives policy.old policy.new self.old.state (framed_reply result) }
        ensures carried { Carries self.old self.new (Event.Disec to kinds (given_by (framed_reply result)) cuts.now) (framed_reply result) (Hand.Role role.now) (Tells T.note_gives tap.old tap.new) }
    {
        self.change_kinds(role, Change::Disable, to, kinds, policy, tap, cuts)
    }

    /// ENEC or DISEC: serves the first request, and goes on with the command.
    #[inline(always)]
    pub(crate) fn change_kinds<P: Policy, T: Tap>(
        &mut self,
        role: &Role,
        change: Change,
        to: Option<Addr7>,
        kinds: Kinds,
        policy: &mut P,
        tap: &mut T,
        cuts: &Cuts,
    ) -> Result<Framed, TargetFault>
        requires fits { HandFits (Hand.Role role.now) self.old.state }
        ensures asks { Asks P.verdict_gives policy.old policy.new self.old.state (framed_reply result) }
        ensures carried { Carries self.old self.new (kinds_event change to kinds (given_by (framed_reply result)) cuts.now) (framed_reply result) (Hand.Role role.now) (Tells T.note_gives tap.old tap.new) }
    {
        if self.cuts_active(cuts) {
            return Err(TargetFault::ActiveStays);
        }
        if let Some(address) = to {
            if self.is_no_target(address) {
                return Err(TargetFault::NoAnswer(address));
            }
        }
        let Ok(start) = self.begin_frame(policy, tap, cuts) else {
            return Err(TargetFault::OutOfMemory);
        };
        let answer = self.command_kinds(change, to, kinds, tap, cuts, start.bits);
        Ok(Framed {
            served: start.served,
            answer,
        })
    }

    /// The own part of ENEC and DISEC, with `bits_before` bits of the frame before it: each device that it reaches hears
    /// it, and devices cut by its last bit are gone.
    fn command_kinds<T: Tap>(
        &mut self,
        change: Change,
        to: Option<Addr7>,
        kinds: Kinds,
        tap: &mut T,
        cuts: &Cuts,
        bits_before: u16,
    ) -> Answer
        requires few { bits_before ≤ 18 }
        requires left { cuts_active self.old.state cuts.now ≡ false }
        ensures rekinds { LeavesBy cuts.now (bits_before + kinds_bits to result) (Rekinds to (changed_kinds change kinds) result) self.old.state self.new.state }
        ensures answered { IsAnswered self.old.state cuts.now to bits_before result }
        ensures told { Tells T.note_gives tap.old tap.new (IsKindsWire change to kinds result) }
        ensures room { self.new.room ≡ self.old.room }
    {
        let active = self.active();
        let heard = hear_kinds(
            &mut self.devices,
            active,
            to,
            change,
            kinds,
            cuts,
            bits_before,
        );
        tell_kinds(tap, change, &to, kinds, &heard);
        let answer = answer_of(&heard);
        self.drop_lost(cuts, bits_before + kinds_bits(&to, &answer));
        answer
    }
}
