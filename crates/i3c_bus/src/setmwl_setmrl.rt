use crate::bus::Bus;
use i3c_base::{Addr7, Answer, Cuts, Direction, Length};
use i3c_events::{answer_of, hear_length, length_bits, tell_length};
use i3c_frame::Tap;
use i3c_handoff::Role;
use i3c_ibi::Policy;
use i3c_step::{Framed, TargetFault};

impl Bus {
    ghost use Rattle.std.specs.Prelude.{◌≡◌, ◌+◌, ◌≤◌, false};
    ghost use Rattle.i3c_base.specs.Frames.{SetsLength, length_bits};
    ghost use Rattle.i3c_events.specs.Wire.{IsLengthWire};
    ghost use Rattle.i3c_frame.specs.Taps.{Tells};
    ghost use Rattle.i3c_step.specs.Giving.{given_by};
    ghost use Rattle.i3c_step.specs.Replies.{framed_reply};
    ghost use Rattle.i3c_step.specs.Step.{cuts_active};
    ghost use Rattle.i3c_step.specs.declared.events.Event.{Event};
    ghost use Rattle.i3c_bus.specs.Asking.{Asks};
    ghost use Rattle.i3c_bus.specs.Beginning.{LeavesBy};
    ghost use Rattle.i3c_bus.specs.Calls.{Carries};
    ghost use Rattle.i3c_bus.specs.Hands.{HandFits};
    ghost use Rattle.i3c_bus.specs.Wire.{IsAnswered};
    ghost use Rattle.i3c_bus.specs.declared.hand.Hand.{Hand};

    /// Sets the maximum length of writes (SETMWL, I3C Basic 5.1.9.3.5) or of reads (SETMRL, I3C Basic 5.1.9.3.6): of the
    /// devices at an address, or without one of all but the active controller. Before its own part it serves the first
    /// request. It answers `NoAnswer`, without a frame, if the table has no row at the address or it is the active
    /// controller's own.
    #[inline(always)]
    pub fn set_length<P: Policy, T: Tap>(
        &mut self,
        role: &Role,
        way: Direction,
        most: Length,
        to: Option<Addr7>,
        policy: &mut P,
        tap: &mut T,
        cuts: &Cuts,
    ) -> Result<Framed, TargetFault>
        requires fits { HandFits (Hand.Role role.now) self.old.state }
        ensures asks { Asks P.verdict_gives policy.old policy.new self.old.state (framed_reply result) }
        ensures carried { Carries self.old self.new (Event.SetLength way most to (given_by (framed_reply result)) cuts.now) (framed_reply result) (Hand.Role role.now) (Tells T.note_gives tap.old tap.new) }
    {
        if self.cuts_active(cuts) {
            return Err(TargetFault::ActiveStays);
        }
        if let Some(address) = to {
            if self.is_no_target(address) {
                return Err(TargetFault::NoAnswer(address));
            }
        }
        let Ok(start) = self.begin_frame(policy, tap, cuts) else {
            return Err(TargetFault::OutOfMemory);
        };
        let answer = self.length_part(way, most, to, tap, cuts, start.bits);
        Ok(Framed {
            served: start.served,
            answer,
        })
    }

    /// The own part of SETMWL and SETMRL, with `bits_before` bits of the frame before it: each device that it reaches
    /// keeps `most` as its maximum length, and devices that are cut by its last bit are gone.
    fn length_part<T: Tap>(
        &mut self,
        way: Direction,
        most: Length,
        to: Option<Addr7>,
        tap: &mut T,
        cuts: &Cuts,
        bits_before: u16,
    ) -> Answer
        requires few { bits_before ≤ 18 }
        requires left { cuts_active self.old.state cuts.now ≡ false }
        ensures sets { LeavesBy cuts.now (bits_before + length_bits to result) (SetsLength to way most result) self.old.state self.new.state }
        ensures answered { IsAnswered self.old.state cuts.now to bits_before result }
        ensures told { Tells T.note_gives tap.old tap.new (IsLengthWire way to most result) }
        ensures room { self.new.room ≡ self.old.room }
    {
        let active = self.active();
        let heard = hear_length(&mut self.devices, active, to, way, most, cuts, bits_before);
        tell_length(tap, way, &to, most, &heard);
        let answer = answer_of(&heard);
        self.drop_lost(cuts, bits_before + length_bits(&to, &answer));
        answer
    }
}
