use crate::bus::Bus;
use i3c_base::{Addr7, Answer, Cuts, Datum};
use i3c_frame::Tap;
use i3c_handoff::Role;
use i3c_ibi::Policy;
use i3c_step::{Framed, TargetFault};
use i3c_xfer::{datum_length, get, get_bits, tell_get};

impl Bus {
    ghost use Rattle.std.specs.Prelude.{◌≡◌, ◌+◌, ◌≤◌, false};
    ghost use Rattle.i3c_base.specs.Frames.{Gets, get_bits, told_length};
    ghost use Rattle.i3c_base.specs.State.{entry_at};
    ghost use Rattle.i3c_frame.specs.Taps.{Tells};
    ghost use Rattle.i3c_step.specs.Giving.{given_by};
    ghost use Rattle.i3c_step.specs.Replies.{framed_reply};
    ghost use Rattle.i3c_step.specs.Step.{cuts_active};
    ghost use Rattle.i3c_step.specs.declared.events.Event.{Event};
    ghost use Rattle.i3c_bus.specs.Asking.{Asks};
    ghost use Rattle.i3c_bus.specs.Beginning.{LeavesBy};
    ghost use Rattle.i3c_bus.specs.Calls.{Carries};
    ghost use Rattle.i3c_bus.specs.Hands.{HandFits};
    ghost use Rattle.i3c_bus.specs.Wire.{IsToldPart};
    ghost use Rattle.i3c_bus.specs.declared.hand.Hand.{Hand};

    /// Asks the devices at an address for a datum (GETPID and its like, I3C Basic 5.1.9.3). It serves the first request
    /// first. It answers `NoAnswer`, without a frame, if the table has no row at the address or it is the active
    /// controller's own.
    #[inline(always)]
    pub fn get<P: Policy, T: Tap>(
        &mut self,
        role: &Role,
        what: Datum,
        from: Addr7,
        policy: &mut P,
        tap: &mut T,
        cuts: &Cuts,
    ) -> Result<Framed, TargetFault>
        requires fits { HandFits (Hand.Role role.now) self.old.state }
        ensures asks { Asks P.verdict_gives policy.old policy.new self.old.state (framed_reply result) }
        ensures carried { Carries self.old self.new (Event.Get what from (given_by (framed_reply result)) cuts.now) (framed_reply result) (Hand.Role role.now) (Tells T.note_gives tap.old tap.new) }
    {
        if self.cuts_active(cuts) {
            return Err(TargetFault::ActiveStays);
        }
        if self.is_no_target(from) {
            return Err(TargetFault::NoAnswer(from));
        }
        let Ok(start) = self.begin_frame(policy, tap, cuts) else {
            return Err(TargetFault::OutOfMemory);
        };
        let answer = self.get_part(what, from, tap, cuts, start.bits);
        Ok(Framed {
            served: start.served,
            answer,
        })
    }

    /// The own part of GETPID and its like, with `bits_before` bits of the frame before it: the datum is told, and cut
    /// devices are gone.
    fn get_part<T: Tap>(
        &mut self,
        what: Datum,
        from: Addr7,
        tap: &mut T,
        cuts: &Cuts,
        bits_before: u16,
    ) -> Answer
        requires few { bits_before ≤ 18 }
        requires left { cuts_active self.old.state cuts.now ≡ false }
        ensures gets { LeavesBy cuts.now (bits_before + get_bits what (entry_at self.old.state from) result) (Gets what from result) self.old.state self.new.state }
        ensures told { Tells T.note_gives tap.old tap.new (IsToldPart self.old.state cuts.now what from result bits_before) }
        ensures room { self.new.room ≡ self.old.room }
    {
        let count = self.datum_length(what, from);
        let active = self.active();
        let told = get(&self.devices, active, what, count, from, cuts, bits_before);
        tell_get(tap, what, from, &told);
        let answer = told.answer(from);
        self.drop_lost(cuts, bits_before + get_bits(count, &answer));
        answer
    }

    /// How many bytes the active controller reads of a datum at an address, by what its table has of it.
    fn datum_length(&self, what: Datum, from: Addr7) -> usize
        ensures same { result ≡ told_length what (entry_at self.now.state from) }
        ensures few { result ≤ 6 }
        ensures some { 1 ≤ result }
    {
        match self.table.row_of(from) {
            Some(row) => datum_length(what, row.bcr.has_byte()),
            None => datum_length(what, false),
        }
    }
}
