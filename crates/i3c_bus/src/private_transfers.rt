use crate::bus::Bus;
use arrayvec::ArrayVec;
use i3c_base::{Addr7, Answer, Cuts, Direction, Length};
use i3c_frame::Tap;
use i3c_handoff::Role;
use i3c_ibi::Policy;
use i3c_step::{Framed, Reply, TargetFault, WRITE_KEPT, WriteFault};
use i3c_xfer::{read, tell_read, tell_write, transfer_length, write, write_bits};

impl Bus {
    ghost use Rattle.std.specs.Prelude.{◌≡◌, ◌+◌, ◌≤◌, false, length, take};
    ghost use Rattle.i3c_base.specs.declared.datum.Direction.{Direction as DirectionValue};
    ghost use Rattle.i3c_base.specs.Frames.{Reads, Writes, read_bits, transfer_length, write_bits};
    ghost use Rattle.i3c_frame.specs.Taps.{Tells};
    ghost use Rattle.i3c_step.specs.Giving.{given_by};
    ghost use Rattle.i3c_step.specs.Replies.{framed_reply, wrote_reply};
    ghost use Rattle.i3c_step.specs.Step.{cuts_active, is_no_partner};
    ghost use Rattle.i3c_step.specs.declared.events.Event.{Event};
    ghost use Rattle.i3c_step.specs.declared.events.TheConstants.{TRANSFER as MOST, WRITE_KEPT};
    ghost use Rattle.i3c_bus.specs.Asking.{Asks};
    ghost use Rattle.i3c_bus.specs.Beginning.{LeavesBy};
    ghost use Rattle.i3c_bus.specs.Calls.{Carries};
    ghost use Rattle.i3c_bus.specs.Hands.{HandFits};
    ghost use Rattle.i3c_bus.specs.Wire.{IsReadPart, IsWritePart};
    ghost use Rattle.i3c_bus.specs.declared.hand.Hand.{Hand};

    /// Reads at an address: the first registers of its devices, as many as their maximum lengths allow, or all registers
    /// of its legacy target (private read, I3C Basic 5.1.2.2, 5.1.9.3.6). The first request is served before it. Without
    /// a legacy target there, it answers `NoAnswer` and sends no frame if the table has no row at the address or it is
    /// the active controller's own.
    #[inline(always)]
    pub fn read<P: Policy, T: Tap>(
        &mut self,
        role: &Role,
        from: Addr7,
        policy: &mut P,
        tap: &mut T,
        cuts: &Cuts,
    ) -> Result<Framed, TargetFault>
        requires fits { HandFits (Hand.Role role.now) self.old.state }
        ensures asks { Asks P.verdict_gives policy.old policy.new self.old.state (framed_reply result) }
        ensures carried { Carries self.old self.new (Event.ReadFrom from (given_by (framed_reply result)) cuts.now) (framed_reply result) (Hand.Role role.now) (Tells T.note_gives tap.old tap.new) }
    {
        if self.cuts_active(cuts) {
            return Err(TargetFault::ActiveStays);
        }
        if self.is_no_partner(from) {
            return Err(TargetFault::NoAnswer(from));
        }
        let Ok(start) = self.begin_frame(policy, tap, cuts) else {
            return Err(TargetFault::OutOfMemory);
        };
        let answer = self.read_part(from, tap, cuts, start.bits);
        Ok(Framed {
            served: start.served,
            answer,
        })
    }

    /// Writes bytes into the first registers of the devices, as many as their maximum lengths allow, or up to sixteen of
    /// the legacy target, at an address (private write, I3C Basic 5.1.2.2, 5.1.9.3.5). Before its own part it serves the
    /// first request. It answers `TooLong` for more bytes, and `NoAnswer` as `read` does.
    pub fn write<P: Policy, T: Tap>(
        &mut self,
        role: &Role,
        to: Addr7,
        bytes: &[u8],
        policy: &mut P,
        tap: &mut T,
        cuts: &Cuts,
    ) -> Result<Framed, WriteFault>
        requires fits { HandFits (Hand.Role role.now) self.old.state }
        ensures asks { Asks P.verdict_gives policy.old policy.new self.old.state (wrote_reply result) }
        // the event keeps the first `WRITE_KEPT` bytes of a write that is too long
        ensures carried { Carries self.old self.new (Event.WriteTo to (record { items = take WRITE_KEPT bytes.now }) (given_by (wrote_reply result)) cuts.now) (wrote_reply result) (Hand.Role role.now) (Tells T.note_gives tap.old tap.new) }
    {
        if self.cuts_active(cuts) {
            return Err(WriteFault::ActiveStays);
        }
        let most = self.transfer_length(to, Direction::Write).get();
        if bytes.len() > most as usize {
            return Err(WriteFault::TooLong);
        }
        if self.is_no_partner(to) {
            return Err(WriteFault::NoAnswer(to));
        }
        let Ok(start) = self.begin_frame(policy, tap, cuts) else {
            return Err(WriteFault::OutOfMemory);
        };
        let answer = self.write_part(to, bytes, tap, cuts, start.bits);
        Ok(Framed {
            served: start.served,
            answer,
        })
    }

    /// A write of the bytes that a command keeps, and its reply.
    #[inline(never)]
    pub(crate) fn write_kept<P: Policy, T: Tap>(
        &mut self,
        role: &Role,
        to: Addr7,
        bytes: &ArrayVec<u8, WRITE_KEPT>,
        policy: &mut P,
        tap: &mut T,
        cuts: &Cuts,
        reply: &mut Reply,
    )
        requires fits { HandFits (Hand.Role role.now) self.old.state }
        ensures asks { Asks P.verdict_gives policy.old policy.new self.old.state reply.new }
        ensures carried { Carries self.old self.new (Event.WriteTo to bytes.now (given_by reply.new) cuts.now) reply.new (Hand.Role role.now) (Tells T.note_gives tap.old tap.new) }
    {
        *reply = Reply::from(self.write(role, to, bytes.as_slice(), policy, tap, cuts));
    }

    /// The own part of a read, with `bits_before` bits of the frame before it: the bytes are read, and devices cut by its
    /// last bit are gone.
    fn read_part<T: Tap>(
        &mut self,
        from: Addr7,
        tap: &mut T,
        cuts: &Cuts,
        bits_before: u16,
    ) -> Answer
        requires few { bits_before ≤ 18 }
        requires left { cuts_active self.old.state cuts.now ≡ false }
        ensures reads { LeavesBy cuts.now (bits_before + read_bits (transfer_length self.old.state DirectionValue.Read from) result) (Reads from result) self.old.state self.new.state }
        ensures told { Tells T.note_gives tap.old tap.new (IsReadPart self.old.state cuts.now from result bits_before) }
        ensures room { self.new.room ≡ self.old.room }
    {
        let active = self.active();
        let read = read(&self.devices, &self.legacy, active, from, cuts, bits_before);
        tell_read(tap, from, &read);
        let answer = read.answer(from);
        self.drop_lost(cuts, bits_before + read.bits());
        answer
    }

    /// The own part of a write, with `bits_before` bits of the frame before it: each party that acknowledges takes the
    /// bytes, and devices cut by its last bit are gone.
    fn write_part<T: Tap>(
        &mut self,
        to: Addr7,
        bytes: &[u8],
        tap: &mut T,
        cuts: &Cuts,
        bits_before: u16,
    ) -> Answer
        requires few { bits_before ≤ 18 }
        requires short { length bytes.now ≤ MOST }
        requires left { cuts_active self.old.state cuts.now ≡ false }
        ensures writes { LeavesBy cuts.now (bits_before + write_bits bytes.now result) (Writes to bytes.now result) self.old.state self.new.state }
        ensures told { Tells T.note_gives tap.old tap.new (IsWritePart self.old.state cuts.now to bytes.now result bits_before) }
        ensures room { self.new.room ≡ self.old.room }
    {
        let active = self.active();
        let (devices, legacy) = (&mut self.devices, &mut self.legacy);
        let written = write(devices, legacy, active, to, bytes, cuts, bits_before);
        tell_write(tap, to, bytes, &written);
        let answer = written.answer(to);
        self.drop_lost(cuts, bits_before + write_bits(bytes, &answer));
        answer
    }

    /// How many bytes a transfer with an address may have: a legacy target's registers, or the least maximum length of
    /// the devices there (I3C Basic 5.1.9.3.5, 5.1.9.3.6).
    fn transfer_length(&self, address: Addr7, way: Direction) -> Length
        ensures { result ≡ transfer_length self.now.state way address }
    {
        transfer_length(&self.devices, &self.legacy, self.active(), address, way)
    }

    /// Whether nobody is there for a transfer with an address: no legacy target, and no device of the table but the
    /// active controller.
    fn is_no_partner(&self, address: Addr7) -> bool
        ensures { result ≡ is_no_partner self.now.state address }
    {
        self.legacy.get(address).is_none() && self.is_no_target(address)
    }
}
