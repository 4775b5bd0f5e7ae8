ghost use Rattle.std.specs.Prelude.{◌≡◌, ◌<◌, None, length, vec_len, vec_capacity};
ghost use Rattle.i3c_ibi.specs.Serving.{served_as};
ghost use Rattle.i3c_bus.specs.Beginning.{kept_in};
ghost use Rattle.i3c_step.specs.Serving.{place_of};

use crate::bus::Bus;
use crate::hand::Hand;
use i3c_base::{Addr7, Change, Cuts, Record, Served};
use i3c_frame::{Symbol, Tap};
use i3c_handoff::Role;
use i3c_ibi::{
    Policy, Reading, first_request, serve, tell_broadcast, tell_reading, tell_repeated,
    tell_request,
};
use i3c_step::{Command, FrameFault, OutOfMemory, Refusal, Reply};
use i3c_word::HEADER_BITS;

/// How a frame began: what it served, and how many bits it has sent behind its first header. These are at most 18: an
/// interrupt's byte with its T, and the header after a repeated START.
#[derive(Clone, Copy)]
pub(crate) struct FrameStart {
    pub served: Served,
    pub bits: u16,
}

impl Bus {
    ghost use Rattle.std.specs.Prelude.{ℕ, ◌+◌, ◌≤◌, true, false, None, IfOk, OnErr};
    ghost use Rattle.i3c_base.specs.Cutting.{Lost, lost_by};
    ghost use Rattle.i3c_base.specs.Serve.{IsWordBits, Serves, emptied, given_for, header_bits, refuse_all};
    ghost use Rattle.i3c_frame.specs.Taps.{Tells};
    ghost use Rattle.i3c_ibi.specs.Policies.{Decides};
    ghost use Rattle.i3c_bus.specs.Asking.{Asks};
    ghost use Rattle.i3c_step.specs.Giving.{given_by};
    ghost use Rattle.i3c_bus.specs.Beginning.{Begins, IsWay};
    ghost use Rattle.i3c_bus.specs.Calls.{Carries};
    ghost use Rattle.i3c_step.specs.Commands.{event_of};
    ghost use Rattle.i3c_bus.specs.Hands.{HandFits};
    ghost use Rattle.i3c_step.specs.Replies.{served_reply};
    ghost use Rattle.i3c_bus.specs.Room.{IsUntouched};
    ghost use Rattle.i3c_step.specs.Serving.{place_of};
    ghost use Rattle.i3c_step.specs.Step.{cuts_active, is_no_target};
    ghost use Rattle.i3c_bus.specs.Wire.{IsBegun, IsOn};
    ghost use Rattle.i3c_step.specs.declared.events.Event.{Event};
    ghost use Rattle.i3c_bus.specs.declared.hand.Hand.{Hand};

    /// Serves the first request, and does no more (I3C Basic 5.1.6.2): the policy decides on it, unless its address has
    /// no row. There must be room for a record, or it is made before the first bit: `OutOfMemory` changes nothing.
    pub fn serve<P: Policy, T: Tap>(
        &mut self,
        role: &Role,
        policy: &mut P,
        tap: &mut T,
        cuts: &Cuts,
    ) -> Result<Served, FrameFault>
        requires fits { HandFits (Hand.Role role.now) self.old.state }
        ensures asks { Asks P.verdict_gives policy.old policy.new self.old.state (served_reply result) }
        ensures carried { Carries self.old self.new (Event.Serve (given_by (served_reply result)) cuts.now) (served_reply result) (Hand.Role role.now) (Tells T.note_gives tap.old tap.new) }
    {
        if self.cuts_active(cuts) {
            return Err(FrameFault::ActiveStays);
        }
        if self.make_room().is_err() {
            return Err(FrameFault::OutOfMemory);
        }
        let start = self.begin(policy, tap, cuts);
        tap.note(Symbol::Stop);
        self.drop_lost(cuts, start.bits);
        Ok(start.served)
    }

    /// Sends a frame under the role, or refuses it: while a session is open it is `SessionOpen`.
    pub fn command<P: Policy, T: Tap>(
        &mut self,
        hand: &Hand,
        command: &Command,
        policy: &mut P,
        tap: &mut T,
        cuts: &Cuts,
    ) -> Reply
        requires fits { HandFits hand.now self.old.state }
        ensures asks { Asks P.verdict_gives policy.old policy.new self.old.state result }
        ensures carried { Carries self.old self.new (event_of command.now (given_by result) cuts.now) result hand.now (Tells T.note_gives tap.old tap.new) }
    {
        let mut reply = Reply::OutOfMemory;
        self.command_into(hand, command, policy, tap, cuts, &mut reply);
        reply
    }

    /// The same, with the reply written to where the caller keeps it.
    #[inline(always)]
    pub fn command_into<P: Policy, T: Tap>(
        &mut self,
        hand: &Hand,
        command: &Command,
        policy: &mut P,
        tap: &mut T,
        cuts: &Cuts,
        reply: &mut Reply,
    )
        requires fits { HandFits hand.now self.old.state }
        ensures asks { Asks P.verdict_gives policy.old policy.new self.old.state reply.new }
        ensures carried { Carries self.old self.new (event_of command.now (given_by reply.new) cuts.now) reply.new hand.now (Tells T.note_gives tap.old tap.new) }
    {
        let Hand::Role(role) = hand else {
            *reply = Reply::Refused(Refusal::SessionOpen);
            return;
        };
        match command {
            Command::Serve => self.serve_reply(role, policy, tap, cuts, reply),
            Command::Enec(to, kinds) => {
                self.kinds_reply(role, Change::Enable, *to, *kinds, policy, tap, cuts, reply)
            }
            Command::Disec(to, kinds) => {
                self.kinds_reply(role, Change::Disable, *to, *kinds, policy, tap, cuts, reply)
            }
            Command::Reset => self.reset_reply(role, policy, tap, cuts, reply),
            Command::SendList => self.list_reply(role, policy, tap, cuts, reply),
            Command::ReadFrom(from) => self.read_reply(role, *from, policy, tap, cuts, reply),
            Command::WriteTo(to, bytes) => {
                self.write_kept(role, *to, bytes, policy, tap, cuts, reply)
            }
            Command::SetStatic(fixed, new) => {
                self.static_reply(role, *fixed, *new, policy, tap, cuts, reply)
            }
            Command::SetNew(old, new) => self.new_reply(role, *old, *new, policy, tap, cuts, reply),
            Command::Get(what, from) => self.get_reply(
                role, *what, *from, policy, tap, cuts, reply,
            ),
            Command::SetLength(way, most, to) => {
                self.length_reply(role, *way, *most, *to, policy, tap, cuts, reply)
            }
        }
    }

    /// Whether the cuts name the active controller's slot.
    pub(crate) fn cuts_active(&self, cuts: &Cuts) -> bool
        ensures { result ≡ cuts_active self.now.state cuts.now }
    {
        cuts.at(self.active()).is_some()
    }

    /// Whether the table has no row at this address, or it is the active controller's own.
    pub(crate) fn is_no_target(&self, address: Addr7) -> bool
        ensures { result ≡ is_no_target self.now.state address }
    {
        self.table.row_of(address).is_none() || self.address(self.active()) == Some(address)
    }

    /// The devices that a frame loses by this bit are gone.
    pub(crate) fn drop_lost(&mut self, cuts: &Cuts, last: u16)
        requires { lost_by cuts.now last self.old.state.active ≡ false }
        ensures state { self.new.state ≡ emptied (lost_by cuts.now last) self.old.state }
        ensures room { self.new.room ≡ self.old.room }
    {
        self.devices.drop_lost(cuts, last);
    }

    /// The beginning of a frame that goes on: there is room for a record, the first request is served, and after one
    /// a repeated START and the broadcast header are sent. It changes nothing where there is no memory.
    #[inline(always)]
    pub(crate) fn begin_frame<P: Policy, T: Tap>(
        &mut self,
        policy: &mut P,
        tap: &mut T,
        cuts: &Cuts,
    ) -> Result<FrameStart, OutOfMemory>
        ensures begins { IfOk result (λ b. (word : ℕ) × Begins self.old.state cuts.now b.served word self.new.state × (b.bits ≡ word + header_bits b.served)
            × Tells T.note_gives tap.old tap.new (IsWay self.old.state cuts.now b.served word self.new.state)) }
        ensures asks { IfOk result (λ b. Decides P.verdict_gives policy.old policy.new self.old.state (given_for b.served)) }
        ensures room { IfOk result (λ b. place_of b.served ≡ None → self.new.room ≡ true) }
        ensures few { IfOk result (λ b. b.bits ≤ 18) }
        ensures short { OnErr result (IsUntouched self.old self.new × (self.old.room ≡ false) × (policy.new ≡ policy.old) × (tap.new ≡ tap.old)) }
    {
        self.make_room()?;
        let start = self.begin(policy, tap, cuts);
        Ok(self.go_on(start, tap, cuts))
    }

    /// The beginning of a frame: its first request is served. There must be room for a record.
    #[inline(always)]
    fn begin<P: Policy, T: Tap>(&mut self, policy: &mut P, tap: &mut T, cuts: &Cuts) -> FrameStart
        requires room { self.old.room ≡ true }
        ensures begins { Begins self.old.state cuts.now result.served result.bits self.new.state }
        ensures asks { Decides P.verdict_gives policy.old policy.new self.old.state (given_for result.served) }
        ensures told { Tells T.note_gives tap.old tap.new (IsBegun self.old.state cuts.now result.served self.new.state) }
        ensures room { place_of result.served ≡ None → self.new.room ≡ true }
    {
        let active = self.active();
        let ack = self.devices.is_heard(active, &None, cuts, 0);
        let reading = serve(&mut self.devices, active, &self.table, policy, cuts);
        tell_reading(tap, &reading, ack);
        let served = record_due(&mut self.records, &reading);
        let bits = reading.word_bits();
        FrameStart { served, bits }
    }

    /// How a frame goes on after its beginning: after a request a repeated START and the broadcast header are sent.
    #[inline(always)]
    pub(crate) fn go_on<T: Tap>(&self, start: FrameStart, tap: &mut T, cuts: &Cuts) -> FrameStart
        requires { start.bits ≤ 9 }
        ensures served { result.served ≡ start.served }
        ensures bits { result.bits ≡ start.bits + header_bits start.served }
        ensures told { Tells T.note_gives tap.old tap.new (IsOn self.now.state cuts.now start.served start.bits) }
    {
        let FrameStart { served, bits } = start;
        match served {
            Served::Quiet => FrameStart { served, bits },
            _ => {
                let ack = self
                    .devices
                    .is_heard(self.active(), &None, cuts, bits + HEADER_BITS);
                tell_repeated(tap, ack);
                FrameStart {
                    served,
                    bits: bits + HEADER_BITS,
                }
            }
        }
    }

    /// The beginning of a frame that turns each request down.
    pub(crate) fn begin_refusing<T: Tap>(&self, tap: &mut T, cuts: &Cuts) -> FrameStart
        ensures serves { (lost : Lost) → Serves self.now.state refuse_all lost result.served self.now.state }
        ensures sent { IsWordBits self.now.state result.served result.bits }
        ensures bits { result.bits ≡ 0 }
        ensures told { Tells T.note_gives tap.old tap.new (IsBegun self.now.state cuts.now result.served self.now.state) }
        ensures unrecorded { place_of result.served ≡ None }
    {
        let active = self.active();
        let served = match first_request(&self.devices, active) {
            None => {
                let ack = self.devices.is_heard(active, &None, cuts, 0);
                tell_broadcast(tap, ack);
                Served::Quiet
            }
            Some(request) => {
                tell_request(tap, request, false);
                Served::Refused
            }
        };
        FrameStart { served, bits: 0 }
    }
}

/// Appends the record of the reading, if it has one, and answers what the frame served.
fn record_due(records: &mut Vec<Record>, reading: &Reading) -> Served
    requires { vec_len records.old < vec_capacity records.old }
    ensures served { result ≡ served_as (length records.old.items) reading.now }
    ensures items { records.new.items ≡ kept_in reading.now records.old.items }
    ensures room { place_of result ≡ None → records.new ≡ records.old }
{
    match *reading {
        Reading::Quiet => Served::Quiet,
        Reading::Refused(_) => Served::Refused,
        Reading::Joined => Served::Joining,
        Reading::WantsRole(at) => Served::WantsRole(at),
        Reading::Torn(_, _) => Served::Torn,
        Reading::Due(record) => {
            records.push_reserved(record);
            Served::Recorded(records.len())
        }
    }
}
