use crate::bus::Bus;
use crate::frames::FrameStart;
use crate::hand::Session;
use crate::wire::tell_open;
use i3c_base::{Cuts, RoundReply, Served};
use i3c_entdaa::{Round, round, tell_round};
use i3c_frame::{Symbol, Tap};
use i3c_handoff::Role;
use i3c_step::ActiveStays;
use i3c_word::WORD_BITS;

impl Bus {
    ghost use Rattle.std.specs.Prelude.{◌≡◌, true, false, IfErr};
    ghost use Rattle.i3c_base.specs.Round.{Rounds, ended, opened};
    ghost use Rattle.i3c_entdaa.specs.Rounds.{IsAcknowledged, IsRead, reply_of};
    ghost use Rattle.i3c_entdaa.specs.Wire.{IsRoundWire};
    ghost use Rattle.i3c_frame.specs.Taps.{Tells};
    ghost use Rattle.i3c_bus.specs.Calls.{Carries};
    ghost use Rattle.i3c_bus.specs.Hands.{HandFits, opened_hand};
    ghost use Rattle.i3c_step.specs.Step.{cuts_active};
    ghost use Rattle.i3c_step.specs.Replies.{opened_reply};
    ghost use Rattle.i3c_step.specs.declared.events.Event.{Event};
    ghost use Rattle.i3c_bus.specs.declared.hand.Hand.{Hand};

    /// Opens a session (ENTDAA, I3C Basic 5.1.4.2): each device without an address hears it. Requests are turned down.
    /// Where the active controller is cut, it is refused, and the role comes back.
    pub fn open_daa<T: Tap>(
        &mut self,
        role: Role,
        tap: &mut T,
        cuts: &Cuts,
    ) -> Result<(Session, Served), (Role, ActiveStays)>
        requires fits { HandFits (Hand.Role role) self.old.state }
        ensures carried { Carries self.old self.new (Event.OpenDaa cuts.now) (opened_reply result) (opened_hand result) (Tells T.note_gives tap.old tap.new) }
        ensures kept { IfErr result (λ refused. refused.0 ≡ role) }
    {
        if self.cuts_active(cuts) {
            return Err((role, ActiveStays));
        }
        let start = self.begin_refusing(tap, cuts);
        let FrameStart { served, bits } = self.go_on(start, tap, cuts);
        tell_open(tap);
        self.open();
        self.drop_lost(cuts, bits + WORD_BITS);
        Ok((Session { role }, served))
    }

    /// Opens a session: each device without an address hears it.
    fn open(&mut self)
        ensures state { self.new.state ≡ opened self.old.state }
        ensures room { self.new.room ≡ self.old.room }
    {
        self.devices.open();
        self.in_session = true;
    }

    /// One round of the open session.
    fn round<T: Tap>(&mut self, tap: &mut T, cuts: &Cuts) -> Round
        requires { cuts_active self.old.state cuts.now ≡ false }
        ensures rounds { Rounds self.old.state cuts.now (reply_of result) self.new.state }
        ensures read { IsRead self.old.state cuts.now result }
        ensures acknowledged { IsAcknowledged self.old.state cuts.now result }
        ensures told { Tells T.note_gives tap.old tap.new (IsRoundWire result) }
        ensures room { self.new.room ≡ self.old.room }
    {
        let round = round(&mut self.devices, &mut self.table, cuts);
        tell_round(tap, &round);
        round
    }

    /// The session ends, and nobody hears any more.
    fn end(&mut self)
        ensures state { self.new.state ≡ ended self.old.state }
        ensures room { self.new.room ≡ self.old.room }
    {
        self.devices.silence();
        self.in_session = false;
    }
}

impl Session {
    ghost use Rattle.std.specs.Prelude.{◌≡◌};
    ghost use Rattle.i3c_frame.specs.Taps.{Tells};
    ghost use Rattle.i3c_bus.specs.Calls.{Carries};
    ghost use Rattle.i3c_bus.specs.Hands.{HandFits, opened_hand};
    ghost use Rattle.i3c_step.specs.Replies.{rounded_reply};
    ghost use Rattle.i3c_step.specs.declared.events.Event.{Event};
    ghost use Rattle.i3c_step.specs.declared.replies.Reply.{Reply};
    ghost use Rattle.i3c_bus.specs.declared.hand.Hand.{Hand};

    /// One round: the least identity of the hearers gets its address (I3C Basic 5.1.4.2). It is refused if the active
    /// controller is cut.
    pub fn round<T: Tap>(
        &self,
        bus: &mut Bus,
        tap: &mut T,
        cuts: &Cuts,
    ) -> Result<RoundReply, ActiveStays>
        requires fits { HandFits (Hand.Session self.now) bus.old.state }
        ensures carried { Carries bus.old bus.new (Event.Round cuts.now) (rounded_reply result) (Hand.Session self.now) (Tells T.note_gives tap.old tap.new) }
    {
        if bus.cuts_active(cuts) {
            return Err(ActiveStays);
        }
        Ok(bus.round(tap, cuts).reply())
    }

    /// The session ends with STOP, and nobody hears any more.
    pub fn end<T: Tap>(self, bus: &mut Bus, tap: &mut T) -> Role
        requires fits { HandFits (Hand.Session self) bus.old.state }
        ensures carried { Carries bus.old bus.new Event.EndDaa Reply.Ended (Hand.Role result) (Tells T.note_gives tap.old tap.new) }
    {
        tap.note(Symbol::Stop);
        bus.end();
        self.into_role()
    }
}
