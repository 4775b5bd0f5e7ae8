use crate::bus::Bus;
use crate::hand::Session;
use arrayvec::ArrayVec;
use i3c_base::{Addr7, Cuts, Identity, RoundReply, SLOTS, Served};
use i3c_frame::Tap;
use i3c_handoff::Role;
use i3c_step::ActiveStays;

/// What a whole assignment came to.
#[derive(Clone, Debug, PartialEq, Eq, Drop)]
pub struct Assignment {
    /// The result of the first request, which the opening frame turns down.
    pub served: Served,
    /// The addresses that were given, in order, each with the identity that has it.
    pub given: ArrayVec<(Addr7, Identity), SLOTS>,
    /// Whether each device that heard the session has an address. Otherwise no address was left.
    pub complete: bool,
}

impl Assignment {
    ghost use Rattle.std.specs.Prelude.{◌≡◌, [], true};
    ghost use Rattle.i3c_base.specs.declared.requests.Served.{Served as ServedValue};

    /// What an assignment in which nobody hears comes to: no request, no address, and nothing left to do.
    #[inline(always)]
    pub fn new() -> Assignment
        ensures quiet { result.served ≡ ServedValue.Quiet }
        ensures none { result.given.items ≡ [] }
        ensures whole { result.complete ≡ true }
    {
        Assignment {
            served: Served::Quiet,
            given: ArrayVec::new(),
            complete: true,
        }
    }
}

impl Bus {
    ghost use Rattle.std.specs.Prelude.{◌≡◌, ◌≢◌, true, ℕ, ◌<◌, ◌++◌, ◌∷◌, [], map, IfErr, IfOk, OnOk};
    ghost use Rattle.i3c_base.specs.Cutting.{no_cuts};
    ghost use Rattle.i3c_base.specs.declared.answers.RoundReply.{RoundReply as RoundReplyValue};
    ghost use Rattle.i3c_base.specs.declared.identity.Identity.{Identity as IdentityValue};
    ghost use Rattle.i3c_frame.specs.Taps.{Tells};
    ghost use Rattle.i3c_bus.specs.Assigning.{AreRounds, IsAssignment, Sends, given_reply, last_reply};
    ghost use Rattle.i3c_bus.specs.Calls.{Carries};
    ghost use Rattle.i3c_bus.specs.Hands.{HandFits};
    ghost use Rattle.i3c_bus.specs.declared.hand.Hand.{Hand};
    ghost use Rattle.i3c_step.specs.Sessions.{hearers};
    ghost use Rattle.i3c_step.specs.declared.events.Event.{Event};
    ghost use Rattle.i3c_step.specs.declared.replies.Refusal.{Refusal};
    ghost use Rattle.i3c_step.specs.declared.replies.Reply.{Reply};

    /// Plays a whole session (ENTDAA, I3C Basic 5.1.4.2): opens it, goes round until each device that hears it has an
    /// address or none is left, and ends it. Nobody is cut in its rounds. Where the active controller is cut, it is
    /// refused.
    pub fn assign_all<T: Tap>(
        &mut self,
        role: Role,
        tap: &mut T,
        cuts: &Cuts,
    ) -> (Role, Result<Assignment, ActiveStays>)
        requires fits { HandFits (Hand.Role role) self.old.state }
        ensures assigned { IfOk result.1 (λ all. Tells T.note_gives tap.old tap.new (IsAssignment self.old.state cuts.now all.served all.given.items all.complete self.new.state)) }
        ensures refused { IfErr result.1 (λ _. Carries self.old self.new (Event.OpenDaa cuts.now) (Reply.Refused Refusal.ActiveStays) (Hand.Role role) (Tells T.note_gives tap.old tap.new)) }
        ensures fits { HandFits (Hand.Role result.0) self.new.state }
        ensures room { self.old.room ≡ true → self.new.room ≡ true }
    {
        let mut all = Assignment::new();
        let (role, assigned) = self.assign_into(role, tap, cuts, &mut all);
        match assigned {
            Ok(()) => (role, Ok(all)),
            Err(why) => (role, Err(why)),
        }
    }

    /// Plays a whole session as [`Bus::assign_all`] does, and writes into `all` what it came to. A call that is repeated
    /// moves no assignment so.
    pub fn assign_into<T: Tap>(
        &mut self,
        role: Role,
        tap: &mut T,
        cuts: &Cuts,
        all: &mut Assignment,
    ) -> (Role, Result<(), ActiveStays>)
        requires fits { HandFits (Hand.Role role) self.old.state }
        ensures assigned { OnOk result.1 (Tells T.note_gives tap.old tap.new (IsAssignment self.old.state cuts.now all.new.served all.new.given.items all.new.complete self.new.state)) }
        ensures refused { IfErr result.1 (λ _. Carries self.old self.new (Event.OpenDaa cuts.now) (Reply.Refused Refusal.ActiveStays) (Hand.Role role) (Tells T.note_gives tap.old tap.new)) }
        ensures fits { HandFits (Hand.Role result.0) self.new.state }
        ensures room { self.old.room ≡ true → self.new.room ≡ true }
    {
        let (session, served) = match self.open_daa(role, tap, cuts) {
            Ok(opened) => opened,
            Err((role, ActiveStays)) => return (role, Err(ActiveStays)),
        };
        all.served = served;
        all.given.clear();
        all.complete = self.all_rounds(&session, tap, &mut all.given);
        let role = session.end(self, tap);
        (role, Ok(()))
    }

    /// All rounds of a session, in which nobody is cut: appends the addresses that they give, and answers whether each hearer
    /// has one.
    fn all_rounds<T: Tap>(
        &mut self,
        session: &Session,
        tap: &mut T,
        given: &mut ArrayVec<(Addr7, Identity), SLOTS>,
    ) -> bool
        requires fits { HandFits (Hand.Session session.now) self.old.state }
        requires none { given.old.items ≡ [] }
        ensures gives { Tells T.note_gives tap.old tap.new (λ wire. AreRounds self.old.state (map given_reply given.new.items ++ last_reply result ∷ []) wire self.new.state) }
        ensures fits { HandFits (Hand.Session session.now) self.new.state }
        ensures room { self.old.room ≡ true → self.new.room ≡ true }
    {
        let cuts = Cuts::new();
        // a round that gives an address leaves one hearer fewer
        for _ in 0..=self.devices.slots() {
            match self.uncut_round(session, tap, &cuts) {
                RoundReply::Assigned(address, identity) => given.push((address, identity)),
                RoundReply::Done => return true,
                RoundReply::NoAddress => return false,
                RoundReply::Nobody => unreachable!(),
            }
        }
        unreachable!()
    }

    /// A round of a session in which nobody is cut.
    fn uncut_round<T: Tap>(&mut self, session: &Session, tap: &mut T, cuts: &Cuts) -> RoundReply
        requires fits { HandFits (Hand.Session session.now) self.old.state }
        requires uncut { cuts.now ≡ no_cuts }
        ensures sends { Tells T.note_gives tap.old tap.new (λ wire. Sends self.old.state (Event.Round no_cuts) (Reply.Round result) wire self.new.state) }
        ensures acknowledged { result ≢ RoundReplyValue.Nobody }
        ensures fewer { (a : ℕ) (i : IdentityValue) → result ≡ RoundReplyValue.Assigned a i → hearers self.new.state.devices < hearers self.old.state.devices }
        ensures fits { HandFits (Hand.Session session.now) self.new.state }
        ensures room { self.old.room ≡ true → self.new.room ≡ true }
    {
        let Ok(answer) = session.round(self, tap, cuts) else {
            // the active controller isn't cut
            unreachable!()
        };
        answer
    }
}
