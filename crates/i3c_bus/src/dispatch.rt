ghost use Rattle.std.specs.Prelude.{◌≡◌};
ghost use Rattle.i3c_bus.specs.Hands.{unhanded};

use crate::bus::Bus;
use crate::hand::Hand;
use i3c_base::{Addr7, Answer, Cuts, Fixed, Served};
use i3c_frame::Tap;
use i3c_handoff::HandFault;
use i3c_step::{ActiveStays, Command, Event, Framed, Refusal, Reply, SlotTaken, copy_of};

impl Bus {
    ghost use Rattle.i3c_frame.specs.Taps.{Tells};
    ghost use Rattle.i3c_bus.specs.Calls.{Carries};
    ghost use Rattle.i3c_step.specs.Commands.{event_of};
    ghost use Rattle.i3c_bus.specs.Hands.{HandFits};
    ghost use Rattle.i3c_step.specs.declared.events.Event.{Event};

    /// Carries out one event, or refuses it: a frame other than a round or an end while a session is open is
    /// `SessionOpen`, a round or end without one `NoSession`.
    pub fn step<T: Tap>(&mut self, hand: Hand, event: &Event, tap: &mut T) -> (Hand, Reply)
        requires fits { HandFits hand self.old.state }
        ensures carried { Carries self.old self.new event.now result.1 result.0 (Tells T.note_gives tap.old tap.new) }
    {
        match event {
            Event::Attach(slot, setup) => match self.attach(*slot, *setup) {
                Ok(()) => (hand, Reply::Attached),
                Err(SlotTaken) => (hand, Reply::Refused(Refusal::SlotTaken)),
            },
            Event::DropOff(slot) => match self.drop_off(*slot) {
                Ok(()) => (hand, Reply::Dropped),
                Err(why) => (hand, Reply::Refused(Refusal::from(why))),
            },
            Event::Raise(slot, byte) => match self.raise(*slot, *byte) {
                Ok(number) => (hand, Reply::Raised(number)),
                Err(why) => (hand, Reply::Refused(Refusal::from(why))),
            },
            Event::AskJoin(slot) => match self.ask_join(*slot) {
                Ok(()) => (hand, Reply::Asked),
                Err(why) => (hand, Reply::Refused(Refusal::from(why))),
            },
            Event::AskRole(slot) => match self.ask_role(*slot) {
                Ok(()) => (hand, Reply::Asked),
                Err(why) => (hand, Reply::Refused(Refusal::from(why))),
            },
            Event::Serve(policy, cuts) => self.send(hand, Command::Serve, *policy, tap, cuts),
            Event::Enec(to, kinds, policy, cuts) => {
                self.send(hand, Command::Enec(*to, *kinds), *policy, tap, cuts)
            }
            Event::Disec(to, kinds, policy, cuts) => {
                self.send(hand, Command::Disec(*to, *kinds), *policy, tap, cuts)
            }
            Event::Reset(policy, cuts) => self.send(hand, Command::Reset, *policy, tap, cuts),
            Event::SendList(policy, cuts) => self.send(hand, Command::SendList, *policy, tap, cuts),
            Event::ReadFrom(from, policy, cuts) => {
                self.send(hand, Command::ReadFrom(*from), *policy, tap, cuts)
            }
            Event::WriteTo(to, bytes, policy, cuts) => {
                let command = Command::WriteTo(*to, copy_of(bytes));
                self.send(hand, command, *policy, tap, cuts)
            }
            Event::SetStatic(fixed, new, policy, cuts) => {
                self.send(hand, Command::SetStatic(*fixed, *new), *policy, tap, cuts)
            }
            Event::SetNew(old, new, policy, cuts) => {
                self.send(hand, Command::SetNew(*old, *new), *policy, tap, cuts)
            }
            Event::Get(what, from, policy, cuts) => {
                self.send(hand, Command::Get(*what, *from), *policy, tap, cuts)
            }
            Event::SetLength(way, most, to, policy, cuts) => {
                let command = Command::SetLength(*way, *most, *to);
                self.send(hand, command, *policy, tap, cuts)
            }
            Event::HandOver(to, cuts) => self.step_hand(hand, *to, tap, cuts),
            Event::OpenDaa(cuts) => self.step_open(hand, tap, cuts),
            Event::Round(cuts) => self.step_round(hand, tap, cuts),
            Event::EndDaa => self.step_end(hand, tap),
        }
    }

    // The frames below are kept apart by `inline(never)`: what is inlined here clears its locals for each event.

    /// A frame under the role, as an event.
    fn send<T: Tap>(
        &mut self,
        hand: Hand,
        command: Command,
        policy: Fixed,
        tap: &mut T,
        cuts: &Cuts,
    ) -> (Hand, Reply)
        requires fits { HandFits hand self.old.state }
        ensures carried { Carries self.old self.new (event_of command policy cuts.now) result.1 result.0 (Tells T.note_gives tap.old tap.new) }
    {
        let mut fixed = policy;
        let reply = self.command(&hand, &command, &mut fixed, tap, cuts);
        (hand, reply)
    }

    /// Opens a session, as an event.
    #[inline(never)]
    fn step_open<T: Tap>(&mut self, hand: Hand, tap: &mut T, cuts: &Cuts) -> (Hand, Reply)
        requires fits { HandFits hand self.old.state }
        ensures carried { Carries self.old self.new (Event.OpenDaa cuts.now) result.1 result.0 (Tells T.note_gives tap.old tap.new) }
    {
        match hand {
            Hand::Role(role) => match self.open_daa(role, tap, cuts) {
                Ok((session, served)) => (Hand::Session(session), Reply::Opened(served)),
                Err((role, ActiveStays)) => (
                    Hand::Role(role),
                    Reply::Refused(Refusal::ActiveStays),
                ),
            },
            Hand::Session(session) => (
                Hand::Session(session),
                Reply::Refused(Refusal::SessionOpen),
            ),
        }
    }

    /// A handover, as an event.
    #[inline(never)]
    fn step_hand<T: Tap>(
        &mut self,
        hand: Hand,
        to: Addr7,
        tap: &mut T,
        cuts: &Cuts,
    ) -> (Hand, Reply)
        requires fits { HandFits hand self.old.state }
        ensures carried { Carries self.old self.new (Event.HandOver to cuts.now) result.1 result.0 (Tells T.note_gives tap.old tap.new) }
    {
        match hand {
            Hand::Role(role) => match self.hand_over(role, to, tap, cuts) {
                Ok((role, served)) => (Hand::Role(role), Reply::Handed(served)),
                Err((role, served, fault)) => (Hand::Role(role), unhanded(served, fault)),
            },
            Hand::Session(session) => (
                Hand::Session(session),
                Reply::Refused(Refusal::SessionOpen),
            ),
        }
    }

    /// A round, as an event.
    #[inline(never)]
    fn step_round<T: Tap>(&mut self, hand: Hand, tap: &mut T, cuts: &Cuts) -> (Hand, Reply)
        requires fits { HandFits hand self.old.state }
        ensures carried { Carries self.old self.new (Event.Round cuts.now) result.1 result.0 (Tells T.note_gives tap.old tap.new) }
    {
        match hand {
            Hand::Role(role) => (Hand::Role(role), Reply::Refused(Refusal::NoSession)),
            Hand::Session(session) => {
                let reply = match session.round(self, tap, cuts) {
                    Ok(answer) => Reply::Round(answer),
                    Err(ActiveStays) => Reply::Refused(Refusal::ActiveStays),
                };
                (Hand::Session(session), reply)
            }
        }
    }

    /// The end of a session, as an event.
    #[inline(never)]
    fn step_end<T: Tap>(&mut self, hand: Hand, tap: &mut T) -> (Hand, Reply)
        requires fits { HandFits hand self.old.state }
        ensures carried { Carries self.old self.new Event.EndDaa result.1 result.0 (Tells T.note_gives tap.old tap.new) }
    {
        match hand {
            Hand::Role(role) => (Hand::Role(role), Reply::Refused(Refusal::NoSession)),
            Hand::Session(session) => (Hand::Role(session.end(self, tap)), Reply::Ended),
        }
    }
}

/// The reply to a handover that isn't granted, and has served this.
fn unhanded(served: Served, fault: HandFault) -> Reply
    ensures { result ≡ unhanded served fault }
{
    match fault {
        HandFault::ActiveStays => Reply::Refused(Refusal::ActiveStays),
        HandFault::IsActive => Reply::Refused(Refusal::IsActive),
        HandFault::NotCapable => Reply::Refused(Refusal::NotCapable),
        HandFault::ListStale => Reply::Refused(Refusal::ListStale),
        HandFault::NoAnswer(to) => Reply::Framed(Framed {
            served,
            answer: Answer::NoAnswer(to),
        }),
    }
}
