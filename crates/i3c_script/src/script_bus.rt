ghost use Rattle.std.specs.Prelude.{◌≡◌, ◌+◌, Some, None, length, OnOk};
ghost use Rattle.i3c_base.specs.Cutting.{no_cuts};
ghost use Rattle.i3c_bus.specs.Hands.{HandFits};
ghost use Rattle.i3c_bus.specs.declared.hand.Hand.{Hand as HandValue};
ghost use Rattle.i3c_script.specs.Assigning.{ended_by};

use crate::assigning;
use crate::details::hear_all;
use crate::journal::Journal;
use crate::past::Past;
use crate::piece::Listener;
use crate::replies::{
    answer_attached, answer_dropped, answer_frame, answer_join, answer_raised, answer_reply,
    answer_role, count_from, subject_of,
};
use crate::settings::Settings;
use crate::show::{hear_bus, hear_bus_behind};
use crate::slot_lookup::{acting_refusal, entrance, slot_of_device, slots_of_devices};
use crate::tenures::is_handed;
use arrayvec::ArrayVec;
use i3c_base::{Addr7, Cuts, Fixed, Setup, Slot};
use i3c_bus::{Bus, BusSnapshot, Command as Frame, Event, Hand, Reply};
use i3c_frame::Symbol;
use i3c_legacy::Legacies;
use i3c_lines::{Command, EXCEPTED, Name, Naming, Refusal, Sent, slot_meant};
use i3c_text::LineError;
use std::alloc::{AllocError, Global};
use std::marker::Model;
use std::mem;

/// Names the lines behind `as NAME`.
struct Acting;

/// A bus on which lines are obeyed: its role or session, what its lines have set, the cuts that wait for the next frame, and
/// what is kept of its past.
///
/// The role is in an `Option`, so that an event can take it from a bus that is lent, and give one back.
pub struct ScriptBus<P> {
    bus: Bus,
    hand: Option<Hand>,
    settings: Settings,
    cuts: Cuts,
    past: P,
}

impl<P> Model for ScriptBus<P> {
    ghost use Rattle.std.specs.Prelude.{◌≡◌, Some};
    ghost use Rattle.i3c_bus.specs.Hands.{HandFits};
    ghost use Rattle.i3c_bus.specs.declared.hand.Hand.{Hand as HandValue};
    ghost use Rattle.i3c_script.specs.Situations.{Situation, situation};

    ghost Value = { Situation P };

    ghost view = { λ b. situation b.bus.state b.settings b.cuts b.past };

    ghost invariant = { λ b. (hand : HandValue) × (b.hand ≡ Some hand) × HandFits hand b.bus.state };
}

impl<P: Past> ScriptBus<P> {
    ghost use Rattle.std.specs.Prelude.{◌≡◌, ◌≤◌, ◌-◌, length, true, Ok, Err, IfOk, MatchResult, OnOk};
    ghost use Rattle.i3c_base.specs.Numbers.{is_capable};
    ghost use Rattle.i3c_base.specs.Cutting.{no_cuts};
    ghost use Rattle.i3c_base.specs.State.{IsStart};
    ghost use Rattle.i3c_bus.specs.Near.{IsNear};
    ghost use Rattle.i3c_script.specs.Accepting.{at_first};
    ghost use Rattle.i3c_step.specs.declared.events.Event.{Event as EventValue};
    ghost use Rattle.i3c_script.specs.Asking.{slot_of_device, slots_named};
    ghost use Rattle.i3c_script.specs.Assigning.{Assigns, Moves, cuts_left};
    ghost use Rattle.i3c_script.specs.Obeying.{Acts, ActsAs, Answers, AnswersIn, Enters, IsDone, ObeysOn, Relieves, Sends, Sets, cut_at};
    ghost use Rattle.i3c_script.specs.Hearing.{Hears};
    ghost use Rattle.i3c_script.specs.Pieces.{frames_pieces, show_all_pieces, show_behind_pieces, show_pieces, symbols_pieces};
    ghost use Rattle.i3c_script.specs.Situations.{situation};

    /// A bus with this main controller, whose frames accept each request.
    #[inline(always)]
    pub(crate) fn new(alloc: Global, main: Setup, legacies: Legacies, past: P) -> ScriptBus<P>
        requires capable { is_capable main.identity.bcr ≡ true }
        ensures start { IsStart main legacies result.state }
        ensures settings { result.settings ≡ at_first }
        ensures cuts { result.cuts ≡ no_cuts }
        ensures past { result.past ≡ past }
    {
        let Ok((bus, role)) = Bus::new(alloc, main, legacies) else {
            unreachable!();
        };
        ScriptBus {
            bus,
            hand: Some(Hand::Role(role)),
            settings: Settings::new(),
            cuts: Cuts::new(),
            past,
        }
    }

    /// A bus with its role or session, these settings, cuts that wait, and what is kept of its past.
    pub fn of_parts(bus: Bus, hand: Hand, settings: Settings, cuts: Cuts, past: P) -> ScriptBus<P>
        requires fits { HandFits hand bus.state }
        ensures { result ≡ situation bus.state settings cuts past }
    {
        ScriptBus {
            bus,
            hand: Some(hand),
            settings,
            cuts,
            past,
        }
    }

    /// The bus.
    pub fn bus(&self) -> &Bus
        ensures { result.now.state ≡ self.now.state }
    {
        &self.bus
    }

    /// What its lines have set.
    pub fn settings(&self) -> &Settings
        ensures { result.now ≡ self.now.settings }
    {
        &self.settings
    }

    /// How many records have left the log.
    pub fn forgotten(&self) -> usize
        ensures { result ≡ self.now.settings.forgotten }
    {
        self.settings.forgotten
    }

    /// The cuts that wait for the next frame.
    pub fn cuts(&self) -> &Cuts
        ensures { result.now ≡ self.now.cuts }
    {
        &self.cuts
    }

    /// Obeys a line, and lets a listener hear what it comes to. `K` names the caller, so that each caller has it in line.
    pub fn obey<K, N: Naming, L: Listener>(
        &mut self,
        names: &mut N,
        command: &Command,
        listener: &mut L,
    ) -> Result<(), LineError<Refusal>>
        ensures { Hears L.heard (λ pieces refused. ObeysOn P.kept N.kept self.old names.old command.now pieces refused self.new names.new) listener.old listener.new result }
    {
        match command {
            Command::Raise { name, byte } => self.raise::<K, N, L>(names, name, *byte, listener),
            Command::Frame(frame) => self.send::<K, L>(frame, listener),
            Command::Attach { name, setup } => self.attach(names, name, *setup, listener),
            Command::DropOff { name } => self.drop_off(names, name, listener),
            Command::AskJoin { name } => self.ask_join(names, name, listener),
            Command::AskRole { name } => self.ask_role(names, name, listener),
            Command::HandOver { to } => self.hand_over(*to, listener),
            Command::Open => self.open(listener),
            Command::Round => self.round(listener),
            Command::End => self.end(listener),
            Command::Daa => self.assign(listener),
            Command::Policy(kinds) => {
                self.set(*kinds, ArrayVec::new());
                Ok(())
            }
            Command::PolicyBut { kinds, but } => self.except(names, *kinds, but.as_slice()),
            Command::Cut { name, bit } => self.cut(names, name, *bit),
            Command::Show => self.show(names, listener),
            Command::ShowAll => self.show_all(names, listener),
            Command::ShowFrom(first) => self.show_from(names, *first, listener),
            Command::Forget(last) => {
                self.forget(*last as usize);
                Ok(())
            }
            Command::Symbols => self.show_symbols(listener),
            Command::Frames(count) => self.show_frames(*count, listener),
            Command::As { name, sent } => self.act_as(names, name, sent, listener),
            Command::Legacy { .. } | Command::Declare { .. } | Command::Main { .. } => Err(
                Refusal::BusMade.into(),
            ),
        }
    }

    /// `raise`, which sends no frame.
    fn raise<K, N: Naming, L: Listener>(
        &mut self,
        names: &N,
        name: &Name,
        byte: Option<u8>,
        listener: &mut L,
    ) -> Result<(), LineError<Refusal>>
        ensures { Hears L.heard (λ pieces refused. AnswersIn P.kept N.kept self.old names.now name.now (λ slot. EventValue.Raise slot byte) pieces refused self.new) listener.old listener.new result }
    {
        match slot_meant(names, name) {
            Ok(slot) => self.raise_in(slot, byte, listener),
            Err(why) => Err(LineError::Refused(why)),
        }
    }

    /// The device in a slot raises an interrupt.
    #[inline(always)]
    pub fn raise_in<L: Listener>(
        &mut self,
        slot: Slot,
        byte: Option<u8>,
        listener: &mut L,
    ) -> Result<(), LineError<Refusal>>
        ensures { Hears L.heard (λ pieces refused. Answers P.kept self.old (EventValue.Raise slot byte) pieces refused self.new) listener.old listener.new result }
    {
        let raised = self.bus.raise(slot, byte);
        answer_raised(raised, listener)
    }

    /// A line that sends a frame under the role. The frame takes the cuts that wait.
    fn send<K, L: Listener>(
        &mut self,
        frame: &Frame,
        listener: &mut L,
    ) -> Result<(), LineError<Refusal>>
        ensures { Hears L.heard (λ pieces refused. Sends P.kept self.old frame.now pieces refused self.new) listener.old listener.new result }
    {
        let Some(hand) = &self.hand else {
            unreachable!()
        };
        let mut accepted = self.settings.accepted(&self.bus);
        let mut reply = Reply::OutOfMemory;
        let past = &mut self.past;
        self.bus
            .command_into(hand, frame, &mut accepted, past, &self.cuts, &mut reply);
        self.cuts.clear();
        count_from(self.settings.forgotten, &mut reply)?;
        answer_frame(frame, &reply, listener)
    }

    // The lines below are kept apart, so that raises and the frames under the role don't pay for the room that they take
    // on the stack.

    /// `attach`: a device enters the lowest free slot, and gets its name.
    #[inline(never)]
    fn attach<N: Naming, L: Listener>(
        &mut self,
        names: &mut N,
        name: &Name,
        setup: Setup,
        listener: &mut L,
    ) -> Result<(), LineError<Refusal>>
        ensures { Hears L.heard (λ pieces refused. Enters P.kept N.kept self.old names.old name.now setup pieces refused self.new names.new) listener.old listener.new result }
    {
        match entrance(&self.bus, names, name) {
            Ok(slot) => match names.give_slot(name, slot) {
                Ok(()) => {
                    let attached = self.bus.attach(slot, setup);
                    answer_attached(name, slot, attached, listener)
                }
                Err(_) => Err(LineError::Memory),
            },
            Err(why) => Err(LineError::Refused(why)),
        }
    }

    /// `drop`: a device loses power.
    #[inline(never)]
    fn drop_off<N: Naming, L: Listener>(
        &mut self,
        names: &N,
        name: &Name,
        listener: &mut L,
    ) -> Result<(), LineError<Refusal>>
        ensures { Hears L.heard (λ pieces refused. AnswersIn P.kept N.kept self.old names.now name.now EventValue.DropOff pieces refused self.new) listener.old listener.new result }
    {
        match slot_meant(names, name) {
            Ok(slot) => {
                let dropped = self.bus.drop_off(slot);
                answer_dropped(dropped, listener)
            }
            Err(why) => Err(LineError::Refused(why)),
        }
    }

    /// `ask-join`: a device wishes to join.
    #[inline(never)]
    fn ask_join<N: Naming, L: Listener>(
        &mut self,
        names: &N,
        name: &Name,
        listener: &mut L,
    ) -> Result<(), LineError<Refusal>>
        ensures { Hears L.heard (λ pieces refused. AnswersIn P.kept N.kept self.old names.now name.now EventValue.AskJoin pieces refused self.new) listener.old listener.new result }
    {
        match slot_meant(names, name) {
            Ok(slot) => {
                let asked = self.bus.ask_join(slot);
                answer_join(asked, listener)
            }
            Err(why) => Err(LineError::Refused(why)),
        }
    }

    /// `ask-role`: a device wishes for the controller role.
    #[inline(never)]
    fn ask_role<N: Naming, L: Listener>(
        &mut self,
        names: &N,
        name: &Name,
        listener: &mut L,
    ) -> Result<(), LineError<Refusal>>
        ensures { Hears L.heard (λ pieces refused. AnswersIn P.kept N.kept self.old names.now name.now EventValue.AskRole pieces refused self.new) listener.old listener.new result }
    {
        match slot_meant(names, name) {
            Ok(slot) => {
                let asked = self.bus.ask_role(slot);
                answer_role(asked, listener)
            }
            Err(why) => Err(LineError::Refused(why)),
        }
    }

    /// `handover`: the role is offered to the device at an address.
    #[inline(never)]
    fn hand_over<L: Listener>(
        &mut self,
        to: Addr7,
        listener: &mut L,
    ) -> Result<(), LineError<Refusal>>
        ensures { Hears L.heard (λ pieces refused. Answers P.kept self.old (EventValue.HandOver to self.old.cuts) pieces refused self.new) listener.old listener.new result }
    {
        let cuts = self.take_cuts();
        self.answer(&Event::HandOver(to, cuts), listener)
    }

    /// `open`: a session is opened, and stays open.
    #[inline(never)]
    fn open<L: Listener>(&mut self, listener: &mut L) -> Result<(), LineError<Refusal>>
        ensures { Hears L.heard (λ pieces refused. Answers P.kept self.old (EventValue.OpenDaa self.old.cuts) pieces refused self.new) listener.old listener.new result }
    {
        let cuts = self.take_cuts();
        self.answer(&Event::OpenDaa(cuts), listener)
    }

    /// `round`: one round of the open session.
    #[inline(never)]
    fn round<L: Listener>(&mut self, listener: &mut L) -> Result<(), LineError<Refusal>>
        ensures { Hears L.heard (λ pieces refused. Answers P.kept self.old (EventValue.Round self.old.cuts) pieces refused self.new) listener.old listener.new result }
    {
        let cuts = self.take_cuts();
        self.answer(&Event::Round(cuts), listener)
    }

    /// `end`: the open session ends.
    #[inline(never)]
    fn end<L: Listener>(&mut self, listener: &mut L) -> Result<(), LineError<Refusal>>
        ensures { Hears L.heard (λ pieces refused. Answers P.kept self.old EventValue.EndDaa pieces refused self.new) listener.old listener.new result }
    {
        self.answer(&Event::EndDaa, listener)
    }

    /// The bus answers an event, and its reply is heard.
    fn answer<L: Listener>(
        &mut self,
        event: &Event,
        listener: &mut L,
    ) -> Result<(), LineError<Refusal>>
        // a frame's cuts are taken before
        requires { cuts_left event.now self.old.cuts ≡ self.old.cuts }
        ensures { Hears L.heard (λ pieces refused. Answers P.kept self.old event.now pieces refused self.new) listener.old listener.new result }
    {
        match self.step(event) {
            Ok(mut reply) => {
                count_from(self.settings.forgotten, &mut reply)?;
                answer_reply(subject_of(event), &reply, listener)
            }
            Err(_) => Err(LineError::Memory),
        }
    }

    /// One event: the bus takes the role or session in hand, and gives one back.
    fn step(&mut self, event: &Event) -> Result<Reply, AllocError>
        requires { cuts_left event.now self.old.cuts ≡ self.old.cuts }
        ensures { IfOk result (λ reply. Moves P.kept self.old event.now reply self.new) }
    {
        let active = self.bus.active();
        let hand = take(&mut self.hand);
        let (hand, reply) = self.bus.step(hand, event, &mut self.past);
        give(&mut self.hand, hand);
        end_tenure(&mut self.past, &self.settings, &self.bus, &reply, active)?;
        Ok(reply)
    }

    /// Sets which kinds of requests the frames accept, and the slots of excepted devices.
    fn set(&mut self, kinds: Fixed, but: ArrayVec<Slot, EXCEPTED>)
        ensures { Sets self.old kinds but.items self.new }
    {
        self.settings.kinds = kinds;
        self.settings.but = but;
    }

    /// `policy` with names: whatever devices are in their slots by then are excepted.
    #[inline(never)]
    fn except<N: Naming>(
        &mut self,
        names: &N,
        kinds: Fixed,
        but: &[Name],
    ) -> Result<(), LineError<Refusal>>
        requires { length but.now ≤ EXCEPTED }
        ensures { MatchResult (slots_named (slot_of_device N.kept self.old.state names.now) but.now)
            (λ slots. (result ≡ Ok tt) × Sets self.old kinds slots self.new)
            (λ why. (result ≡ Err (LineError.Refused why)) × (self.new ≡ self.old)) }
    {
        let mut slots = ArrayVec::new();
        match slots_of_devices(&self.bus, names, but, &mut slots) {
            Ok(()) => {
                self.set(kinds, slots);
                Ok(())
            }
            Err(why) => Err(LineError::Refused(why)),
        }
    }

    /// `forget`: the records up to this number leave the log.
    #[inline(never)]
    fn forget(&mut self, last: usize)
        ensures { Relieves self.old last self.new }
    {
        self.settings.forget(&mut self.bus, last);
    }

    /// Takes the cuts that wait for the next frame.
    fn take_cuts(&mut self) -> Cuts
        ensures taken { result ≡ self.old.cuts }
        ensures left { self.new ≡ record self.old { cuts = no_cuts } }
    {
        self.cuts.take()
    }

    /// `daa`: a whole session. The cuts that wait apply to its opening frame.
    #[inline(never)]
    fn assign<L: Listener>(&mut self, listener: &mut L) -> Result<(), LineError<Refusal>>
        ensures { Hears L.heard (λ pieces refused. Assigns P.kept self.old pieces refused self.new) listener.old listener.new result }
    {
        let hand = take(&mut self.hand);
        let (hand, outcome) = assigning::assign(
            hand,
            &mut self.bus,
            &mut self.past,
            &self.cuts,
            listener,
        );
        self.cuts.clear();
        give(&mut self.hand, hand);
        outcome
    }

    /// `cut`: whatever device is in the slot by then loses power at a bit of the next frame.
    #[inline(never)]
    fn cut<N: Naming>(&mut self, names: &N, name: &Name, bit: u16) -> Result<(), LineError<Refusal>>
        ensures { MatchResult (slot_of_device N.kept self.old.state names.now name.now)
            (λ slot. (result ≡ Ok tt) × (self.new ≡ record self.old { cuts = cut_at self.old.cuts slot bit }))
            (λ why. (result ≡ Err (LineError.Refused why)) × (self.new ≡ self.old)) }
    {
        match slot_of_device(&self.bus, names, name) {
            Ok(slot) => {
                self.cuts.add(slot, bit);
                Ok(())
            }
            Err(why) => Err(LineError::Refused(why)),
        }
    }

    /// `as NAME LINE`: a line of the active controller, if this is its name.
    #[inline(never)]
    fn act_as<N: Naming, L: Listener>(
        &mut self,
        names: &N,
        name: &Name,
        sent: &Sent,
        listener: &mut L,
    ) -> Result<(), LineError<Refusal>>
        ensures { Hears L.heard (λ pieces refused. ActsAs P.kept N.kept self.old names.now name.now sent.now pieces refused self.new) listener.old listener.new result }
    {
        match acting_refusal(&self.bus, names, name) {
            None => self.act(sent, listener),
            Some(why) => Err(LineError::Refused(why)),
        }
    }

    /// A line that the active controller sends.
    fn act<L: Listener>(&mut self, sent: &Sent, listener: &mut L) -> Result<(), LineError<Refusal>>
        ensures { Hears L.heard (λ pieces refused. Acts P.kept self.old sent.now pieces refused self.new) listener.old listener.new result }
    {
        match sent {
            Sent::Frame(frame) => self.send::<Acting, L>(frame, listener),
            Sent::HandOver { to } => self.hand_over(*to, listener),
            Sent::Open => self.open(listener),
            Sent::Round => self.round(listener),
            Sent::End => self.end(listener),
            Sent::Daa => self.assign(listener),
        }
    }

    /// `show`: the bus as it is.
    #[inline(never)]
    fn show<N: Naming, L: Listener>(
        &self,
        names: &N,
        listener: &mut L,
    ) -> Result<(), LineError<Refusal>>
        ensures { Hears L.heard (IsDone (show_pieces N.kept self.now.settings.forgotten self.now.state names.now)) listener.old listener.new result }
    {
        match hear_bus(&self.bus, names, self.settings.forgotten, listener) {
            Ok(()) => Ok(()),
            Err(_) => Err(LineError::Memory),
        }
    }

    /// `show N`: the bus with its records from this number on.
    #[inline(never)]
    fn show_from<N: Naming, L: Listener>(
        &self,
        names: &N,
        first: u64,
        listener: &mut L,
    ) -> Result<(), LineError<Refusal>>
        ensures { Hears L.heard (IsDone (show_behind_pieces N.kept (first - 1 - self.now.settings.forgotten) self.now.settings.forgotten self.now.state names.now)) listener.old listener.new result }
    {
        let forgotten = self.settings.forgotten;
        let count = (first.saturating_sub(1) as usize).saturating_sub(forgotten);
        match hear_bus_behind(&self.bus, names, count, forgotten, listener) {
            Ok(()) => Ok(()),
            Err(_) => Err(LineError::Memory),
        }
    }

    /// `show all`: the bus with all of its devices.
    #[inline(never)]
    fn show_all<N: Naming, L: Listener>(
        &self,
        names: &N,
        listener: &mut L,
    ) -> Result<(), LineError<Refusal>>
        ensures { Hears L.heard (IsDone (show_all_pieces N.kept self.now.settings.forgotten self.now.state names.now (P.kept.ended self.now.past))) listener.old listener.new result }
    {
        match hear_all(&self.bus, names, &self.settings, &self.past, listener) {
            Ok(()) => Ok(()),
            Err(_) => Err(LineError::Memory),
        }
    }

    /// `symbols`: the last symbols of the wire.
    #[inline(never)]
    fn show_symbols<L: Listener>(&mut self, listener: &mut L) -> Result<(), LineError<Refusal>>
        ensures same { self.new ≡ self.old }
        ensures told { Hears L.heard (IsDone (symbols_pieces (P.kept.symbols self.old.past))) listener.old listener.new result }
    {
        match self.past.hear_symbols(listener) {
            Ok(()) => Ok(()),
            Err(_) => Err(LineError::Memory),
        }
    }

    /// `frames`: the last `count` whole frames of these symbols.
    #[inline(never)]
    fn show_frames<L: Listener>(
        &mut self,
        count: u16,
        listener: &mut L,
    ) -> Result<(), LineError<Refusal>>
        ensures same { self.new ≡ self.old }
        ensures told { Hears L.heard (IsDone (frames_pieces count (P.kept.symbols self.old.past))) listener.old listener.new result }
    {
        match self.past.hear_frames(count, listener) {
            Ok(()) => Ok(()),
            Err(_) => Err(LineError::Memory),
        }
    }

    /// It comes to a bus at rest. What was set, the cuts that wait and the past stay.
    ///
    /// # Errors
    ///
    /// There is no memory for it.
    pub fn wake_into(&mut self, alloc: Global, still: &BusSnapshot) -> Result<(), AllocError>
        ensures { OnOk result (self.new ≡ record self.old { state = still.now }) }
    {
        let hand = take(&mut self.hand);
        let (hand, woken) = still.wake_into(alloc, &mut self.bus, hand);
        give(&mut self.hand, hand);
        match woken {
            Ok(()) => Ok(()),
            Err(_) => Err(AllocError),
        }
    }

    /// It comes back to a bus at rest, from which its own differs in one slot at most.
    pub fn wake_at(&mut self, still: &BusSnapshot, slot: Slot)
        requires { IsNear slot still.now self.old.state }
        ensures { self.new ≡ record self.old { state = still.now } }
    {
        still.wake_at(slot, &mut self.bus);
    }

    /// Its lines have set this.
    pub fn set_all(&mut self, settings: Settings)
        ensures { self.new ≡ record self.old { settings = settings } }
    {
        self.settings = settings;
    }

    /// The cuts that wait become these. Mostly there are none.
    ///
    /// # Errors
    ///
    /// There is no memory for them.
    pub fn copy_cuts(&mut self, cuts: &Cuts) -> Result<(), AllocError>
        ensures { OnOk result (self.new ≡ record self.old { cuts = cuts.now }) }
    {
        if !self.cuts.is_empty() || !cuts.is_empty() {
            self.cuts = cuts.clone()?;
        }
        Ok(())
    }

    /// The device of a slot loses power at a bit of the next frame.
    pub fn add_cut(&mut self, slot: Slot, bit: u16)
        ensures { self.new ≡ record self.old { cuts = cut_at self.old.cuts slot bit } }
    {
        self.cuts.add(slot, bit);
    }

    /// Takes the bus apart. A session that is open ends so.
    #[inline(always)]
    pub fn retire(self)
    where
        P: Drop,
    {
        let ScriptBus {
            bus,
            hand,
            settings: _,
            cuts: _,
            past: _,
        } = self;
        match hand {
            Some(hand) => {
                let _records = bus.retire(hand);
            }
            None => unreachable!(),
        }
    }
}

impl ScriptBus<Journal> {
    ghost use Rattle.std.specs.Prelude.{◌≡◌, OnOk};
    ghost use Rattle.i3c_script.specs.Situations.{IsEnd, last_symbols};

    /// Copies the last symbols of the wire, the oldest first, at most 256. From now on `copy_later` copies those that
    /// come.
    pub(crate) fn copy_wire(&mut self, symbols: &mut Vec<Symbol>) -> Result<(), AllocError>
        ensures same { self.new ≡ self.old }
        ensures copied { OnOk result (symbols.new.items ≡ last_symbols self.old.past) }
    {
        self.past.copy_wire(symbols)
    }

    /// Copies the symbols that came since `copy_wire`.
    pub(crate) fn copy_later(&self, symbols: &mut Vec<Symbol>) -> Result<(), AllocError>
        ensures { OnOk result (IsEnd (last_symbols self.now.past) symbols.new.items) }
    {
        self.past.copy_later(symbols)
    }
}

/// Ends the tenure of the controller that was active, if the reply says that the role was handed over.
fn end_tenure<P: Past>(
    past: &mut P,
    settings: &Settings,
    bus: &Bus,
    reply: &Reply,
    active: Slot,
) -> Result<(), AllocError>
    ensures { OnOk result (past.new ≡ ended_by P.kept reply.now active (settings.now.forgotten + length bus.now.state.records) past.old) }
{
    if !is_handed(reply) {
        return Ok(());
    }
    let recorded = settings.recorded(bus.records())?;
    past.end_tenure(active, recorded)
}

/// The role or session, which the bus takes for a while.
fn take(place: &mut Option<Hand>) -> Hand
    requires { (hand : HandValue) × (place.old ≡ Some hand) }
    ensures taken { place.old ≡ Some result }
    ensures none { place.new ≡ None }
{
    let Some(hand) = place.take() else {
        unreachable!()
    };
    hand
}

/// The bus gives it back.
fn give(place: &mut Option<Hand>, hand: Hand)
    requires { place.old ≡ None }
    ensures { place.new ≡ Some hand }
{
    match mem::replace(place, Some(hand)) {
        None => {}
        Some(_) => unreachable!(),
    }
}
