use crate::faults::Fault;
use crate::script::{KNOWN, Script};
use i3c_base::{ADDRESSES, Addr7, Cuts, Fixed, Lvr, RoundReply, SLOTS, Setup, Slot};
use i3c_bus::{Command as Frame, Event, Reply};
use i3c_legacy::Legacies;
use i3c_lines::{ACCEPT_ALL, Command, Name, Names, Place, Sent, read_line, slot_meant};
use i3c_model::{Choice, Plain};
use i3c_step::copy_of;
use std::alloc::Global;
use std::{mem, str};

/// A bus as its script's lines are read: the plain machine says which slots are free, and how many rounds a whole
/// assignment has.
#[derive(Drop)]
struct Running {
    plain: Plain,
    policy: Fixed,
    cuts: Cuts,
    // what a comment says of the next event
    choice: Option<Choice>,
    script: Script,
}

/// The script of a text, if it has a bus. Lines that ask for no event are passed over.
pub(crate) fn read_script(alloc: Global, text: &[u8]) -> Result<Option<Script>, Fault> {
    let mut reading = Reading::new(alloc);
    reading.read_lines(text)?;
    reading.end()
}

/// A text that is read line by line.
#[derive(Drop)]
struct Reading {
    alloc: Global,
    names: Names,
    // what was declared before the bus
    legacies: Legacies,
    running: Option<Running>,
}

impl Reading {
    fn new(alloc: Global) -> Reading {
        Reading {
            alloc,
            names: Names::new(alloc),
            legacies: Legacies::new(),
            running: None,
        }
    }

    fn read_lines(&mut self, text: &[u8]) -> Result<(), Fault> {
        for line in text.split(|byte| *byte == b'\n') {
            self.read(line)?;
        }
        Ok(())
    }

    fn read(&mut self, line: &[u8]) -> Result<(), Fault> {
        let Ok(Some(command)) = read_line(line) else {
            Running::note_choice(&mut self.running, line);
            return Ok(());
        };
        self.obey(&command)
    }

    fn obey(&mut self, command: &Command) -> Result<(), Fault> {
        match &mut self.running {
            Some(bus) => bus.obey(&mut self.names, command),
            None => {
                self.running = begin(self.alloc, &mut self.names, &mut self.legacies, command)?;
                Ok(())
            }
        }
    }

    // What was read, and then what shows more of it.
    fn end(self) -> Result<Option<Script>, Fault> {
        let Reading { alloc, running, .. } = self;
        match running {
            Some(bus) => Ok(Some(bus.end(alloc)?)),
            None => Ok(None),
        }
    }
}

/// A line before the bus: a legacy target, a declared identity, or the start. A declaration that is refused changes
/// nothing.
fn begin(
    alloc: Global,
    names: &mut Names,
    legacies: &mut Legacies,
    command: &Command,
) -> Result<Option<Running>, Fault> {
    let _ = KNOWN;
    match command {
        Command::Legacy { name, address, lvr } => {
            add_legacy(names, legacies, name, *address, *lvr)?;
            Ok(None)
        }
        Command::Declare { address, identity } => {
            let _ = legacies.declare(*address, *identity);
            Ok(None)
        }
        Command::Main { name, setup } => {
            if names.place_of(name).is_some() || !setup.identity.bcr.capable() {
                return Ok(None);
            }
            names.give_slot(name, Slot::default())?;
            let legacies = mem::replace(legacies, Legacies::new());
            Ok(Some(Running::new(alloc, setup, legacies)?))
        }
        _ => Ok(None),
    }
}

/// A legacy target, unless its name or its address is another's.
fn add_legacy(
    names: &mut Names,
    legacies: &mut Legacies,
    name: &Name,
    address: Addr7,
    lvr: Lvr,
) -> Result<(), Fault> {
    if names.place_of(name).is_none() && legacies.add(address, lvr).is_ok() {
        names.give_address(name, address)?;
    }
    Ok(())
}

/// What a reply says of a whole assignment.
#[derive(Clone, Copy, PartialEq, Eq)]
enum Session {
    /// It has begun.
    Opened,
    /// Another round comes.
    GoesOn,
    /// Neither.
    Other,
}

impl Session {
    fn after(reply: &Reply) -> Session {
        match reply {
            Reply::Opened(_) => Session::Opened,
            Reply::Round(RoundReply::Assigned(..) | RoundReply::Nobody) => Session::GoesOn,
            _ => Session::Other,
        }
    }
}

impl Running {
    // A bus that starts, with what has a static address.
    fn new(alloc: Global, main: &Setup, legacies: Legacies) -> Result<Running, Fault> {
        let plain = Plain::new(alloc, *main, legacies.copied())?;
        Ok(Running {
            plain,
            policy: ACCEPT_ALL,
            cuts: Cuts::new(),
            choice: None,
            script: Script::new(alloc, main, legacies),
        })
    }

    // Notes the choice that a comment says for the next event, if it says one.
    fn note_choice(running: &mut Option<Running>, line: &[u8]) {
        if let (Some(bus), Some(choice)) = (running, choice_named(line)) {
            bus.choice = Some(choice);
        }
    }

    fn obey(&mut self, names: &mut Names, command: &Command) -> Result<(), Fault> {
        let _ = KNOWN;
        match command {
            Command::Frame(frame) => {
                let event = self.sent(frame);
                let _ = self.add_event(event)?;
                Ok(())
            }
            Command::Policy(policy) => {
                self.policy = *policy;
                Ok(())
            }
            Command::PolicyBut { .. } => Err(Fault::Exceptions),
            Command::Cut { name, bit } => {
                if let Ok(slot) = slot_meant(names, name) {
                    self.cuts.add(slot, *bit);
                }
                Ok(())
            }
            Command::Daa => self.assign(),
            Command::As { name, sent } => self.act_as(names, name, sent),
            _ => self.obey_alone(names, command),
        }
    }

    // A line of the controller with this name: nothing, unless its device is there and is the active controller.
    fn act_as(&mut self, names: &Names, name: &Name, sent: &Sent) -> Result<(), Fault> {
        match slot_of(names, name) {
            Some(slot) if slot == self.plain.active() => self.act(sent),
            _ => Ok(()),
        }
    }

    fn act(&mut self, sent: &Sent) -> Result<(), Fault> {
        let event = match sent {
            Sent::Frame(frame) => self.sent(frame),
            Sent::HandOver { to } => Event::HandOver(*to, self.take()),
            Sent::Open => Event::OpenDaa(self.take()),
            Sent::Round => Event::Round(self.take()),
            Sent::End => Event::EndDaa,
            Sent::Daa => return self.assign(),
        };
        let _ = self.add_event(event)?;
        Ok(())
    }

    // A line that is one event and no frame under the role, or that asks for nothing.
    fn obey_alone(&mut self, names: &mut Names, command: &Command) -> Result<(), Fault> {
        if let Some(event) = self.event_of(names, command) {
            if let (Command::Attach { name, .. }, Event::Attach(slot, _)) = (command, &event) {
                names.give_slot(name, *slot)?;
            }
            let _ = self.add_event(event)?;
        }
        Ok(())
    }

    // Runs an event on the plain machine, with the choice that a comment says for it, if one does, and adds the event and
    // its reply to the script. Answers what became of the session.
    fn add_event(&mut self, event: Event) -> Result<Session, Fault> {
        let _ = KNOWN;
        let (is_said, choice) = self.take_choice();
        let reply = self.plain.step(&event, choice)?;
        self.script.events.push(event)?;
        let session = Session::after(&reply);
        self.script.said.push(is_said)?;
        self.script.replies.push(reply)?;
        Ok(session)
    }

    // Whether a choice was said for the next event, and which. It is taken: the event after that has none.
    fn take_choice(&mut self) -> (bool, Choice) {
        match mem::replace(&mut self.choice, None) {
            Some(choice) => (true, choice),
            None => (false, Choice::Heard),
        }
    }

    // A whole session.
    fn assign(&mut self) -> Result<(), Fault> {
        let _ = KNOWN;
        let cuts = self.take();
        if self.add_event(Event::OpenDaa(cuts))? != Session::Opened {
            return Ok(());
        }
        for _ in 0..SLOTS {
            if self.add_event(Event::Round(Cuts::new()))? != Session::GoesOn {
                break;
            }
        }
        let _ = self.add_event(Event::EndDaa)?;
        Ok(())
    }

    // What happened to it, and then what shows more of it.
    fn end(mut self, alloc: Global) -> Result<Script, Fault> {
        self.ask_on(alloc)?;
        Ok(self.script)
    }

    // Shows wishes, enabled kinds, kept addresses and static ones, which no other event tells: requests are served, each
    // device comes again, is assigned, and interrupts. Then addresses are reset, and each static one is made a dynamic
    // one.
    fn ask_on(&mut self, alloc: Global) -> Result<(), Fault> {
        self.script.own = self.script.events.len();
        let came = self.script.attached(alloc)?;
        self.come_again(&came)
    }

    fn come_again(&mut self, came: &[(Slot, Setup)]) -> Result<(), Fault> {
        self.serve_twice()?;
        self.attach_each(came)?;
        let _ = self.add_event(Event::EndDaa)?;
        self.policy = ACCEPT_ALL;
        self.assign()?;
        self.raise_each(came)?;
        self.serve_twice()?;
        self.set_each()
    }

    fn attach_each(&mut self, devices: &[(Slot, Setup)]) -> Result<(), Fault> {
        let _ = KNOWN;
        for (slot, setup) in devices {
            let _ = self.add_event(Event::Attach(*slot, *setup))?;
        }
        Ok(())
    }

    fn raise_each(&mut self, devices: &[(Slot, Setup)]) -> Result<(), Fault> {
        let _ = KNOWN;
        for (slot, setup) in devices {
            let byte = if setup.identity.bcr.has_byte() {
                Some(0x5A)
            } else {
                None
            };
            let _ = self.add_event(Event::Raise(*slot, byte))?;
        }
        Ok(())
    }

    fn set_each(&mut self) -> Result<(), Fault> {
        let _ = KNOWN;
        if !self.script.legacies.has_declared() {
            return Ok(());
        }
        let _ = self.add_event(Event::Reset(ACCEPT_ALL, Cuts::new()))?;
        for number in 0..ADDRESSES as u8 {
            if let Ok(address) = Addr7::new(number) {
                self.set_at(address)?;
            }
        }
        Ok(())
    }

    // A declared address is made the dynamic one that is three further, which may be another's.
    fn set_at(&mut self, address: Addr7) -> Result<(), Fault> {
        let _ = KNOWN;
        let is_declared = self.script.legacies.declared_at(address).is_some();
        match Addr7::new((address.get() + 3) % 128) {
            Ok(new) if is_declared => {
                let _ = self.add_event(Event::SetStatic(address, new, ACCEPT_ALL, Cuts::new()))?;
                Ok(())
            }
            _ => Ok(()),
        }
    }

    fn serve_twice(&mut self) -> Result<(), Fault> {
        let _ = KNOWN;
        for _ in 0..2 {
            let _ = self.add_event(Event::Serve(ACCEPT_ALL, Cuts::new()))?;
        }
        Ok(())
    }

    fn take(&mut self) -> Cuts {
        mem::replace(&mut self.cuts, Cuts::new())
    }

    // The event that a line asks for, if it asks for one.
    fn event_of(&mut self, names: &Names, command: &Command) -> Option<Event> {
        match command {
            Command::Attach { name, setup } => Some(Event::Attach(self.seat(names, name)?, *setup)),
            Command::DropOff { name } => Some(Event::DropOff(slot_of(names, name)?)),
            Command::Raise { name, byte } => Some(Event::Raise(slot_of(names, name)?, *byte)),
            Command::AskJoin { name } => Some(Event::AskJoin(slot_of(names, name)?)),
            Command::AskRole { name } => Some(Event::AskRole(slot_of(names, name)?)),
            Command::HandOver { to } => Some(Event::HandOver(*to, self.take())),
            Command::Open => Some(Event::OpenDaa(self.take())),
            Command::Round => Some(Event::Round(self.take())),
            Command::End => Some(Event::EndDaa),
            _ => None,
        }
    }

    // A frame under the role: with the policy, and with the cuts that were noted for it.
    fn sent(&mut self, frame: &Frame) -> Event {
        let (policy, cuts) = (self.policy, self.take());
        match frame {
            Frame::Serve => Event::Serve(policy, cuts),
            Frame::Enec(to, kinds) => Event::Enec(*to, *kinds, policy, cuts),
            Frame::Disec(to, kinds) => Event::Disec(*to, *kinds, policy, cuts),
            Frame::Reset => Event::Reset(policy, cuts),
            Frame::SendList => Event::SendList(policy, cuts),
            Frame::ReadFrom(at) => Event::ReadFrom(*at, policy, cuts),
            Frame::WriteTo(at, bytes) => Event::WriteTo(*at, copy_of(bytes), policy, cuts),
            Frame::SetStatic(at, to) => Event::SetStatic(*at, *to, policy, cuts),
            Frame::SetNew(at, to) => Event::SetNew(*at, *to, policy, cuts),
            Frame::Get(what, at) => Event::Get(*what, *at, policy, cuts),
            Frame::SetLength(way, most, to) => Event::SetLength(*way, *most, *to, policy, cuts),
        }
    }

    // The slot that a device enters: the lowest free one. Where one of its name is there still, it is that one's slot,
    // and the bus refuses it, unless a cut has made room.
    fn seat(&self, names: &Names, name: &Name) -> Option<Slot> {
        let Some(place) = names.place_of(name) else {
            return self.free_slot();
        };
        match place {
            Place::Legacy(_) => None,
            Place::Gone => self.free_slot(),
            Place::Slot(slot) => {
                if self.plain.present(slot) {
                    Some(slot)
                } else {
                    self.free_slot()
                }
            }
        }
    }

    // The lowest slot without a device.
    fn free_slot(&self) -> Option<Slot> {
        for number in 0..SLOTS as u8 {
            let slot = Slot::new(number).ok()?;
            if !self.plain.present(slot) {
                return Some(slot);
            }
        }
        None
    }
}

/// The slot that a name stands for, if its device is there.
fn slot_of(names: &Names, name: &Name) -> Option<Slot> {
    match slot_meant(names, name) {
        Ok(slot) => Some(slot),
        Err(_) => None,
    }
}

/// The choice that a comment says.
fn choice_named(line: &[u8]) -> Option<Choice> {
    match str::from_utf8(line).ok()?.strip_prefix("# choose ")? {
        "heard" => Some(Choice::Heard),
        "lost" => Some(Choice::Lost),
        "silent" => Some(Choice::Silent),
        _ => None,
    }
}
