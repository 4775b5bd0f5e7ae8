ghost use Rattle.std.specs.Prelude.{◌≡◌, ◌≤◌, ◌↔◌, ◌&&◌, ◌++◌, ◌∷◌, [], false, is_none, true, length, slice_get, IfSome, IsTrue, MatchOption, None, OnErr, OnOk, Some, ⊤};
ghost use Rattle.i3c_base.specs.Frames.{changed_kinds, length_of, limited, overwritten, readdressed, unaddressed_device};
ghost use Rattle.i3c_base.specs.Round.{hears, unhearing, winner};
ghost use Rattle.i3c_base.specs.Serve.{asks, without, without_role};
ghost use Rattle.i3c_base.specs.State.{attached, has_address, is_the};
ghost use Rattle.i3c_base.specs.declared.requests.Request.{Request as RequestValue};
ghost use Rattle.i3c_model.specs.Meaning.{is_meant};

use crate::faults::OutOfMemory;
use crate::kinds::PlainKinds;
use crate::transferring::overwrite;
use i3c_base::{
    Addr7, Change, Direction, Identity, Kinds, Length, REGISTERS, Request, Setup, Waiting,
};
use std::alloc::Global;
use std::marker::Model;

// A device in its slot.
#[derive(Drop)]
pub(crate) struct PlainDevice {
    identity: Identity,
    willing: bool,
    // its static address
    fixed: Option<Addr7>,
    // its dynamic address
    address: Option<Addr7>,
    kinds: PlainKinds,
    // its interrupts that wait, the oldest first
    waiting: Vec<Waiting>,
    join_wish: bool,
    role_wish: bool,
    // it hears the open session
    hearing: bool,
    registers: [u8; REGISTERS],
    // the maximum lengths of its writes and of its reads
    most_written: Length,
    most_read: Length,
}

impl Model for PlainDevice {
    ghost use Rattle.i3c_base.specs.State.{Device};

    ghost Value = { Device };

    ghost view = { λ d. record {
      identity = d.identity;
      willing = d.willing;
      fixed = d.fixed;
      address = d.address;
      kinds = d.kinds;
      waiting = d.waiting.items;
      join_wish = d.join_wish;
      role_wish = d.role_wish;
      hearing = d.hearing;
      registers = d.registers;
      most_written = d.most_written;
      most_read = d.most_read;
    } };
}

impl PlainDevice {
    // A device just attached, with this static address.
    pub(crate) fn new(alloc: Global, fixed: Option<Addr7>, setup: &Setup) -> PlainDevice
        ensures { result ≡ attached fixed setup.now }
    {
        PlainDevice {
            identity: setup.identity,
            willing: setup.willing,
            fixed,
            address: None,
            kinds: PlainKinds::all(),
            waiting: Vec::new(alloc),
            join_wish: false,
            role_wish: false,
            hearing: false,
            registers: [0; REGISTERS],
            most_written: Length::most(),
            most_read: Length::most(),
        }
    }

    // What it is.
    pub(crate) fn identity(&self) -> Identity
        ensures { result ≡ self.now.identity }
    {
        self.identity
    }

    // Its address, if it has one.
    pub(crate) fn address(&self) -> Option<Addr7>
        ensures { result ≡ self.now.address }
    {
        self.address
    }

    // How many of its interrupts wait.
    pub(crate) fn waiting(&self) -> usize
        ensures { result ≡ length self.now.waiting }
    {
        self.waiting.len()
    }

    // The oldest interrupt that waits.
    pub(crate) fn front(&self) -> Option<Waiting>
        ensures { result ≡ slice_get self.now.waiting 0 }
    {
        self.waiting.first().copied()
    }

    // Whether its interrupts are enabled.
    pub(crate) fn may_interrupt(&self) -> bool
        ensures { result ≡ self.now.kinds.interrupt }
    {
        self.kinds.interrupt
    }

    // Whether its joins are enabled.
    pub(crate) fn may_join(&self) -> bool
        ensures { result ≡ self.now.kinds.join }
    {
        self.kinds.join
    }

    // Whether its role requests are enabled.
    pub(crate) fn may_ask_role(&self) -> bool
        ensures { result ≡ self.now.kinds.role }
    {
        self.kinds.role
    }

    // Whether it takes the controller role when it is offered.
    pub(crate) fn is_willing(&self) -> bool
        ensures { result ≡ self.now.willing }
    {
        self.willing
    }

    // Whether it hears the open session.
    pub(crate) fn is_hearing(&self) -> bool
        ensures { result ≡ self.now.hearing }
    {
        self.hearing
    }

    // The request that it drives: a join without an address, otherwise the role request before the interrupt, and its
    // choice only while that kind is enabled.
    pub(crate) fn wants(&self) -> Option<Request>
        ensures asked { MatchOption result ((r : RequestValue) → asks self.now r ≡ false) (λ r. asks self.now r ≡ true) }
        ensures alone { IfSome result (λ r. (q : RequestValue) → asks self.now q ≡ true → q ≡ r) }
    {
        let Some(address) = self.address else {
            return if self.join_wish && self.kinds.join {
                Some(Request::Join)
            } else {
                None
            };
        };
        if self.role_wish {
            return if self.kinds.role {
                Some(Request::Role(address))
            } else {
                None
            };
        }
        if self.waiting.len() > 0 && self.kinds.interrupt {
            Some(Request::Interrupt(address))
        } else {
            None
        }
    }

    // Whether it drives this request.
    pub(crate) fn asks(&self, request: &Request) -> bool
        ensures { result ≡ asks self.now request.now }
    {
        match self.wants() {
            Some(wanted) => wanted == *request,
            None => false,
        }
    }

    // Whether it has this address.
    pub(crate) fn has(&self, address: Addr7) -> bool
        ensures { result ≡ has_address address self.now }
    {
        self.address == Some(address)
    }

    // Whether it has this static address, and no dynamic one: so it answers at the static one alone.
    pub(crate) fn answers_only_at_static(&self, fixed: Addr7) -> bool
        ensures { result ≡ (is_none self.now.address && is_the fixed self.now.fixed) }
    {
        self.address.is_none() && self.fixed == Some(fixed)
    }

    // Whether a command means it: it has the address, if one is named.
    pub(crate) fn is_meant(&self, to: &Option<Addr7>) -> bool
        ensures { result ≡ is_meant to.now self.now }
    {
        match to {
            Some(address) => self.has(*address),
            None => true,
        }
    }

    // The request was accepted: the wish or the oldest interrupt is gone.
    pub(crate) fn lose(&mut self, request: &Request)
        ensures { self.new ≡ without request.now self.old }
    {
        match request {
            Request::Join => self.join_wish = false,
            Request::Role(_) => self.lose_role_wish(),
            Request::Interrupt(_) => {
                if !self.waiting.is_empty() {
                    self.waiting.remove(0);
                }
            }
        }
    }

    // One more interrupt waits, as the last one.
    pub(crate) fn raise(&mut self, raised: Waiting) -> Result<(), OutOfMemory>
        ensures raised { OnOk result (self.new ≡ record self.old { waiting = self.old.waiting ++ raised ∷ [] }) }
        ensures unchanged { OnErr result (self.new ≡ self.old) }
    {
        self.waiting.push(raised)?;
        Ok(())
    }

    // It wishes to join.
    pub(crate) fn wish_join(&mut self)
        ensures { self.new ≡ record self.old { join_wish = true } }
    {
        self.join_wish = true;
    }

    // It wishes for the role.
    pub(crate) fn wish_role(&mut self)
        ensures { self.new ≡ record self.old { role_wish = true } }
    {
        self.role_wish = true;
    }

    // It doesn't wish for the role any more.
    pub(crate) fn lose_role_wish(&mut self)
        ensures { self.new ≡ without_role self.old }
    {
        self.role_wish = false;
    }

    // Its address was cleared, and its wish for the role with it.
    pub(crate) fn lose_address(&mut self)
        ensures { self.new ≡ unaddressed_device self.old }
    {
        self.address = None;
        self.role_wish = false;
    }

    // More of its kinds are enabled, or some are disabled.
    pub(crate) fn change_kinds(&mut self, change: Change, kinds: Kinds)
        ensures { self.new ≡ record self.old { kinds = changed_kinds change kinds self.old.kinds } }
    {
        self.kinds.change(change, kinds);
    }

    // Its registers.
    pub(crate) fn registers(&self) -> [u8; REGISTERS]
        ensures { result ≡ self.now.registers }
    {
        self.registers
    }

    // Its first registers are replaced by these bytes.
    pub(crate) fn overwrite(&mut self, bytes: &[u8])
        requires short { length bytes.now ≤ 16 }
        ensures { self.new ≡ record self.old { registers = overwritten bytes.now self.old.registers } }
    {
        overwrite(&mut self.registers, bytes);
    }

    // The maximum length of its writes, or of its reads.
    pub(crate) fn length(&self, way: Direction) -> Length
        ensures { result ≡ length_of way self.now }
    {
        match way {
            Direction::Write => self.most_written,
            Direction::Read => self.most_read,
        }
    }

    // Its writes, or its reads, have this maximum length from now on.
    pub(crate) fn limit(&mut self, way: Direction, most: Length)
        ensures { self.new ≡ limited way most self.old }
    {
        match way {
            Direction::Write => self.most_written = most,
            Direction::Read => self.most_read = most,
        }
    }

    // A session is opened, which it hears if it has no address.
    pub(crate) fn hear(&mut self)
        ensures { self.new ≡ hears self.old }
    {
        if self.address.is_none() {
            self.hearing = true;
        }
    }

    // The session ends: it hears no more.
    pub(crate) fn fall_silent(&mut self)
        ensures { self.new ≡ unhearing self.old }
    {
        self.hearing = false;
    }

    // It has won this address, hears no more and has lost its join wish.
    pub(crate) fn take_address(&mut self, address: Addr7)
        ensures { self.new ≡ winner address self.old }
    {
        self.address = Some(address);
        self.hearing = false;
        self.join_wish = false;
    }

    // It has this address in place of its own.
    pub(crate) fn change_address(&mut self, new: Addr7)
        ensures { self.new ≡ readdressed new self.old }
    {
        self.address = Some(new);
    }
}
