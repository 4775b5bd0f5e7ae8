use crate::attached::Attached;
use crate::hearing::{named_address, named_length};
use crate::kinds::named;
use crate::own_kinds::OwnKinds;
use i3c_base::{Addr7, Identity, REGISTERS, RaiseRefusal, Request, Setup, Waiting};
use i3c_ccc::Code;
use i3c_word::Word;
use std::marker::Model;

/// A device while it is attached: what it is, what waits and what it keeps, and which kinds of its events are enabled.
#[derive(Drop)]
pub struct Device {
    pub(crate) attached: Attached,
    pub(crate) kinds: OwnKinds,
}

impl Model for Device {
    ghost use Rattle.i3c_base.specs.State.{Device as DeviceState};
    ghost use Rattle.i3c_device.specs.Enabling.{kinds_of, under};

    ghost Value = { DeviceState };

    ghost view = { λ d. under (kinds_of d.kinds) d.attached };
}

impl Device {
    ghost use Rattle.std.specs.Prelude.{◌≡◌, ◌≤◌, false, true, suc, length, slice_get, MatchOption, MatchResult, OnErr, OnOk, Some, None};
    ghost use Rattle.i3c_base.specs.declared.device.TheConstants.{REGISTERS as REGISTER_COUNT};
    ghost use Rattle.i3c_base.specs.declared.requests.Request.{Request as RequestValue};
    ghost use Rattle.i3c_base.specs.Frames.{overwritten};
    ghost use Rattle.i3c_base.specs.State.{attached};
    ghost use Rattle.i3c_base.specs.Serve.{asks, without_front, without_join, without_role};
    ghost use Rattle.i3c_base.specs.Round.{unhearing, winner};
    ghost use Rattle.i3c_base.specs.Local.{with_raise, wishing_join, wishing_role};
    ghost use Rattle.i3c_device.specs.Hearing.{heard};
    ghost use Rattle.i3c_device.specs.Raising.{front_byte, next_fault, raise_fault};

    /// A device that was just attached, with this static address: all kinds of its events are enabled, and its registers
    /// are `00`.
    pub fn new(setup: Setup, fixed: Option<Addr7>) -> Device
        ensures { result ≡ attached fixed setup }
    {
        Device {
            attached: Attached::new(setup, fixed),
            kinds: OwnKinds::all(),
        }
    }

    /// The request that it drives into an arbitrable header now (I3C Basic 5.1.6): a join without an address, else the
    /// role request before the interrupt. Where that kind is disabled, it drives none.
    pub fn wants(&self) -> Option<Request>
        ensures { MatchOption result ((q : RequestValue) → asks self.now q ≡ false) (λ r. asks self.now r ≡ true) }
    {
        let choice = self.attached.choice()?;
        if self.kinds.allow(&choice) {
            Some(choice)
        } else {
            None
        }
    }

    /// It hears a command and its words (I3C Basic 5.1.9.3): ENEC and DISEC enable and disable the kinds of their byte,
    /// ENTDAA opens a session, RSTDAA takes its address and its wish for the role. SETDASA gives it an address if it has a
    /// static one and no dynamic one, SETNEWDA another one if it has one, and neither an address below `08`. SETMWL and
    /// SETMRL set a maximum length from 1 to 16. Other codes change nothing of it.
    pub fn hear(&mut self, code: Code, words: &[Word])
        ensures { self.new ≡ heard code words.now self.old }
    {
        match code {
            Code::Enec | Code::EnecDirect => self.kinds = self.kinds.with(named(words)),
            Code::Disec | Code::DisecDirect => self.kinds = self.kinds.without(named(words)),
            Code::Entdaa => self.attached.hear_opening(),
            Code::Rstdaa => self.attached.lose_address(),
            Code::Setdasa => self.attached.set_static(named_address(words)),
            Code::Setnewda => self.attached.set_new(named_address(words)),
            Code::SetLength(way) | Code::SetLengthDirect(way) => {
                self.attached.set_length(way, named_length(words));
            }
            Code::Deftgts | Code::Get(_) | Code::Getacccr | Code::Other(_) => {}
        }
    }

    /// What the device is.
    pub fn identity(&self) -> Identity
        ensures { result ≡ self.now.identity }
    {
        self.attached.identity()
    }

    /// Whether it hears the open session.
    pub fn is_hearing(&self) -> bool
        ensures { result ≡ self.now.hearing }
    {
        self.attached.is_hearing()
    }

    /// Its static address, if it has one.
    pub fn fixed(&self) -> Option<Addr7>
        ensures { result ≡ self.now.fixed }
    {
        self.attached.fixed()
    }

    /// Its dynamic address, if it has one.
    pub fn address(&self) -> Option<Addr7>
        ensures { result ≡ self.now.address }
    {
        self.attached.address()
    }

    /// How many of its interrupts wait.
    pub fn waiting(&self) -> usize
        ensures { result ≡ length self.now.waiting }
    {
        self.attached.waiting()
    }

    /// Whether it takes the controller role when it is offered.
    pub fn is_willing(&self) -> bool
        ensures { result ≡ self.now.willing }
    {
        self.attached.is_willing()
    }

    /// Its registers, which private transfers read and write (I3C Basic 5.1.2.2).
    pub fn registers(&self) -> &[u8; REGISTERS]
        ensures { result.now ≡ self.now.registers }
    {
        self.attached.registers()
    }

    /// The interrupt that waits at the front.
    pub fn front(&self) -> Option<Waiting>
        ensures { result ≡ slice_get self.now.waiting 0 }
    {
        self.attached.front()
    }

    /// The mandatory byte that it answers with when its interrupt is accepted, if it has one.
    pub fn answer_byte(&self) -> Option<u8>
        ensures { result ≡ front_byte self.now.waiting }
    {
        self.attached.answer_byte()
    }

    /// Whether it may raise an interrupt with this byte now: the first fault, if there is one.
    pub fn may_raise(&self, byte: Option<u8>) -> Result<(), RaiseRefusal>
        ensures { MatchResult result (λ _. raise_fault self.now byte ≡ None) (λ fault. raise_fault self.now byte ≡ Some fault) }
    {
        self.attached.may_raise(byte, self.kinds.interrupt)
    }

    /// Raises the interrupt after this many of its slot, and answers its number: it waits as the last one. The first
    /// fault refuses it, and changes nothing; a count that can't grow is `Full` too.
    pub fn raise(&mut self, raised: u64, byte: Option<u8>) -> Result<u64, RaiseRefusal>
        ensures fault { MatchResult result (λ number. (number ≡ suc raised) × (next_fault self.old byte raised ≡ None)) (λ fault. next_fault self.old byte raised ≡ Some fault) }
        ensures raised { OnOk result (self.new ≡ with_raise (suc raised) byte self.old) }
        ensures unchanged { OnErr result (self.new ≡ self.old) }
    {
        self.attached.raise(raised, byte, self.kinds.interrupt)
    }

    /// A private write puts these bytes into its first registers.
    pub fn write(&mut self, bytes: &[u8])
        requires { length bytes.now ≤ REGISTER_COUNT }
        ensures { self.new ≡ record self.old { registers = overwritten bytes.now self.old.registers } }
    {
        self.attached.write(bytes);
    }

    /// It takes this address, which it won in a round or was set by SETDASA: it hears no more and has lost its join wish.
    /// No dynamic address is below `08`.
    pub fn take_address(&mut self, address: Addr7)
        requires { 8 ≤ address }
        ensures { self.new ≡ winner address self.old }
    {
        self.attached.take_address(address);
    }

    /// The session ends: it hears no more.
    pub fn fall_silent(&mut self)
        ensures { self.new ≡ unhearing self.old }
    {
        self.attached.fall_silent();
    }

    /// It wishes to join.
    pub fn wish_join(&mut self)
        ensures { self.new ≡ wishing_join self.old }
    {
        self.attached.wish_join();
    }

    /// It wishes for the controller role.
    pub fn wish_role(&mut self)
        ensures { self.new ≡ wishing_role self.old }
    {
        self.attached.wish_role();
    }

    /// Its interrupt was accepted: the front leaves its waiting list.
    pub fn lose_front(&mut self)
        ensures { self.new ≡ without_front self.old }
    {
        self.attached.lose_front();
    }

    /// Its join was accepted: the wish is gone.
    pub fn lose_join_wish(&mut self)
        ensures { self.new ≡ without_join self.old }
    {
        self.attached.lose_join_wish();
    }

    /// Its role request was accepted: the wish is gone.
    pub fn lose_role_wish(&mut self)
        ensures { self.new ≡ without_role self.old }
    {
        self.attached.lose_role_wish();
    }
}
