ghost use Rattle.std.specs.Prelude.{◌≡◌, ◌≤◌, ◌<◌, ◌+◌, ◌↔◌, ◌∷◌, [], IsTrue};
ghost use Rattle.std.specs.Int.{from_le_bytes, w16, w64};
ghost use Rattle.i3c_base.specs.declared.device.TheConstants.{REGISTERS as REGISTER_COUNT};
ghost use Rattle.i3c_base.specs.Frames.{pid_bytes};
ghost use Rattle.i3c_device.specs.ByteFields.{HaveSameByteFields, FitBytes, field_bytes};

use crate::answering::NOWHERE;
use crate::byte_address::ByteAddress;
use crate::flag::Flag;
use crate::queues::{are_same, copied, copy_from, queue_key};
use arrayvec::ArrayVec;
use i3c_base::{
    Addr7, Datum, Direction, Identity, Length, REGISTERS, RaiseRefusal, Request, Setup, WAITING,
    Waiting,
};
use i3c_header::key;
use std::marker::Model;

/// How many bytes the longest datum has that a device is asked for.
pub(crate) const LONGEST: usize = 6;

/// An attached device, without its enabled kinds of events: clauses see it with all of them.
#[derive(Drop)]
pub(crate) struct Attached {
    identity: Identity,
    // the next eight have a byte each, so that two devices compare them as one number
    fixed: ByteAddress,
    address: ByteAddress,
    willing: Flag,
    join_wish: Flag,
    role_wish: Flag,
    hearing: Flag,
    most_written: Length,
    most_read: Length,
    registers: [u8; REGISTERS],
    waiting: ArrayVec<Waiting, WAITING>,
}

impl Model for Attached {
    ghost use Rattle.i3c_base.specs.State.{Device as DeviceState, all_kinds};
    ghost use Rattle.i3c_device.specs.Addressing.{IsDynamic};

    ghost Value = { DeviceState };

    ghost view = { λ d. record {
      identity = d.identity;
      willing = d.willing;
      fixed = d.fixed;
      address = d.address;
      kinds = all_kinds;
      waiting = d.waiting.items;
      join_wish = d.join_wish;
      role_wish = d.role_wish;
      hearing = d.hearing;
      registers = d.registers;
      most_written = d.most_written;
      most_read = d.most_read;
    } };

    ghost invariant = { λ d. IsDynamic d.address };
}

impl Attached {
    ghost use Rattle.std.specs.Prelude.{◌≡◌, ◌≤◌, ◌↔◌, IfSome, IsTrue, is_none, suc, length, slice_get, MatchOption, MatchResult, OnErr, OnOk, Some, None, true};
    ghost use Rattle.i3c_base.specs.declared.device.TheConstants.{REGISTERS as REGISTER_COUNT};
    ghost use Rattle.i3c_base.specs.Filling.{filled_up};
    ghost use Rattle.i3c_base.specs.Frames.{length_of, limited, overwritten, pending, readdressed, told_bytes, unaddressed_device};
    ghost use Rattle.i3c_device.specs.declared.attached.TheConstants.{LONGEST as MOST_TOLD};
    ghost use Rattle.i3c_base.specs.State.{attached, has_address};
    ghost use Rattle.i3c_base.specs.Serve.{without_front, without_join, without_role};
    ghost use Rattle.i3c_base.specs.Round.{hears, unhearing, winner};
    ghost use Rattle.i3c_base.specs.Local.{with_raise};
    ghost use Rattle.i3c_device.specs.Addressing.{IsDynamic};
    ghost use Rattle.i3c_device.specs.Hearing.{set_length, set_new, set_static};
    ghost use Rattle.i3c_device.specs.SlotIndex.{answer_of};
    ghost use Rattle.i3c_device.specs.Wishing.{choice_of, key_of, wishes_interrupt, wishes_join, wishes_role};
    ghost use Rattle.i3c_device.specs.Raising.{front_byte, interrupting_if, next_fault, raise_fault};

    /// A device that was just attached, with this static address: its registers are `00`.
    pub fn new(setup: Setup, fixed: Option<Addr7>) -> Attached
        ensures { result ≡ attached fixed setup }
    {
        Attached {
            identity: setup.identity,
            fixed: ByteAddress::of(fixed),
            address: ByteAddress::none(),
            willing: Flag::of(setup.willing),
            join_wish: Flag::of(false),
            role_wish: Flag::of(false),
            hearing: Flag::of(false),
            most_written: Length::most(),
            most_read: Length::most(),
            registers: [0; REGISTERS],
            waiting: ArrayVec::new(),
        }
    }

    /// The same device once more.
    pub fn copied(&self) -> Attached
        ensures { result ≡ self.now }
    {
        Attached {
            identity: self.identity,
            fixed: self.fixed.copied(),
            address: self.address.copied(),
            willing: self.willing.copied(),
            join_wish: self.join_wish.copied(),
            role_wish: self.role_wish.copied(),
            hearing: self.hearing.copied(),
            most_written: self.most_written,
            most_read: self.most_read,
            registers: self.registers,
            waiting: copied(&self.waiting),
        }
    }

    /// The device becomes the same as another one.
    pub fn copy_from(&mut self, other: &Attached)
        ensures { self.new ≡ other.now }
    {
        // all that has a byte is read before any of it is written, so that the compiler moves the bytes as one word
        let fixed = other.fixed.copied();
        let address = other.address.copied();
        let willing = other.willing.copied();
        let join_wish = other.join_wish.copied();
        let role_wish = other.role_wish.copied();
        let hearing = other.hearing.copied();
        let most_written = other.most_written;
        let most_read = other.most_read;
        self.identity = other.identity;
        self.fixed = fixed;
        self.address = address;
        self.willing = willing;
        self.join_wish = join_wish;
        self.role_wish = role_wish;
        self.hearing = hearing;
        self.most_written = most_written;
        self.most_read = most_read;
        self.registers = other.registers;
        copy_from(&mut self.waiting, &other.waiting);
    }

    /// The same interrupts wait at it as at another one.
    pub fn copy_waiting(&mut self, other: &Attached)
        ensures { self.new ≡ record self.old { waiting = other.now.waiting } }
    {
        copy_from(&mut self.waiting, &other.waiting);
    }

    /// Whether the other device is the same: clauses see no difference between the two.
    #[inline(always)]
    pub fn is_same(&self, other: &Attached) -> bool
        ensures same { IsTrue result ↔ (self.now ≡ other.now) }
        ensures kinds { self.now.kinds ≡ other.now.kinds }
    {
        self.is_same_but_for_waiting(other) && are_same(&self.waiting, &other.waiting)
    }

    /// Whether the other device is the same, whatever waits at both.
    #[inline(always)]
    pub fn is_same_but_for_waiting(&self, other: &Attached) -> bool
        ensures { IsTrue result ↔ (record self.now { waiting = other.now.waiting } ≡ other.now) }
    {
        are_same_identities(self.identity, other.identity)
            && self.has_same_byte_fields(other)
            && are_same_registers(&self.registers, &other.registers)
    }

    /// Whether the other device has the same in each field of one byte.
    #[inline(always)]
    fn has_same_byte_fields(&self, other: &Attached) -> bool
        ensures { IsTrue result ↔ HaveSameByteFields self.now other.now }
    {
        self.byte_fields() == other.byte_fields()
    }

    /// Its addresses, its willingness, its wishes, whether it hears the open session, and its lengths, as one number.
    fn byte_fields(&self) -> u64
        ensures number { result ≡ from_le_bytes w64 (field_bytes self.now) }
        ensures ranged { FitBytes self.now }
    {
        u64::from_le_bytes([
            self.fixed.byte(),
            self.address.byte(),
            self.willing.byte(),
            self.join_wish.byte(),
            self.role_wish.byte(),
            self.hearing.byte(),
            self.most_written.get(),
            self.most_read.get(),
        ])
    }

    /// What the device is.
    pub fn identity(&self) -> Identity
        ensures { result ≡ self.now.identity }
    {
        self.identity
    }

    /// Whether it wishes for the controller role, with an address or without one.
    pub fn has_role_wish(&self) -> bool
        ensures { result ≡ self.now.role_wish }
    {
        self.role_wish.get()
    }

    /// Whether it hears the open session.
    pub fn is_hearing(&self) -> bool
        ensures { result ≡ self.now.hearing }
    {
        self.hearing.get()
    }

    /// Its static address, if it has one.
    pub fn fixed(&self) -> Option<Addr7>
        ensures { result ≡ self.now.fixed }
    {
        self.fixed.get()
    }

    /// Its dynamic address, if it has one.
    pub fn address(&self) -> Option<Addr7>
        ensures { result ≡ self.now.address }
    {
        self.address.get()
    }

    /// Whether this is its dynamic address.
    pub(crate) fn is_at(&self, address: Addr7) -> bool
        ensures { result ≡ has_address address self.now }
    {
        self.address.is(address)
    }

    /// How many of its interrupts wait.
    pub fn waiting(&self) -> usize
        ensures { result ≡ length self.now.waiting }
    {
        self.waiting.len()
    }

    /// A number that equal queues have in common, of its interrupts that wait.
    pub fn queue_key(&self) -> u64 {
        queue_key(&self.waiting)
    }

    /// Whether it takes the controller role when it is offered.
    pub fn is_willing(&self) -> bool
        ensures { result ≡ self.now.willing }
    {
        self.willing.get()
    }

    /// Its registers, which private transfers read and write (I3C Basic 5.1.2.2).
    pub fn registers(&self) -> &[u8; REGISTERS]
        ensures { result.now ≡ self.now.registers }
    {
        &self.registers
    }

    /// The bytes of a datum that it tells, the most significant first, filled up with 00 (I3C Basic 5.1.9.3).
    pub fn told(&self, what: Datum) -> [u8; LONGEST]
        ensures { result ≡ filled_up MOST_TOLD (told_bytes what self.now) }
    {
        match what {
            Datum::Pid => pid_bytes(self.identity.pid.get()),
            Datum::Bcr => [self.identity.bcr.0, 0, 0, 0, 0, 0],
            Datum::Dcr => [self.identity.dcr.0, 0, 0, 0, 0, 0],
            Datum::Status => [0, self.pending(), 0, 0, 0, 0],
            Datum::WriteLength => [0, self.most_written.get(), 0, 0, 0, 0],
            Datum::ReadLength => [0, self.most_read.get(), 1, 0, 0, 0],
            Datum::Speed => [0; LONGEST],
            Datum::Capabilities => [0, 1, 0, 0, 0, 0],
        }
    }

    /// How many bytes a private write to it may have, or a private read of it has (I3C Basic 5.1.9.3.5, 5.1.9.3.6).
    pub fn length(&self, way: Direction) -> Length
        ensures { result ≡ length_of way self.now }
    {
        match way {
            Direction::Write => self.most_written,
            Direction::Read => self.most_read,
        }
    }

    /// SETMWL and SETMRL set this length (I3C Basic 5.1.9.3.5, 5.1.9.3.6).
    pub fn limit(&mut self, way: Direction, most: Length)
        ensures { self.new ≡ limited way most self.old }
    {
        match way {
            Direction::Write => self.most_written = most,
            Direction::Read => self.most_read = most,
        }
    }

    /// SETMWL and SETMRL set this length, where they name one (I3C Basic 5.1.9.3.5, 5.1.9.3.6).
    pub fn set_length(&mut self, way: Direction, most: Option<Length>)
        ensures { self.new ≡ set_length way most self.old }
    {
        if let Some(most) = most {
            self.limit(way, most);
        }
    }

    /// SETDASA: it takes this address, where one is named, if it has a static address and no dynamic one (I3C Basic
    /// 5.1.9.3.10). No dynamic address is below `08`.
    pub fn set_static(&mut self, address: Option<Addr7>)
        requires { IfSome address (λ a. 8 ≤ a) }
        ensures { self.new ≡ set_static address self.old }
    {
        if let Some(address) = address {
            if self.address.is_none() && self.fixed.get().is_some() {
                self.take_address(address);
            }
        }
    }

    /// SETNEWDA: it has this address, where one is named, in place of the one that it has (I3C Basic 5.1.9.3.11). No
    /// dynamic address is below `08`.
    pub fn set_new(&mut self, address: Option<Addr7>)
        requires { IfSome address (λ a. 8 ≤ a) }
        ensures { self.new ≡ set_new address self.old }
    {
        if let Some(address) = address {
            if !self.address.is_none() {
                self.readdress(address);
            }
        }
    }

    /// The second byte of its status: whether an interrupt of it waits (I3C Basic 5.1.9.3.15).
    fn pending(&self) -> u8
        ensures { result ≡ pending self.now }
    {
        if self.waiting.is_empty() { 0 } else { 1 }
    }

    /// A private write puts these bytes into its first registers.
    pub fn write(&mut self, bytes: &[u8])
        requires { length bytes.now ≤ REGISTER_COUNT }
        ensures { self.new ≡ record self.old { registers = overwritten bytes.now self.old.registers } }
    {
        self.registers[..bytes.len()].copy_from_slice(bytes);
    }

    /// A session is opened: it hears it if it has no address (I3C Basic 5.1.4.2).
    pub fn hear_opening(&mut self)
        ensures { self.new ≡ hears self.old }
    {
        if self.address.is_none() {
            self.hearing = Flag::of(true);
        }
    }

    /// All dynamic addresses are reset: it has none any more, and no wish for the role (I3C Basic 5.1.9.3.3).
    pub fn lose_address(&mut self)
        ensures { self.new ≡ unaddressed_device self.old }
    {
        self.address = ByteAddress::none();
        self.role_wish = Flag::of(false);
    }

    /// The session ends: it hears no more.
    pub fn fall_silent(&mut self)
        ensures { self.new ≡ unhearing self.old }
    {
        self.hearing = Flag::of(false);
    }

    /// The request that it drives into an arbitrable header while that kind is enabled: a join without an address, else
    /// the role request before the interrupt (I3C Basic 5.1.6).
    pub fn choice(&self) -> Option<Request>
        ensures { result ≡ choice_of self.now.address self.now }
    {
        let Some(address) = self.address.get() else {
            return if self.join_wish.get() {
                Some(Request::Join)
            } else {
                None
            };
        };
        if self.role_wish.get() {
            Some(Request::Role(address))
        } else if !self.waiting.is_empty() {
            Some(Request::Interrupt(address))
        } else {
            None
        }
    }

    /// The key of the request that it drives when it drives one: of a join without an address, else of the role request
    /// or the interrupt (I3C Basic 5.1.2.2.1).
    pub(crate) fn key(&self) -> u8
        ensures key { result ≡ key_of self.now.address self.now.role_wish }
        ensures dynamic { IsDynamic self.now.address }
    {
        match self.address.get() {
            None => key(Request::Join),
            Some(address) if self.role_wish.get() => key(Request::Role(address)),
            Some(address) => key(Request::Interrupt(address)),
        }
    }

    /// The address at which it answers: its dynamic one, otherwise its static one; `NOWHERE` if it has neither.
    pub(crate) fn answer(&self) -> u8
        ensures { result ≡ answer_of self.now.address self.now.fixed }
    {
        match self.address.get().or(self.fixed.get()) {
            Some(address) => address.get(),
            None => NOWHERE,
        }
    }

    /// It has this address from now on, which a round gave it or SETDASA. It doesn't hear the session any more, and no longer
    /// wishes to join. No dynamic address is below `08`.
    pub fn take_address(&mut self, address: Addr7)
        requires { 8 ≤ address }
        ensures { self.new ≡ winner address self.old }
    {
        self.address = ByteAddress::of(Some(address));
        self.hearing = Flag::of(false);
        self.join_wish = Flag::of(false);
    }

    /// It has this dynamic address from now on, and nothing else of it changes (SETNEWDA, I3C Basic 5.1.9.3.11). No
    /// dynamic address is below `08`.
    pub fn readdress(&mut self, address: Addr7)
        requires { 8 ≤ address }
        ensures { self.new ≡ readdressed address self.old }
    {
        self.address = ByteAddress::of(Some(address));
    }

    /// Whether it may raise an interrupt with this byte now, where its interrupts are enabled or aren't: the first fault,
    /// if there is one.
    pub fn may_raise(&self, byte: Option<u8>, enabled: bool) -> Result<(), RaiseRefusal>
        ensures { MatchResult result (λ _. raise_fault (interrupting_if enabled self.now) byte ≡ None) (λ fault. raise_fault (interrupting_if enabled self.now) byte ≡ Some fault) }
    {
        if self.address.is_none() {
            return Err(RaiseRefusal::NoAddress);
        }
        if !self.identity.bcr.interrupts() {
            return Err(RaiseRefusal::NotCapable);
        }
        if self.identity.bcr.has_byte() != byte.is_some() {
            return Err(RaiseRefusal::ByteMismatch);
        }
        if !enabled {
            return Err(RaiseRefusal::Masked);
        }
        if self.waiting.is_full() {
            return Err(RaiseRefusal::Full);
        }
        Ok(())
    }

    /// Raises the interrupt after this many of its slot, where its interrupts are enabled or aren't, and answers its
    /// number: it waits as the last one. The first fault refuses it, and changes nothing; a count that can't grow is
    /// `Full` too.
    pub fn raise(
        &mut self,
        raised: u64,
        byte: Option<u8>,
        enabled: bool,
    ) -> Result<u64, RaiseRefusal>
        ensures fault { MatchResult result (λ number. (number ≡ suc raised) × (next_fault (interrupting_if enabled self.old) byte raised ≡ None)) (λ fault. next_fault (interrupting_if enabled self.old) byte raised ≡ Some fault) }
        ensures raised { OnOk result (self.new ≡ with_raise (suc raised) byte self.old) }
        ensures unchanged { OnErr result (self.new ≡ self.old) }
    {
        self.may_raise(byte, enabled)?;
        let Some(number) = raised.checked_add(1) else {
            return Err(RaiseRefusal::Full);
        };
        self.waiting.push(Waiting { number, byte });
        Ok(number)
    }

    /// The interrupt that waits at the front.
    pub fn front(&self) -> Option<Waiting>
        ensures { result ≡ slice_get self.now.waiting 0 }
    {
        self.waiting.first().copied()
    }

    /// The mandatory byte that it answers with when its interrupt is accepted, if it has one.
    pub fn answer_byte(&self) -> Option<u8>
        ensures { result ≡ front_byte self.now.waiting }
    {
        match self.waiting.first() {
            Some(front) => front.byte,
            None => None,
        }
    }

    /// Whether it has no address.
    pub(crate) fn is_unaddressed(&self) -> bool
        ensures { result ≡ is_none self.now.address }
    {
        self.address.is_none()
    }

    /// Whether it wishes to join, and has no address.
    pub(crate) fn wishes_join(&self) -> bool
        ensures { result ≡ wishes_join self.now }
    {
        self.address.is_none() && self.join_wish.get()
    }

    /// Whether it wishes for the role, and has an address.
    pub(crate) fn wishes_role(&self) -> bool
        ensures { result ≡ wishes_role self.now }
    {
        !self.address.is_none() && self.role_wish.get()
    }

    /// Whether it wishes to interrupt, and not for the role, and has an address.
    pub(crate) fn wishes_interrupt(&self) -> bool
        ensures { result ≡ wishes_interrupt self.now }
    {
        !self.address.is_none() && !self.role_wish.get() && !self.waiting.is_empty()
    }

    /// It wishes to join.
    pub fn wish_join(&mut self)
        ensures { self.new ≡ record self.old { join_wish = true } }
    {
        self.join_wish = Flag::of(true);
    }

    /// It wishes for the controller role.
    pub fn wish_role(&mut self)
        ensures { self.new ≡ record self.old { role_wish = true } }
    {
        self.role_wish = Flag::of(true);
    }

    /// Its interrupt was accepted: the front leaves its waiting list.
    pub fn lose_front(&mut self)
        ensures { self.new ≡ without_front self.old }
    {
        if !self.waiting.is_empty() {
            self.waiting.remove(0);
        }
    }

    /// Its join was accepted: the wish is gone.
    pub fn lose_join_wish(&mut self)
        ensures { self.new ≡ without_join self.old }
    {
        self.join_wish = Flag::of(false);
    }

    /// Its role request was accepted: the wish is gone.
    pub fn lose_role_wish(&mut self)
        ensures { self.new ≡ without_role self.old }
    {
        self.role_wish = Flag::of(false);
    }
}

/// A provisioned ID in bytes, the most significant first.
fn pid_bytes(pid: u64) -> [u8; LONGEST]
    ensures { result ≡ pid_bytes pid }
{
    [
        (pid / 0x100_0000_0000 % 256) as u8,
        (pid / 0x1_0000_0000 % 256) as u8,
        (pid / 0x100_0000 % 256) as u8,
        (pid / 0x1_0000 % 256) as u8,
        (pid / 0x100 % 256) as u8,
        (pid % 256) as u8,
    ]
}

/// Whether both are the same registers. All are compared, which is faster than to stop at the first that differs.
#[inline(always)]
fn are_same_registers(registers: &[u8; REGISTERS], others: &[u8; REGISTERS]) -> bool
    ensures { IsTrue result ↔ (registers.now ≡ others.now) }
{
    let mut same = true;
    for index in 0..REGISTERS {
        same = same & (registers[index] == others[index]);
    }
    same
}

/// Whether both are the same identity. Two bytes are compared as one number.
#[inline(always)]
#[tactic(auto, using(crate::proofs::ByteFieldLaws::same_pair))]
fn are_same_identities(identity: Identity, other: Identity) -> bool
    ensures { IsTrue result ↔ (identity ≡ other) }
{
    identity.pid == other.pid && characteristics(identity) == characteristics(other)
}

/// The characteristics of an identity as one number.
#[inline(always)]
fn characteristics(identity: Identity) -> u16
    ensures number { result ≡ from_le_bytes w16 (identity.bcr.0 ∷ identity.dcr.0 ∷ []) }
    ensures ranged { (identity.bcr.0 < 256) × (identity.dcr.0 < 256) }
{
    u16::from_le_bytes([identity.bcr.0, identity.dcr.0])
}
