ghost use Rattle.std.specs.Prelude.{◌≡◌};
ghost use Rattle.i3c_monitor.specs.AddressStatuses.{moves_addresses, some_owner};

use crate::decoded::{Decoded, Direct};
use crate::words::leading_words;
use i3c_base::{ADDRESSES, Addr7, Request};
use i3c_deftgts::{Entry, read_list};
use i3c_frame::Symbol;
use i3c_word::Word;
use std::alloc::{AllocError, Global};

/// The owner of an address, as far as a trace shows it.
#[derive(Clone, Copy)]
pub(crate) enum Owner {
    /// Nobody was given it.
    Nobody,
    /// Somebody has it: a list of devices names it (I3C Basic 5.1.9.3.7), or SETDASA gave it.
    Somebody,
    /// A round gave it to this identity (I3C Basic 5.1.4.2).
    Given(u64),
}

/// What a trace shows of an address: its owner, and the symbol at which it didn't answer.
#[derive(Clone, Copy)]
pub(crate) struct Status {
    pub owner: Owner,
    pub silent: Option<usize>,
}

/// An address without anything known.
const NOBODYS: Status = Status {
    owner: Owner::Nobody,
    silent: None,
};

/// What a trace shows of all addresses, and whether it shows their owners.
#[derive(Drop)]
pub(crate) struct AddressStatuses {
    pub shown: bool,
    pub statuses: [Status; ADDRESSES],
}

impl AddressStatuses {
    ghost use Rattle.i3c_deftgts.specs.Layout.{bytes};
    ghost use Rattle.i3c_deftgts.specs.Reading.{entries_in, first_fault};
    ghost use Rattle.std.specs.Prelude.{◌≡◌, if◌then◌else◌, map, OnOk, Some};
    ghost use Rattle.i3c_monitor.specs.AddressStatuses.{after_absent, after_present, all_listed, all_nobodys, cleared, forgotten, given, given_to_somebody, heard, learned, learned_of, list_read, list_shown, listed, moved, silenced, status_of, unless_unread, with_status, absent, moves_addresses, present};

    /// Nothing is known, and the trace doesn't show the owners of addresses.
    #[tactic(auto, unfolding(crate::specs::AddressStatuses::all_nobodys))]
    pub fn new() -> AddressStatuses
        ensures { result ≡ forgotten }
    {
        AddressStatuses {
            shown: false,
            statuses: [NOBODYS; ADDRESSES],
        }
    }

    /// What is known of an address.
    pub fn status(&self, address: Addr7) -> Status
        ensures { result ≡ status_of address self.now }
    {
        match self.statuses.get(address.get() as usize) {
            Some(status) => *status,
            None => NOBODYS,
        }
    }

    /// This is known of an address from here on.
    fn set(&mut self, address: Addr7, status: Status)
        ensures { self.new ≡ with_status address status self.old }
    {
        self.statuses[address.get() as usize] = status;
    }

    /// Nobody has an address any more (I3C Basic 5.1.9.3.3).
    fn clear(&mut self)
        ensures { self.new ≡ cleared }
    {
        *self = AddressStatuses::new();
        self.shown = true;
    }

    /// Nothing is known any more, if a frame couldn't be read.
    pub fn forget_if(&mut self, unread: bool)
        ensures { self.new ≡ unless_unread unread self.old }
    {
        if unread {
            *self = AddressStatuses::new();
        }
    }

    /// A round gave an address to an identity.
    fn give(&mut self, address: Addr7, identity: u64)
        ensures { self.new ≡ given address identity self.old }
    {
        let owner = Owner::Given(identity);
        self.set(
            address,
            Status {
                owner,
                silent: None,
            },
        );
    }

    /// SETDASA gave an address: to which identity isn't shown.
    fn give_somebody(&mut self, address: Addr7)
        ensures { self.new ≡ given_to_somebody address self.old }
    {
        let owner = Owner::Somebody;
        self.set(
            address,
            Status {
                owner,
                silent: None,
            },
        );
    }

    /// SETNEWDA gave the owner of an address a new one.
    fn move_owner(&mut self, old: Addr7, new: Addr7)
        ensures { self.new ≡ moved old new self.old }
    {
        let owner = some_owner(self.status(old).owner);
        self.set(old, NOBODYS);
        self.set(
            new,
            Status {
                owner,
                silent: None,
            },
        );
    }

    /// An address didn't answer, by the header of this number.
    fn silence(&mut self, address: Addr7, symbol: usize)
        ensures { self.new ≡ silenced address symbol self.old }
    {
        let owner = self.status(address).owner;
        let silent = Some(symbol);
        self.set(address, Status { owner, silent });
    }

    /// An address answered, or asked.
    fn hear(&mut self, address: Addr7)
        ensures { self.new ≡ heard address self.old }
    {
        let owner = self.status(address).owner;
        self.set(
            address,
            Status {
                owner,
                silent: None,
            },
        );
    }

    /// A list names an address.
    fn list(&mut self, address: Addr7)
        ensures { self.new ≡ listed address self.old }
    {
        let Status { owner, silent } = self.status(address);
        let owner = some_owner(owner);
        self.set(address, Status { owner, silent });
    }

    /// Learns from a header of this number, and the symbols behind it.
    pub fn learn(
        &mut self,
        alloc: Global,
        symbol: usize,
        behind: &[Symbol],
        decoded: &Option<Decoded>,
    ) -> Result<(), AllocError>
        ensures { OnOk result (self.new ≡ learned_of symbol behind.now decoded.now self.old) }
    {
        match decoded {
            None => Ok(()),
            Some(decoded) => self.learn_from(alloc, symbol, behind, decoded),
        }
    }

    /// Learns from what a header is.
    fn learn_from(
        &mut self,
        alloc: Global,
        symbol: usize,
        behind: &[Symbol],
        decoded: &Decoded,
    ) -> Result<(), AllocError>
        ensures { OnOk result (self.new ≡ learned symbol behind.now decoded.now self.old) }
    {
        match decoded {
            Decoded::Rstdaa => self.clear(),
            Decoded::Deftgts(_) => return self.list_behind(alloc, behind),
            Decoded::Other(byte) => self.learn_other(*byte),
            Decoded::Refused(_) => *self = AddressStatuses::new(),
            Decoded::Round {
                identity,
                byte,
                taken: true,
            } => self.give(Addr7::new(*byte / 2).unwrap(), *identity),
            Decoded::Single {
                command: Direct::Setdasa,
                byte: Some(byte),
                ..
            } => self.give_somebody(Addr7::new(*byte / 2).unwrap()),
            Decoded::Single {
                command: Direct::Setnewda,
                address,
                byte: Some(byte),
            } => self.move_owner(*address, Addr7::new(*byte / 2).unwrap()),
            _ => self.learn_answer(symbol, decoded),
        }
        Ok(())
    }

    /// Learns from a code that this engine doesn't know.
    fn learn_other(&mut self, byte: u8)
        ensures { self.new ≡ (if moves_addresses byte then forgotten else self.old) }
    {
        if moves_addresses(byte) {
            *self = AddressStatuses::new();
        }
    }

    /// Learns that a target answered, or that it didn't.
    fn learn_answer(&mut self, symbol: usize, decoded: &Decoded)
        ensures { self.new ≡ after_absent symbol (absent decoded.now) (after_present (present decoded.now) self.old) }
    {
        if let Some(address) = decoded.present() {
            self.hear(address);
        }
        if let Some(address) = decoded.absent() {
            self.silence(address, symbol);
        }
    }

    /// Learns from the list behind a code, which names all that have an address.
    fn list_behind(&mut self, alloc: Global, behind: &[Symbol]) -> Result<(), AllocError>
        ensures { OnOk result (self.new ≡ list_shown behind.now self.old) }
    {
        if behind.is_empty() {
            return Ok(());
        }
        let words = leading_words(alloc, &behind[1..])?;
        self.list_words(&words);
        Ok(())
    }

    /// Learns from the words of a list, if they are one.
    fn list_words(&mut self, words: &[Word])
        ensures { self.new ≡ list_read (first_fault words.now) (entries_in (bytes words.now)) self.old }
    {
        match read_list(words) {
            Ok(list) => {
                self.shown = true;
                self.list_all(list.entries());
            }
            Err(_) => {}
        }
    }

    /// A list names the addresses of these entries.
    fn list_all(&mut self, entries: &[Entry])
        ensures { self.new ≡ all_listed (map Some entries.now) self.old }
    {
        let mut rest = entries;
        while let [entry, more @ ..] = rest {
            self.list(entry.address());
            rest = more;
        }
    }
}

/// The owner of an address that is shown to have one: the one that was given it, or somebody.
fn some_owner(owner: Owner) -> Owner
    ensures { result ≡ some_owner owner }
{
    match owner {
        Owner::Nobody => Owner::Somebody,
        owner => owner,
    }
}

/// Whether addresses may be others' after the command of a code that this engine doesn't know.
fn moves_addresses(byte: u8) -> bool
    ensures { result ≡ moves_addresses byte }
{
    matches!(byte, 0x29 | 0x2A | 0x86 | 0x93 | 0x9A | 0x9B)
}
