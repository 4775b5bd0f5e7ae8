ghost use Rattle.std.specs.Prelude.{◌≡◌, ◌≢◌, ◌≤◌, ◌++◌, ℕ, ◌||◌, false, drop, length};
ghost use Rattle.i3c_base.specs.Sets.{is_in};

use crate::keeping::{keep_for, keep_homes};
use crate::registers::Registers;
use crate::resting::RestingTable;
use crate::row::Row;
use crate::rows::Rows;
use crate::sorted_addresses::SortedAddresses;
use crate::static_address::StaticAddress;
use i3c_base::{ADDRESSES, Addr7, Addresses, Bcr, Dcr, Identity};
use i3c_legacy::Legacies;
use std::marker::Model;

/// How many dynamic addresses there are: `08` to `77` without `3E`, `5E`, `6E` and `76` (I3C Basic 5.1.2.2.5).
pub const ROWS: usize = 108;

/// A controller's table: a row for each address that is given, the static addresses, and whether the list that was
/// last sent is current (DEFTGTS, I3C Basic 5.1.9.3.7).
///
/// Clauses see a place for each of the 128 addresses.
#[derive(Drop)]
pub struct Table {
    // the addresses that were given, and those of them that are kept for an identity
    pub(crate) held: Addresses,
    pub(crate) kept: Addresses,
    // the registers and the static address of the device at each address that was given
    pub(crate) registers: [Registers; ADDRESSES],
    // at each address that is kept, the number of its identity
    pub(crate) numbers: [u64; ADDRESSES],
    pub(crate) legacies: Legacies,
    // the addresses that are kept, by their numbers
    pub(crate) order: SortedAddresses,
    pub(crate) listed: bool,
}

impl Model for Table {
    ghost use Rattle.i3c_base.specs.Covered.{Table as TableValue};

    ghost Value = { TableValue };

    ghost use Rattle.i3c_table.specs.Stored.{stored, IsInOrder, IsWhole};

    ghost view = { λ t. record { given = stored t.held.0 t.kept.0 t.registers t.numbers; legacy = t.legacies.legacy; declared = t.legacies.declared; listed = t.listed } };

    ghost invariant = { λ t. IsWhole t.held.0 t.kept.0 t.legacies × IsInOrder t.kept.0 t.numbers t.order };
}

impl Table {
    ghost use Rattle.std.specs.Prelude.{◌≡◌, ◌↔◌, ℕ, ◌≤◌, None, Some, true, false, count_by, is_some, length, map, option_map, slice_index_or, IfSome, IsSome, MatchOption};
    ghost use Rattle.i3c_base.specs.declared.range.TheConstants.{ADDRESSES};
    ghost use Rattle.i3c_table.specs.declared.table.TheConstants.{ROWS};
    ghost use Rattle.i3c_base.specs.State.{entry_in, kept_of, known_in, no_entries, taken_over, IsFree, IsKeptIn, IsPickableIn, IsUnknownIn, IsUsable};
    ghost use Rattle.i3c_base.specs.Frames.{moved, released_at};
    ghost use Rattle.i3c_table.specs.Rows.{entry_of_row};
    ghost use Rattle.i3c_base.specs.Sets.{is_in};
    ghost use Rattle.i3c_table.specs.Putting.{cleared, with_row, MayPut};

    /// A table in which no address was given.
    pub fn new(legacies: Legacies) -> Table
        ensures { result ≡ record { given = no_entries; legacy = legacies.legacy; declared = legacies.declared; listed = false } }
    {
        let none = Addresses::new();
        let nothing = Registers {
            bcr: Bcr(0),
            dcr: Dcr(0),
            fixed: StaticAddress::of(None),
        };
        Table {
            held: none,
            kept: none,
            registers: [nothing; ADDRESSES],
            numbers: [0; ADDRESSES],
            legacies,
            order: SortedAddresses::new(),
            listed: false,
        }
    }

    /// The table that was at rest.
    pub fn woken(resting: &RestingTable) -> Table
        ensures { result ≡ resting.now }
    {
        let mut table = Table::new(Legacies::new());
        table.wake(resting);
        table
    }

    /// It becomes the table that was at rest.
    pub fn wake(&mut self, resting: &RestingTable)
        ensures { self.new ≡ resting.now }
    {
        self.held = resting.held;
        self.kept = resting.kept;
        begin_registers(&mut self.registers, &resting.registers);
        begin_numbers(&mut self.numbers, &resting.numbers);
        self.legacies.wake(&resting.legacies);
        self.order.copy_from(&resting.order);
        self.listed = resting.listed;
    }

    /// The rows.
    pub(crate) fn rows(&self) -> Rows<'_>
        ensures { result ≡ self.now.given }
    {
        Rows {
            held: self.held,
            kept: self.kept,
            order: self.order.as_slice(),
            registers: &self.registers,
            numbers: &self.numbers,
        }
    }

    /// The row at an address, if it was given.
    pub fn row_of(&self, address: Addr7) -> Option<Row>
        ensures found { MatchOption result (IsFree self.now.given address)
            (λ row. (row.address ≡ address) × (entry_in self.now.given address ≡ Some (entry_of_row row))) }
        ensures all_places { length self.now.given ≡ ADDRESSES }
    {
        if !self.held.has(address) {
            return None;
        }
        let registers = self.registers[address.get() as usize];
        Some(Row {
            address,
            bcr: registers.bcr,
            dcr: registers.dcr,
            identity: self.identity_at(address),
            fixed: registers.fixed.address(),
        })
    }

    /// The addresses that may be picked: usable ones without a row, and that are nobody's static ones (I3C Basic 5.1.4).
    pub fn open_addresses(&self) -> Addresses
        ensures { (a : ℕ) → (is_in result.0 a ≡ true) ↔ IsPickableIn self.now.given self.now.legacy self.now.declared a }
    {
        let taken = self.legacies.addresses();
        Addresses::usable()
            .without_all(self.held)
            .without_all(taken)
    }

    /// The addresses that were given.
    pub fn given_addresses(&self) -> Addresses
        ensures given { (a : ℕ) → (is_in result.0 a ≡ true) ↔ IsSome (entry_in self.now.given a) }
        ensures few { count_by is_some self.now.given ≤ ROWS }
        ensures usable { (a : ℕ) → IfSome (entry_in self.now.given a) (λ _. IsUsable a) }

        // no legacy target and no declared identity has one
        ensures apart { (a : ℕ) → IfSome (entry_in self.now.given a) (λ _. IsFree self.now.legacy a) }
        ensures undeclared { (a : ℕ) → IfSome (entry_in self.now.given a) (λ _. IsFree self.now.declared a) }
        ensures all_places { length self.now.given ≡ ADDRESSES }
    {
        self.held
    }

    /// The address that is kept for an identity, if one is: the least, were there several.
    #[inline(always)]
    pub fn address_known(&self, identity: &Identity) -> Option<Addr7>
        ensures kept { MatchOption result (IsUnknownIn self.now.given identity.now)
            (λ a. IsKeptIn self.now.given identity.now a) }
        ensures known { result ≡ known_in self.now.given identity.now }
        ensures usable { IfSome result IsUsable }
    {
        self.order.first_of(&self.numbers, identity.number())
    }

    /// Enters a row, at an address that may be picked or that is kept for the row's identity. There is always room.
    // in line, so that the row itself isn't made
    #[inline(always)]
    pub fn put(&mut self, row: Row)
        requires { MayPut self.old row }
        ensures { self.new ≡ with_row row self.old }
    {
        let Row {
            address,
            bcr,
            dcr,
            identity,
            fixed,
        } = row;
        self.kept = keep_for(
            identity,
            address,
            self.kept,
            &mut self.numbers,
            &mut self.order,
        );
        self.held = self.held.with(address);
        self.registers[address.get() as usize] = Registers {
            bcr,
            dcr,
            fixed: StaticAddress::of(fixed),
        };
        self.listed = false; // nobody was told of the row
    }

    /// Forgets every address but the controller's own, which is kept for nobody then (RSTDAA, I3C Basic 5.1.9.3.3).
    pub fn clear(&mut self, own: Addr7)
        ensures { self.new ≡ cleared own self.old }
    {
        self.listed = false;
        self.kept = Addresses::new();
        self.order.clear();
        self.held = self.held.only(own);
    }

    /// The table as a new controller at `own` has it, who knows its bus by a list: addresses are kept for declared
    /// identities alone. Each has the least address, other than `own`, whose row has its static address. The list is out
    /// of date then.
    pub fn take_over(&mut self, own: Addr7)
        ensures { self.new ≡ record self.old { given = taken_over self.old.declared own self.old.given; listed = false } }
    {
        self.listed = false;
        self.kept = Addresses::new(); // a list names no identities
        self.order.clear();
        if !self.legacies.has_declared() {
            return;
        }
        self.kept = keep_homes(
            &self.legacies,
            self.held.without(own),
            &self.registers,
            &mut self.numbers,
            &mut self.order,
        );
    }

    /// Keeps an address for nobody any more, whether or not a device still has it: the controller can't see that. The
    /// address stays given, without a static one, and the list is out of date (SETDASA, I3C Basic 5.1.9.3.10).
    pub fn release(&mut self, address: Addr7)
        ensures { self.new ≡ record self.old { given = released_at (Some address) self.old.given; listed = false } }
    {
        self.listed = false;
        self.kept = self.kept.without(address);
        self.registers[address.get() as usize].fixed = StaticAddress::of(None);
        self.order = SortedAddresses::of(&self.numbers, self.kept);
    }

    /// Moves a row to a new address, which may be picked (SETNEWDA, I3C Basic 5.1.9.3.11).
    pub fn renumber(&mut self, old: Addr7, new: Addr7)
        requires given { IsSome (entry_in self.old.given old) }
        requires pickable { IsPickableIn self.old.given self.old.legacy self.old.declared new }
        ensures { self.new ≡ record self.old { given = moved old new self.old.given; listed = false } }
    {
        self.listed = false;
        self.held = with_moved(self.held, old, new);
        self.kept = with_moved(self.kept, old, new);
        let from = old.get() as usize;
        let to = new.get() as usize;
        self.registers[to] = self.registers[from];
        self.numbers[to] = self.numbers[from];
        self.order = SortedAddresses::of(&self.numbers, self.kept);
    }

    /// The list of this table was sent: it is current (DEFTGTS, I3C Basic 5.1.9.3.7).
    pub fn mark_listed(&mut self)
        ensures { self.new ≡ record self.old { listed = true } }
    {
        self.listed = true;
    }

    /// Whether the list that was last sent is current.
    pub fn list_current(&self) -> bool
        ensures { result ≡ self.now.listed }
    {
        self.listed
    }

    /// The rows, each at its address.
    pub fn by_address(&self) -> [Option<Row>; ADDRESSES]
        ensures rows { map (option_map entry_of_row) result ≡ self.now.given }
        ensures addressed { (a : ℕ) → IfSome (slice_index_or result a None) (λ row. row.address ≡ a) }
        ensures few { count_by is_some self.now.given ≤ ROWS }
        ensures usable { (a : ℕ) → IfSome (entry_in self.now.given a) (λ _. IsUsable a) }

        // no legacy target and no declared identity has the address of a row
        ensures apart { (a : ℕ) → IfSome (entry_in self.now.given a) (λ _. IsFree self.now.legacy a) }
        ensures undeclared { (a : ℕ) → IfSome (entry_in self.now.given a) (λ _. IsFree self.now.declared a) }
    {
        let mut rows = [None; ADDRESSES];
        let mut left = self.held;
        while let Some(address) = left.lowest() {
            rows[address.get() as usize] = self.row_of(address);
            left = left.without(address);
        }
        rows
    }

    /// The legacy targets and the declared identities.
    pub fn legacies(&self) -> &Legacies
        ensures { result.now ≡ record { legacy = self.now.legacy; declared = self.now.declared } }
    {
        &self.legacies
    }

    // The identity that an address is kept for, if there is one.
    fn identity_at(&self, address: Addr7) -> Option<Identity>
        ensures { result ≡ kept_of (entry_in self.now.given address) }
    {
        if !self.kept.has(address) {
            return None;
        }
        Some(Identity::from_number(self.numbers[address.get() as usize]))
    }
}

// The first of these registers become others.
fn begin_registers(registers: &mut [Registers], firsts: &[Registers])
    requires { length firsts.now ≤ length registers.old }
    ensures { registers.new ≡ firsts.now ++ drop (length firsts.now) registers.old }
{
    registers[..firsts.len()].copy_from_slice(firsts);
}

// The first of these numbers become others.
fn begin_numbers(numbers: &mut [u64], firsts: &[u64])
    requires { length firsts.now ≤ length numbers.old }
    ensures { numbers.new ≡ firsts.now ++ drop (length firsts.now) numbers.old }
{
    numbers[..firsts.len()].copy_from_slice(firsts);
}

// The set with a new address in place of an old one, if it has that.
fn with_moved(set: Addresses, old: Addr7, new: Addr7) -> Addresses
    ensures here { is_in result.0 new ≡ (is_in set.0 old || is_in set.0 new) }
    ensures gone { old ≢ new → is_in result.0 old ≡ false }
    ensures others { (a : ℕ) → a ≢ old → a ≢ new → is_in result.0 a ≡ is_in set.0 a }
{
    if !set.has(old) {
        return set;
    }
    set.without(old).with(new)
}
