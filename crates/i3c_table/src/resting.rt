ghost use Rattle.std.specs.Prelude.{◌≡◌, ◌≤◌, ◌<◌, ℕ, true, count_by, length, take, IfOk};
ghost use Rattle.std.specs.List.{range_with_len};
ghost use Rattle.i3c_base.specs.declared.range.TheConstants.{ADDRESSES};
ghost use Rattle.i3c_base.specs.Sets.{is_in};

use crate::registers::Registers;
use crate::rows::{Rows, are_same};
use crate::sorted_addresses::SortedAddresses;
use crate::table::Table;
use i3c_base::Addresses;
use i3c_legacy::RestingLegacies;
use std::alloc::{AllocError, Global};
use std::marker::Model;

/// A table as it was at some time. Its rows take room up to the last address that was given, and the targets and
/// identities that are declared take room for themselves. The order of its identities has room for all 128 addresses.
///
/// Clauses see a place for each of the 128 addresses.
#[derive(Drop)]
pub struct RestingTable {
    // the addresses that were given, and those of them that are kept for an identity
    pub(crate) held: Addresses,
    pub(crate) kept: Addresses,
    // at each address that was given, the registers and the static address of who has it
    pub(crate) registers: Vec<Registers>,
    // at each address that is kept, the number of its identity
    pub(crate) numbers: Vec<u64>,
    pub(crate) legacies: RestingLegacies,
    // the addresses that are kept, by their numbers
    pub(crate) order: SortedAddresses,
    pub(crate) listed: bool,
}

impl Model for RestingTable {
    ghost use Rattle.std.specs.Prelude.{length};
    ghost use Rattle.i3c_base.specs.Covered.{Table as TableValue};

    ghost Value = { TableValue };

    ghost use Rattle.i3c_table.specs.Stored.{stored, IsInOrder, IsReaching, IsWhole};

    ghost view = { λ t. record { given = stored t.held.0 t.kept.0 t.registers.items t.numbers.items; legacy = t.legacies.legacy; declared = t.legacies.declared; listed = t.listed } };

    ghost invariant = { λ t. IsWhole t.held.0 t.kept.0 t.legacies × IsInOrder t.kept.0 t.numbers.items t.order × IsReaching t.held.0 (length t.registers.items) (length t.numbers.items) };
}

impl RestingTable {
    ghost use Rattle.std.specs.Prelude.{◌≡◌, ◌↔◌, ◌≤◌, ◌+◌, count_by, is_some, IfOk, IsTrue};
    ghost use Rattle.i3c_legacy.specs.declared.legacies.TheConstants.{LEGACIES};
    ghost use Rattle.i3c_table.specs.Room.{HasRoom};
    ghost use Rattle.i3c_table.specs.declared.table.TheConstants.{ROWS};

    /// A table as it is now.
    ///
    /// # Errors
    ///
    /// There is no memory for it.
    pub fn of(alloc: Global, table: &Table) -> Result<RestingTable, AllocError>
        ensures { IfOk result (λ resting. resting ≡ table.now) }
    {
        let span = span_of(table.held);
        Ok(RestingTable {
            held: table.held,
            kept: table.kept,
            registers: registers_at_rest(alloc, &table.registers, span)?,
            numbers: numbers_at_rest(alloc, &table.numbers, span)?,
            legacies: RestingLegacies::of(alloc, &table.legacies)?,
            order: table.order.copied(),
            listed: table.listed,
        })
    }

    /// Whether there is room for a table as it is now: the same addresses were given, and the same is declared.
    pub fn has_room_for(&self, table: &Table) -> bool
        ensures { IsTrue result → HasRoom self.now table.now }
    {
        are_same(self.held, table.held) && self.legacies.is_of(&table.legacies)
    }

    /// It becomes a table as it is now, for which there is room.
    pub fn copy_from(&mut self, table: &Table)
        requires { HasRoom self.old table.now }
        ensures { self.new ≡ table.now }
    {
        self.held = table.held;
        self.kept = table.kept;
        copy_registers(&mut self.registers, &table.registers);
        copy_numbers(&mut self.numbers, &table.numbers);
        self.order.copy_from(&table.order);
        self.listed = table.listed;
    }

    /// Whether a table has the same rows and static addresses, and agrees on whether the list is current.
    pub fn is_of(&self, table: &Table) -> bool
        ensures { IsTrue result ↔ (self.now ≡ table.now) }
    {
        self.listed == table.listed
            && self.rows().are_same(&table.rows())
            && self.legacies.is_of(&table.legacies)
    }

    /// Whether both have the same rows and static addresses, and agree on whether the list is current.
    pub fn is_same(&self, other: &RestingTable) -> bool
        ensures { IsTrue result ↔ (self.now ≡ other.now) }
    {
        self.listed == other.listed
            && self.rows().are_same(&other.rows())
            && self.legacies.is_same(&other.legacies)
    }

    /// How many entries the list has that is written of this table: those of its rows and of the legacy targets.
    pub fn list_len(&self) -> usize
        ensures long { result ≡ count_by is_some self.now.given + count_by is_some self.now.legacy }
        ensures few { result ≤ ROWS + LEGACIES }
    {
        count(self.held) + self.legacies.target_count()
    }

    // The rows.
    fn rows(&self) -> Rows<'_>
        ensures { result ≡ self.now.given }
    {
        Rows {
            held: self.held,
            kept: self.kept,
            order: self.order.as_slice(),
            registers: &self.registers,
            numbers: &self.numbers,
        }
    }
}

// How many addresses a set has.
fn count(set: Addresses) -> usize
    ensures { result ≡ count_by (is_in set.0) (range_with_len 0 ADDRESSES) }
{
    let mut count = 0;
    let mut left = set;
    while let Some(address) = left.lowest() {
        count += 1;
        left = left.without(address);
    }
    count
}

// How many addresses there are up to the last one of a set.
fn span_of(set: Addresses) -> usize
    ensures all { (a : ℕ) → is_in set.0 a ≡ true → a < result }
    ensures few { result ≤ ADDRESSES }
{
    let mut span = 0;
    let mut left = set;
    while let Some(address) = left.lowest() {
        span = span.max(address.get() as usize + 1);
        left = left.without(address);
    }
    span
}

// The first of these registers, in room of their own.
fn registers_at_rest(
    alloc: Global,
    registers: &[Registers],
    count: usize,
) -> Result<Vec<Registers>, AllocError>
    requires { count ≤ length registers.now }
    ensures { IfOk result (λ copy. copy.items ≡ take count registers.now) }
{
    let mut copy = Vec::with_capacity(alloc, count)?;
    copy.extend_from_slice(&registers[..count])?;
    Ok(copy)
}

// The first of these numbers, in room of their own.
fn numbers_at_rest(alloc: Global, numbers: &[u64], count: usize) -> Result<Vec<u64>, AllocError>
    requires { count ≤ length numbers.now }
    ensures { IfOk result (λ copy. copy.items ≡ take count numbers.now) }
{
    let mut copy = Vec::with_capacity(alloc, count)?;
    copy.extend_from_slice(&numbers[..count])?;
    Ok(copy)
}

// These registers become the first of others.
fn copy_registers(registers: &mut [Registers], others: &[Registers])
    requires { length registers.old ≤ length others.now }
    ensures { registers.new ≡ take (length registers.old) others.now }
{
    let count = registers.len();
    registers.copy_from_slice(&others[..count]);
}

// These numbers become the first of others.
fn copy_numbers(numbers: &mut [u64], others: &[u64])
    requires { length numbers.old ≤ length others.now }
    ensures { numbers.new ≡ take (length numbers.old) others.now }
{
    let count = numbers.len();
    numbers.copy_from_slice(&others[..count]);
}
