ghost use Rattle.std.specs.Prelude.{◌≡◌, ◌↔◌, ◌<◌, ℕ, ◌&&◌, length, not, slice_index, IsTrue};
ghost use Rattle.i3c_base.specs.Sets.{is_in};
ghost use Rattle.i3c_table.specs.Stored.{kept_at, IsStoredAlike, IsReached};

use crate::registers::Registers;
use i3c_base::{Addr7, Addresses};
use std::marker::Model;

/// The rows of a table, where they are stored.
///
/// Clauses see a place for each of the 128 addresses.
#[derive(Drop)]
pub(crate) struct Rows<'a> {
    // the addresses that were given, and those of them that are kept for an identity
    pub held: Addresses,
    pub kept: Addresses,
    // the addresses that are kept, by their numbers
    pub order: &'a [Addr7],
    // at each address that was given, the registers and the static address of who has it
    pub registers: &'a [Registers],
    // at each address that is kept, the number of its identity
    pub numbers: &'a [u64],
}

impl<'a> Model for Rows<'a> {
    ghost use Rattle.std.specs.Prelude.{List, Option, length};
    ghost use Rattle.i3c_base.specs.State.{Entry};
    ghost use Rattle.i3c_table.specs.Stored.{stored, AreRows};

    ghost Value = { List (Option Entry) };

    ghost view = { λ r. stored r.held.0 r.kept.0 r.registers.now r.numbers.now };

    ghost invariant = { λ r. AreRows r.held.0 r.kept.0 r.order.now (length r.registers.now) (length r.numbers.now) };
}

impl Rows<'_> {
    ghost use Rattle.std.specs.Prelude.{◌≡◌, ◌↔◌, ℕ, true, is_some, IsTrue};
    ghost use Rattle.i3c_base.specs.State.{entry_in, kept_of};

    /// Whether others are the same. Only the addresses that were given are looked at, first those that are kept for an
    /// identity, in their order.
    pub fn are_same(&self, others: &Rows<'_>) -> bool
        ensures { IsTrue result ↔ (self.now ≡ others.now) }
    {
        if !are_same(self.held, others.held) {
            return false;
        }
        let mut left = without_if(self.held, self.kept, self.keeps_same(others));
        while let Some(address) = left.lowest() {
            if !self.has_same_row(others, address) {
                return false;
            }
            left = left.without(address);
        }
        true
    }

    // Whether each address that is kept for an identity has the same row in others.
    fn keeps_same(&self, others: &Rows<'_>) -> bool
        ensures { IsTrue result → (a : ℕ) → is_some (kept_of (entry_in self.now a)) ≡ true → entry_in self.now a ≡ entry_in others.now a }
    {
        are_same(self.kept, others.kept)
            && are_stored_alike(
                self.order,
                self.registers,
                self.numbers,
                others.registers,
                others.numbers,
            )
    }

    // Whether both have the same row at an address, or none.
    fn has_same_row(&self, others: &Rows<'_>, address: Addr7) -> bool
        ensures { IsTrue result ↔ (entry_in self.now address ≡ entry_in others.now address) }
    {
        if !self.held.has(address) {
            return !others.held.has(address);
        }
        if !others.held.has(address) {
            return false;
        }
        let index = address.get() as usize;
        self.registers[index].is_same(&others.registers[index])
            && are_kept_alike(
                self.kept,
                self.numbers,
                others.kept,
                others.numbers,
                address,
            )
    }
}

// Whether both have the same registers and the same number at each of these addresses.
fn are_stored_alike(
    addresses: &[Addr7],
    registers: &[Registers],
    numbers: &[u64],
    others: &[Registers],
    more: &[u64],
) -> bool
    requires { (k : ℕ) → k < length addresses.now → IsReached (length registers.now) (length numbers.now) (length others.now) (length more.now) (slice_index addresses.now k) }
    ensures { IsTrue result → (k : ℕ) → k < length addresses.now → IsStoredAlike registers.now numbers.now others.now more.now (slice_index addresses.now k) }
{
    for index in 0..addresses.len() {
        if !is_stored_alike(addresses[index], registers, numbers, others, more) {
            return false;
        }
    }
    true
}

// Whether both have the same registers and the same number at an address.
fn is_stored_alike(
    address: Addr7,
    registers: &[Registers],
    numbers: &[u64],
    others: &[Registers],
    more: &[u64],
) -> bool
    requires { IsReached (length registers.now) (length numbers.now) (length others.now) (length more.now) address }
    ensures { IsTrue result → IsStoredAlike registers.now numbers.now others.now more.now address }
{
    let index = address.get() as usize;
    numbers[index] == more[index] && registers[index].is_same(&others[index])
}

// A set without the addresses of another, or as it is.
fn without_if(set: Addresses, others: Addresses, is_so: bool) -> Addresses
    ensures { (a : ℕ) → is_in result.0 a ≡ (is_in set.0 a && not (is_so && is_in others.0 a)) }
{
    if is_so { set.without_all(others) } else { set }
}

// Whether an address is kept for one identity by both of two sets with the numbers at their addresses, or for nobody.
fn are_kept_alike(
    kept: Addresses,
    numbers: &[u64],
    others: Addresses,
    more: &[u64],
    address: Addr7,
) -> bool
    requires numbered { address < length numbers.now }
    requires more_numbered { address < length more.now }
    ensures { IsTrue result ↔ (kept_at kept.0 numbers.now address ≡ kept_at others.0 more.now address) }
{
    if !kept.has(address) {
        return !others.has(address);
    }
    let index = address.get() as usize;
    others.has(address) && numbers[index] == more[index]
}

/// Whether two sets have the same addresses.
pub(crate) fn are_same(set: Addresses, other: Addresses) -> bool
    ensures { IsTrue result ↔ ((a : ℕ) → is_in set.0 a ≡ is_in other.0 a) }
{
    set == other
}
