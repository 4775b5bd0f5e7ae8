ghost use Rattle.std.specs.Prelude.{◌≡◌, ◌+◌, ◌≤◌, ◌++◌, ℕ, List as ListOf, [], None, IfSome, IsSome, IsTrue, count_by, is_some, length, slice_index_or};
ghost use Rattle.arrayvec.specs.ArrayVec.{array_vec_len};
ghost use Rattle.i3c_base.specs.declared.range.TheConstants.{ADDRESSES};
ghost use Rattle.i3c_base.specs.State.{entry_in, is_static};
ghost use Rattle.i3c_table.specs.Rows.{entry_of_row};
ghost use Rattle.i3c_word.specs.declared.Word.{Word as WordValue};
ghost use Rattle.i3c_deftgts.specs.Copies.{copy_of, table_of};
ghost use Rattle.i3c_deftgts.specs.Entries.{device_at, entries_of, given_in, legacy_at, upwards, HaveOwnAddresses};
ghost use Rattle.i3c_deftgts.specs.Layout.{list_bytes, Carry};
ghost use Rattle.i3c_deftgts.specs.Reading.{AreTellable, ReadAs};

use crate::entries::{ENTRIES, Entry, List};
use arrayvec::ArrayVec;
use i3c_base::{Addr7, Addresses, Lvr};
use i3c_legacy::{LEGACIES, Legacies};
use i3c_table::{ROWS, Row, Table};

/// The most entries that a table's list has: a row's or a legacy target's each.
pub(crate) const WRITTEN: usize = ROWS + LEGACIES;

impl List {
    ghost use Rattle.std.specs.Prelude.{◌≡◌, ◌+◌, ◌≤◌, List as ListOf, IsSome, count_by, is_some, length};
    ghost use Rattle.i3c_base.specs.State.{entry_in};
    ghost use Rattle.i3c_word.specs.declared.Word.{Word as WordValue};
    ghost use Rattle.i3c_deftgts.specs.declared.listing.TheConstants.{WRITTEN};
    ghost use Rattle.i3c_deftgts.specs.Copies.{copy_of, table_of};
    ghost use Rattle.i3c_deftgts.specs.Entries.{entries_of};
    ghost use Rattle.i3c_deftgts.specs.Layout.{list_bytes, Carry};
    ghost use Rattle.i3c_deftgts.specs.Reading.{AreTellable, ReadAs};

    /// Becomes the list of a table: the own entry, then those of the other rows by address upwards, also of devices that
    /// are gone, and then those of the legacy targets by static address upwards. Whoever reads its words has this list,
    /// and the table, but for the identities that addresses are kept for. A static address `00`, and `7E` in the own row,
    /// is read as none.
    pub fn rewrite(&mut self, table: &Table, own: Addr7)
        requires { IsSome (entry_in table.now.given own) }
        ensures entries { self.new ≡ entries_of table.now own }
        ensures long { length self.new ≡ count_by is_some table.now.given + count_by is_some table.now.legacy }
        ensures few { length self.new ≤ WRITTEN }
        ensures read { AreTellable table.now own → (words : ListOf WordValue) → Carry (list_bytes self.new) words → ReadAs words self.new }
        ensures copied { table_of self.new ≡ copy_of table.now }
    {
        self.entries.clear();
        fill(&mut self.entries, table, own);
    }
}

// Appends the entries of a table's list to none.
fn fill(entries: &mut ArrayVec<Entry, ENTRIES>, table: &Table, own: Addr7)
    requires empty { entries.old.items ≡ [] }
    requires stands { IsSome (entry_in table.now.given own) }
    ensures items { entries.new.items ≡ entries_of table.now own }
    ensures own_addresses { HaveOwnAddresses entries.new.items }
    ensures long { length entries.new.items ≡ count_by is_some table.now.given + count_by is_some table.now.legacy }
    ensures few { length entries.new.items ≤ WRITTEN }
    ensures read { AreTellable table.now own → (words : ListOf WordValue) → Carry (list_bytes entries.new.items) words → ReadAs words entries.new.items }
    ensures copied { table_of entries.new.items ≡ copy_of table.now }
{
    if let Some(row) = table.row_of(own) {
        entries.push(device_entry(&row));
    }
    push_devices(entries, table, table.given_addresses().without(own));
    push_legacies(entries, table.legacies());
}

// Appends the entries of the devices that were given these addresses, upwards.
fn push_devices(entries: &mut ArrayVec<Entry, ENTRIES>, table: &Table, addresses: Addresses)
    requires { array_vec_len entries.old + length (upwards device_at 0 (given_in addresses.0 table.now.given)) ≤ ENTRIES }
    ensures { entries.new.items ≡ entries.old.items ++ upwards device_at 0 (given_in addresses.0 table.now.given) }
{
    let mut left = addresses;
    while let Some(address) = left.lowest() {
        left = left.without(address);
        if let Some(row) = table.row_of(address) {
            entries.push(device_entry(&row));
        }
    }
}

// Appends the entries of the legacy targets, if there are any, by address upwards.
fn push_legacies(entries: &mut ArrayVec<Entry, ENTRIES>, legacies: &Legacies)
    requires { array_vec_len entries.old + LEGACIES ≤ ENTRIES }
    ensures items { entries.new.items ≡ entries.old.items ++ upwards legacy_at 0 legacies.now.legacy }
    ensures few { count_by is_some legacies.now.legacy ≤ LEGACIES }
    ensures static_alone { (a : ℕ) → IfSome (slice_index_or legacies.now.legacy a None) (λ _. IsTrue (is_static a)) }
    ensures all_places { length legacies.now.legacy ≡ ADDRESSES }
{
    let lvrs = legacies.by_address();
    if legacies.is_empty() {
        return;
    }
    push_targets(entries, &lvrs);
}

// Appends the entries of legacy targets, each at the place of its address.
fn push_targets(entries: &mut ArrayVec<Entry, ENTRIES>, lvrs: &[Option<Lvr>])
    requires room { array_vec_len entries.old + length (upwards legacy_at 0 lvrs.now) ≤ ENTRIES }
    requires places { length lvrs.now ≡ ADDRESSES }
    ensures { entries.new.items ≡ entries.old.items ++ upwards legacy_at 0 lvrs.now }
{
    for (place, lvr) in lvrs.iter().enumerate() {
        if let Some(lvr) = lvr {
            entries.push(Entry::Legacy {
                address: Addr7::new(place as u8).unwrap(),
                lvr: *lvr,
            });
        }
    }
}

// The entry of a row.
fn device_entry(row: &Row) -> Entry
    ensures { result ≡ device_at row.now.address (entry_of_row row.now) }
{
    Entry::Device {
        address: row.address,
        dcr: row.dcr,
        bcr: row.bcr,
        fixed: row.fixed,
    }
}
