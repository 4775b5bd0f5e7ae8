ghost use Rattle.std.specs.Prelude.{◌≡◌, ◌+◌, ◌*◌, ◌≤◌, ◌++◌, List as ListOf, ℕ, IsSome, count_by, is_some, length};
ghost use Rattle.arrayvec.specs.ArrayVec.{array_vec_len};
ghost use Rattle.i3c_base.specs.State.{entry_in};
ghost use Rattle.i3c_deftgts.specs.Copies.{copy_of, table_of};
ghost use Rattle.i3c_deftgts.specs.Entries.{entries_of};
ghost use Rattle.i3c_deftgts.specs.Layout.{bytes_of, list_bytes, static_byte, Carry};
ghost use Rattle.i3c_deftgts.specs.Reading.{AreTellable, ReadAs};

use crate::entries::{Entry, List};
use crate::listing::WRITTEN;
use arrayvec::ArrayVec;
use i3c_base::Addr7;
use i3c_table::Table;
use i3c_word::{Word, write_word};

/// The most words that a table's list has: the count, and four words for each entry.
pub const WORDS: usize = 1 + 4 * WRITTEN;

/// The words of a table's list (DEFTGTS, I3C Basic 5.1.9.3.7): how many entries follow the own one, and then the
/// entries. The own one is first. Then come those of the other rows by address upwards, also of devices that are gone,
/// and then those of the legacy targets by static address upwards. Takes no memory.
pub fn write_list(table: &Table, own: Addr7) -> ArrayVec<Word, WORDS>
    requires { IsSome (entry_in table.now.given own) }
    ensures words { Carry (list_bytes (entries_of table.now own)) result.items }
    ensures long { length result.items ≡ 1 + 4 * (count_by is_some table.now.given + count_by is_some table.now.legacy) }

    // the words are read as these entries, which give the table, except for the identities that addresses are kept for
    ensures read { AreTellable table.now own → ReadAs result.items (entries_of table.now own) }
    ensures copied { table_of (entries_of table.now own) ≡ copy_of table.now }
{
    let mut list = List::new();
    list.rewrite(table, own);
    let mut words = ArrayVec::new();
    words.push(list.count_word());
    for entry in list.entries() {
        push_entry(&mut words, entry);
    }
    words
}

// Appends the four words of an entry.
fn push_entry(words: &mut ArrayVec<Word, WORDS>, entry: &Entry)
    requires { array_vec_len words.old + 4 ≤ WORDS }
    ensures { (bytes : ListOf ℕ) → Carry bytes words.old.items → Carry (bytes ++ bytes_of entry.now) words.new.items }
{
    for word in entry.words() {
        words.push(word);
    }
}

impl List {
    ghost use Rattle.std.specs.Prelude.{◌≡◌, ◌-◌, length};
    ghost use Rattle.i3c_word.specs.Parity.{HasOddParity};

    /// The word before those of the entries: how many follow the first one.
    pub fn count_word(&self) -> Word
        ensures count { result.byte ≡ length self.now - 1 }
        ensures odd { HasOddParity result }
    {
        write_word(self.entries.len().saturating_sub(1) as u8)
    }
}

impl Entry {
    ghost use Rattle.i3c_deftgts.specs.Layout.{bytes_of, Carry};

    /// Its four words.
    pub fn words(&self) -> [Word; 4]
        ensures { Carry (bytes_of self.now) result }
    {
        let [address, code, bcr, fixed] = bytes_of(self);
        [
            write_word(address),
            write_word(code),
            write_word(bcr),
            write_word(fixed),
        ]
    }
}

// The four bytes of an entry.
fn bytes_of(entry: &Entry) -> [u8; 4]
    ensures { result ≡ bytes_of entry.now }
{
    match entry {
        Entry::Device {
            address,
            dcr,
            bcr,
            fixed,
        } => [2 * address.get(), dcr.0, bcr.0, static_byte(*fixed)],
        Entry::Legacy { address, lvr } => [0, lvr.0, 0, 2 * address.get()],
    }
}

// The byte of a static address, if there is one.
fn static_byte(fixed: Option<Addr7>) -> u8
    ensures { result ≡ static_byte fixed }
{
    match fixed {
        Some(address) => 2 * address.get(),
        None => 0,
    }
}
