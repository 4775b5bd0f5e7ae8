ghost use Rattle.std.specs.Prelude.{◌≡◌, ◌<◌, true, false, not, slice_index_or, slice_set};
ghost use Rattle.i3c_base.specs.declared.range.TheConstants.{ADDRESSES};
ghost use Rattle.i3c_deftgts.specs.Entries.{address_of};

use arrayvec::ArrayVec;
use i3c_base::{ADDRESSES, Addr7, Bcr, Dcr, Lvr};
use std::marker::Model;

/// The most entries that a list can have, since no two have one address.
pub const ENTRIES: usize = 128;

/// An entry of a list: what it tells of one device or legacy target (I3C Basic 5.1.9.3.7).
#[derive(Clone, Copy, Debug, PartialEq, Eq)]
pub enum Entry {
    /// A device with a dynamic address, and with a static one or without.
    Device {
        address: Addr7,
        dcr: Dcr,
        bcr: Bcr,
        fixed: Option<Addr7>,
    },
    /// A legacy target, with its static address. Its third word says nothing.
    Legacy {
        address: Addr7,
        lvr: Lvr,
    },
}

/// A legacy target at `00`, with which bounded lists of entries fill their unused places.
impl Default for Entry {
    fn default() -> Entry {
        Entry::Legacy {
            address: Addr7::default(),
            lvr: Lvr::default(),
        }
    }
}

impl Entry {
    /// The address that this entry is of: the dynamic one of a device, the static one of a legacy target.
    pub fn address(&self) -> Addr7
        ensures same { result ≡ address_of self.now }
    {
        match self {
            Entry::Device { address, .. } | Entry::Legacy { address, .. } => *address,
        }
    }
}

/// A list that was read: its entries, in the order of its words.
///
/// Clauses see the entries.
#[derive(Drop)]
pub struct List {
    pub(crate) entries: ArrayVec<Entry, ENTRIES>,
}

impl Model for List {
    ghost use Rattle.std.specs.Prelude.{List as ListOf};
    ghost use Rattle.i3c_deftgts.specs.declared.entries.Entry.{Entry as EntryValue};

    ghost Value = { ListOf EntryValue };

    ghost use Rattle.i3c_deftgts.specs.Entries.{HaveOwnAddresses};

    ghost view = { λ l. l.entries.items };

    ghost invariant = { λ l. HaveOwnAddresses l.entries.items };
}

impl List {
    ghost use Rattle.std.specs.Prelude.{◌≡◌, ◌↔◌, [], IsTrue, length};
    ghost use Rattle.i3c_deftgts.specs.Entries.{HaveOwnAddresses};

    /// A list without entries.
    pub fn new() -> List
        ensures { result ≡ [] }
    {
        List {
            entries: ArrayVec::new(),
        }
    }

    /// The entries, in the order of the words.
    pub fn entries(&self) -> &[Entry]
        ensures same { result.now ≡ self.now }
        ensures own_addresses { HaveOwnAddresses self.now }
    {
        self.entries.as_slice()
    }

    /// How many entries there are.
    pub fn len(&self) -> usize
        ensures { result ≡ length self.now }
    {
        self.entries.len()
    }

    /// Whether there is no entry.
    pub fn is_empty(&self) -> bool
        ensures { IsTrue result ↔ (length self.now ≡ 0) }
    {
        self.entries.is_empty()
    }
}

/// Entries with addresses of their own, as they are gathered, and a mark at each of these addresses.
#[derive(Drop)]
pub(crate) struct Gathered {
    entries: ArrayVec<Entry, ENTRIES>,
    marks: [bool; ADDRESSES],
}

impl Model for Gathered {
    ghost use Rattle.std.specs.Prelude.{List as ListOf};
    ghost use Rattle.i3c_deftgts.specs.declared.entries.Entry.{Entry as EntryValue};

    ghost Value = { ListOf EntryValue };

    ghost use Rattle.i3c_deftgts.specs.Entries.{AreMarked};

    ghost view = { λ g. g.entries.items };

    ghost invariant = { λ g. AreMarked g.marks g.entries.items };
}

impl Gathered {
    ghost use Rattle.std.specs.Prelude.{◌≡◌, [], ◌∷◌, ◌++◌, true, false, MatchOption};
    ghost use Rattle.i3c_deftgts.specs.Entries.{address_of, is_among};

    /// No entry.
    pub(crate) fn new() -> Gathered
        ensures { result ≡ [] }
    {
        Gathered {
            entries: ArrayVec::new(),
            marks: [false; ADDRESSES],
        }
    }

    /// Takes an entry in, or gives it back where one has its address.
    pub(crate) fn insert(&mut self, entry: Entry) -> Option<Entry>
        ensures { MatchOption result
            ((is_among (address_of entry) self.old ≡ false) × (self.new ≡ self.old ++ entry ∷ []))
            (λ _. (is_among (address_of entry) self.old ≡ true) × (self.new ≡ self.old)) }
    {
        if !mark(&mut self.marks, entry.address()) {
            return Some(entry);
        }
        self.entries.push(entry);
        None
    }

    /// The list of the gathered entries.
    pub(crate) fn into_list(self) -> List
        ensures { result ≡ self }
    {
        List {
            entries: self.entries,
        }
    }
}

// Marks an address, and says whether it had no mark.
fn mark(marks: &mut [bool; ADDRESSES], address: Addr7) -> bool
    ensures fresh { result ≡ not (slice_index_or marks.old address false) }
    ensures marked { marks.new ≡ slice_set marks.old address true }
    ensures in_range { address < ADDRESSES }
{
    let place = address.get() as usize;
    let is_fresh = !marks[place];
    marks[place] = true;
    is_fresh
}
