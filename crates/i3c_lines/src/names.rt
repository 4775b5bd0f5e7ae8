ghost use Rattle.std.specs.Prelude.{◌≡◌, ◌<◌, ◌≤◌, ◌-◌, ◌↔◌, ◌++◌, All, IsTrue, IsSome, IfSome, drop, length, replicate, slice_index_or, take};
ghost use Rattle.std.specs.Prelude.{length as place_count};
ghost use Rattle.i3c_lines.specs.Tokens.{IsNameLetter};
ghost use Rattle.i3c_lines.specs.declared.names.TheConstants.{NAME_LENGTH};

use crate::tokens::behind_space;
use i3c_base::{ADDRESSES, Addr7, SLOTS, Slot};
use indexmap::IndexMap;
use std::alloc::{AllocError, Global};
use std::hash::{Hash, Hasher};

/// The longest name.
const NAME_LENGTH: usize = 16;

/// What stands for a letter in the table below.
const LETTER: u8 = 1;

/// Which bytes are letters of names: `a` to `z` and `0` to `9`.
static LETTERS: [u8; 256] = [
    0, 0, 0, 0, 0, 0, 0, 0, 0, 0, 0, 0, 0, 0, 0, 0, 0, 0, 0, 0, 0, 0, 0, 0, 0, 0, 0, 0, 0, 0, 0, 0,
    0, 0, 0, 0, 0, 0, 0, 0, 0, 0, 0, 0, 0, 0, 0, 0, 1, 1, 1, 1, 1, 1, 1, 1, 1, 1, 0, 0, 0, 0, 0, 0,
    0, 0, 0, 0, 0, 0, 0, 0, 0, 0, 0, 0, 0, 0, 0, 0, 0, 0, 0, 0, 0, 0, 0, 0, 0, 0, 0, 0, 0, 0, 0, 0,
    0, 1, 1, 1, 1, 1, 1, 1, 1, 1, 1, 1, 1, 1, 1, 1, 1, 1, 1, 1, 1, 1, 1, 1, 1, 1, 1, 0, 0, 0, 0, 0,
    0, 0, 0, 0, 0, 0, 0, 0, 0, 0, 0, 0, 0, 0, 0, 0, 0, 0, 0, 0, 0, 0, 0, 0, 0, 0, 0, 0, 0, 0, 0, 0,
    0, 0, 0, 0, 0, 0, 0, 0, 0, 0, 0, 0, 0, 0, 0, 0, 0, 0, 0, 0, 0, 0, 0, 0, 0, 0, 0, 0, 0, 0, 0, 0,
    0, 0, 0, 0, 0, 0, 0, 0, 0, 0, 0, 0, 0, 0, 0, 0, 0, 0, 0, 0, 0, 0, 0, 0, 0, 0, 0, 0, 0, 0, 0, 0,
    0, 0, 0, 0, 0, 0, 0, 0, 0, 0, 0, 0, 0, 0, 0, 0, 0, 0, 0, 0, 0, 0, 0, 0, 0, 0, 0, 0, 0, 0, 0, 0,
];

/// The name of a device or a legacy target: 1 to 16 of `a` to `z` and `0` to `9`.
#[derive(Clone, Copy)]
pub struct Name {
    // its letters, and then zeros
    bytes: [u8; NAME_LENGTH],
    length: u8,
    ghost short: { length ≤ NAME_LENGTH },
    ghost padded: { drop length bytes ≡ replicate (NAME_LENGTH - length) 0 },
    ghost whole: { place_count bytes ≡ NAME_LENGTH },
}

/// Whether a byte is a letter of names.
fn is_letter(byte: u8) -> bool
    ensures { IsTrue result ↔ IsNameLetter byte }
{
    LETTERS[usize::from(byte)] == LETTER
}

impl Name {
    ghost use Rattle.std.specs.Prelude.{ℕ, List, Option, IsNone, option_copied};
    ghost use Rattle.i3c_lines.specs.Naming.{letters};
    ghost use Rattle.i3c_lines.specs.Parsing.{joined};
    ghost use Rattle.i3c_lines.specs.Tokens.{IsName};

    /// The name that a token is, if it has a name's form.
    pub fn parse(token: &[u8]) -> Option<Name>
        ensures form { IsSome result ↔ IsName NAME_LENGTH token.now }
        ensures same { IfSome result (λ name. letters name ≡ token.now) }
    {
        let name = Name::leading(token);
        if token.is_empty() || usize::from(name.length) != token.len() {
            return None;
        }
        Some(name)
    }

    /// The name that is a line's first token, and the line behind its space if there is one.
    #[inline(always)]
    pub(crate) fn split_from(line: &[u8]) -> Option<(Name, Option<&[u8]>)>
        ensures none { IsNone result → (token : List ℕ) (rest : Option (List ℕ)) → IsName NAME_LENGTH token → line.now ≡ joined token rest → ⊥ }
        ensures name { IfSome result (λ parts. IsName NAME_LENGTH (letters parts.0)) }
        ensures split { IfSome result (λ parts. line.now ≡ joined (letters parts.0) (option_copied parts.1)) }
    {
        let name = Name::leading(line);
        if name.length == 0 {
            return None;
        }
        let rest = behind_space(&line[usize::from(name.length)..])?;
        Some((name, rest))
    }

    /// The letters that a line begins with, no more than a name may have.
    fn leading(line: &[u8]) -> Name
        ensures within { result.length ≤ length line.now }
        ensures first { letters result ≡ take result.length line.now }
        ensures letters { All IsNameLetter (letters result) }
        ensures longest { result.length < NAME_LENGTH → result.length < length line.now → IsNameLetter (slice_index_or line.now result.length 0) → ⊥ }
    {
        let most = line.len().min(NAME_LENGTH);
        let mut bytes = [0; NAME_LENGTH];
        for place in 0..most {
            let byte = line[place];
            if !is_letter(byte) {
                let length = place as u8;
                return Name { bytes, length };
            }
            bytes[place] = byte;
        }
        let length = most as u8;
        Name { bytes, length }
    }

    /// Its letters.
    pub fn as_bytes(&self) -> &[u8]
        ensures { result.now ≡ letters self.now }
    {
        &self.bytes[..usize::from(self.length)]
    }

    /// Whether both are the same name.
    #[inline(always)]
    pub fn is_same(&self, other: &Name) -> bool
        ensures { IsTrue result ↔ (self.now ≡ other.now) }
    {
        (self.length == other.length) & have_same_bytes(&self.bytes, &other.bytes)
    }
}

/// Whether both are the same bytes. All are looked at, which is faster than to stop at the first that differs.
#[inline(always)]
fn have_same_bytes(bytes: &[u8; NAME_LENGTH], others: &[u8; NAME_LENGTH]) -> bool
    ensures { IsTrue result ↔ (bytes.now ≡ others.now) }
{
    let mut same = true;
    for index in 0..NAME_LENGTH {
        same = same & (bytes[index] == others[index]);
    }
    same
}

impl Default for Name {
    ghost use Rattle.std.specs.Prelude.{◌≡◌, []};
    ghost use Rattle.i3c_lines.specs.Naming.{letters};

    ghost is_default = { λ name. letters name ≡ [] };

    /// What fills the places of a list that hold no name: no letters.
    fn default() -> Name {
        Name {
            bytes: [0; NAME_LENGTH],
            length: 0,
        }
    }
}

impl PartialEq for Name {
    ghost use Rattle.std.specs.Cmp.{on_per, partial_equiv_from_equiv};
    ghost use Rattle.std.specs.Cmp.Lexicographic.{nat_list_eq_equiv};
    ghost use Rattle.i3c_lines.specs.Naming.{is_same, letters};

    ghost eq = { is_same };

    ghost laws = { on_per letters (partial_equiv_from_equiv nat_list_eq_equiv) };

    fn eq(&self, other: &Self) -> bool {
        self.is_same(other)
    }
}

impl Eq for Name {
    ghost use Rattle.std.specs.Cmp.{on_equiv};
    ghost use Rattle.std.specs.Cmp.Lexicographic.{nat_list_eq_equiv};
    ghost use Rattle.i3c_lines.specs.Naming.{letters};

    ghost laws = { on_equiv letters nat_list_eq_equiv };
}

impl Hash for Name {
    ghost use Rattle.std.specs.Prelude.{[], ◌∷◌};
    ghost use Rattle.std.specs.Hash.{on_Alike, same_Alike};
    ghost use Rattle.std.specs.Cmp.Lexicographic.{bytes_decides};
    ghost use Rattle.i3c_lines.specs.Naming.{letters, padded};

    ghost hash_input = { λ name. padded (letters name) ∷ [] };

    ghost respects_eq = { (on_Alike letters (same_Alike (λ bytes. padded bytes ∷ []) bytes_decides)).fed };

    // a length that is known takes fewer steps than the letters alone
    fn hash<H: Hasher>(&self, state: &mut H) {
        state.write(&self.bytes);
    }
}

/// What a name stands for.
#[derive(Clone, Copy, PartialEq, Eq)]
pub enum Place {
    /// The device of a slot.
    Slot(Slot),
    /// The legacy target at a static address.
    Legacy(Addr7),
    /// A device that is gone, whose slot another device has taken since.
    Gone,
}

/// The names that were given, in the order in which they first were, and what each stands for. A slot and a static
/// address know the name that was last given to them.
#[derive(Drop)]
pub struct Names {
    places: IndexMap<Name, Place>,
    slots: [Option<Name>; SLOTS],
    legacies: [Option<Name>; ADDRESSES],
}

impl Names {
    ghost use Rattle.std.specs.Prelude.{MatchOption, None, OnOk, Some, false, option_copied, slice_index_or, slice_set};
    ghost use Rattle.i3c_lines.specs.Naming.{Empties, GivesAlone, GivesSlot, is_same, legacy_names, place_named, slot_names};
    ghost use Rattle.i3c_lines.specs.declared.names.Name.{Name};

    /// No names.
    pub fn new(alloc: Global) -> Names
        ensures places { (name : Name) → place_named result name ≡ None }
        ensures slots { slot_names result ≡ replicate SLOTS None }
        ensures legacies { legacy_names result ≡ replicate ADDRESSES None }
    {
        Names {
            places: IndexMap::new(alloc),
            slots: [None; SLOTS],
            legacies: [None; ADDRESSES],
        }
    }

    /// What a name stands for, if it was given.
    pub fn place_of(&self, name: &Name) -> Option<Place>
        ensures { result ≡ place_named self.now name.now }
    {
        self.places.get(name).copied()
    }

    /// The name that was last given to a slot.
    pub fn in_slot(&self, slot: Slot) -> Option<&Name>
        ensures { option_copied result ≡ slice_index_or (slot_names self.now) slot None }
    {
        self.slots[slot.index()].as_ref()
    }

    /// The name of the legacy target at a static address.
    pub fn at_address(&self, address: Addr7) -> Option<&Name>
        ensures { option_copied result ≡ slice_index_or (legacy_names self.now) address None }
    {
        self.legacies[address.get() as usize].as_ref()
    }

    /// Gives a name to the legacy target at a static address.
    pub fn give_address(&mut self, name: &Name, address: Addr7) -> Result<(), AllocError>
        ensures given { OnOk result (GivesAlone self.old self.new name.now (Place.Legacy address)) }
        ensures known { (other : Name) → IsSome (place_named self.old other) → IsSome (place_named self.new other) }
        ensures told { OnOk result (legacy_names self.new ≡ slice_set (legacy_names self.old) address (Some name.now)) }
        ensures slots { slot_names self.new ≡ slot_names self.old }
    {
        let index = address.get() as usize;
        let told = Some(*name);
        let place = Place::Legacy(address);
        self.places.insert(*name, place)?;
        self.legacies[index] = told;
        Ok(())
    }

    /// Gives a name to a slot. The name that the slot had before stays known, as one that is gone, unless it was given to
    /// another place since.
    pub fn give_slot(&mut self, name: &Name, slot: Slot) -> Result<(), AllocError>
        ensures given { OnOk result (GivesSlot self.old self.new name.now slot) }
        ensures known { (other : Name) → IsSome (place_named self.old other) → IsSome (place_named self.new other) }
        ensures told { OnOk result (slot_names self.new ≡ slice_set (slot_names self.old) slot (Some name.now)) }
        ensures legacies { legacy_names self.new ≡ legacy_names self.old }
    {
        let index = slot.index();
        let told = Some(*name);
        let place = Place::Slot(slot);
        if !self.is_in(index, name) {
            self.leave_slot(index, &place)?;
        }
        self.places.insert(*name, place)?;
        self.slots[index] = told;
        Ok(())
    }

    /// Whether the slot of this number was last given this name.
    fn is_in(&self, number: usize, name: &Name) -> bool
        requires { number < SLOTS }
        ensures { MatchOption (slice_index_or (slot_names self.now) number None) (result ≡ false) (λ had. result ≡ is_same had name.now) }
    {
        match &self.slots[number] {
            Some(had) => had == name,
            None => false,
        }
    }

    /// The name that this slot was last given has no place from now on, unless it has another one.
    fn leave_slot(&mut self, number: usize, place: &Place) -> Result<(), AllocError>
        requires { number < SLOTS }
        ensures emptied { OnOk result (Empties self.old self.new number place.now) }
        ensures known { (other : Name) → IsSome (place_named self.old other) → IsSome (place_named self.new other) }
        ensures slots { slot_names self.new ≡ slot_names self.old }
        ensures legacies { legacy_names self.new ≡ legacy_names self.old }
    {
        let Some(name) = self.slots[number] else {
            return Ok(());
        };
        match self.place_of(&name) {
            Some(had) if had == *place => {
                self.places.insert(name, Place::Gone)?;
                Ok(())
            }
            _ => Ok(()),
        }
    }
}
