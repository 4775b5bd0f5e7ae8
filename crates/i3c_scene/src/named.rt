ghost use Rattle.std.specs.Prelude.{◌≡◌, ◌++◌, ◌∷◌, [], map, IsTrue, OnOk, true, false};
ghost use Rattle.i3c_scene.specs.Scenes.{given, left, left_slot, name_at, name_in, place_in, put, stands_at, stands_in};

use crate::place_byte::PlaceByte;
use i3c_base::{Addr7, Slot};
use i3c_lines::{Name, Place};
use std::alloc::AllocError;

/// A name with what it stands for.
#[derive(Clone, Copy)]
pub struct Named {
    /// The name.
    pub name: Name,
    /// What it stands for.
    pub place: PlaceByte,
}

impl Named {
    ghost use Rattle.std.specs.Prelude.{◌≡◌};

    /// A name that stands for this place.
    pub fn new(name: Name, place: Place) -> Named
        ensures { result ≡ record { name = name; place = place } }
    {
        Named {
            name,
            place: PlaceByte::of(place),
        }
    }
}

/// What a name stands for, if it was given.
pub fn place_in(names: &[Named], name: &Name) -> Option<Place>
    ensures { result ≡ place_in names.now name.now }
{
    for named in names {
        if named.name == *name {
            return Some(named.place.get());
        }
    }
    None
}

/// A slot is given a name; the name that had the slot is gone.
pub(crate) fn give(names: &mut Vec<Named>, name: &Name, slot: Slot) -> Result<(), AllocError>
    ensures { OnOk result (names.new.items ≡ given name.now slot names.old.items) }
{
    leave(names.as_mut_slice(), slot);
    put(names, name, Place::Slot(slot))
}

/// The name at a slot is gone from there.
fn leave(names: &mut [Named], slot: Slot)
    ensures { names.new ≡ map (left slot) names.old }
{
    let Some((first, rest)) = names.split_first_mut() else {
        return;
    };
    first.place = PlaceByte::of(left_slot(slot, first.place.get()));
    leave(rest, slot);
}

/// What a name stands for whose device leaves the slot, if it is there.
fn left_slot(slot: Slot, place: Place) -> Place
    ensures { result ≡ left_slot slot place }
{
    let Place::Slot(at) = place else {
        return place;
    };
    if at == slot { Place::Gone } else { place }
}

/// A name stands for a place from now on.
fn put(names: &mut Vec<Named>, name: &Name, place: Place) -> Result<(), AllocError>
    ensures { OnOk result (names.new.items ≡ put name.now place names.old.items) }
{
    if change(names.as_mut_slice(), name, &place) {
        return Ok(());
    }
    add(names, name, place)
}

/// A name is given that wasn't before.
fn add(names: &mut Vec<Named>, name: &Name, place: Place) -> Result<(), AllocError>
    ensures { OnOk result (names.new.items ≡ names.old.items ++ record { name = name.now; place = place } ∷ []) }
{
    names.push(Named::new(*name, place))?;
    Ok(())
}

/// A name that was given stands for a place from now on. Answers whether it was given.
fn change(names: &mut [Named], name: &Name, place: &Place) -> bool
    ensures given { result ≡ true → names.new ≡ put name.now place.now names.old }
    ensures unknown { result ≡ false → (names.new ≡ names.old) × (put name.now place.now names.old ≡ names.old ++ record { name = name.now; place = place.now } ∷ []) }
{
    let Some((first, rest)) = names.split_first_mut() else {
        return false;
    };
    if first.name == *name {
        first.place = PlaceByte::of(*place);
        return true;
    }
    change(rest, name, place)
}

/// The name that stands for a slot: that which was last given to it.
pub(crate) fn standing_in(names: &[Named], slot: Slot) -> Option<Name>
    ensures { result ≡ name_in names.now slot }
{
    let (first, rest) = names.split_first()?;
    if stands_in(first.place.get(), slot) {
        return Some(first.name);
    }
    standing_in(rest, slot)
}

/// The name that stands for a legacy target's address.
pub(crate) fn standing_at(names: &[Named], address: Addr7) -> Option<Name>
    ensures { result ≡ name_at names.now address }
{
    let (first, rest) = names.split_first()?;
    if stands_at(first.place.get(), address) {
        return Some(first.name);
    }
    standing_at(rest, address)
}

/// Whether a place is the legacy target at this address.
fn stands_at(place: Place, address: Addr7) -> bool
    ensures { result ≡ stands_at place address }
{
    match place {
        Place::Legacy(at) => at == address,
        Place::Slot(_) | Place::Gone => false,
    }
}

/// Whether a place is this slot.
fn stands_in(place: Place, slot: Slot) -> bool
    ensures { result ≡ stands_in place slot }
{
    match place {
        Place::Slot(at) => at == slot,
        Place::Legacy(_) | Place::Gone => false,
    }
}

/// Whether these are the same names, for the same places.
pub(crate) fn are_same(names: &[Named], others: &[Named]) -> bool
    ensures { IsTrue result → names.now ≡ others.now }
{
    if names.len() != others.len() {
        return false;
    }
    for index in 0..names.len() {
        if !is_same(&names[index], &others[index]) {
            return false;
        }
    }
    true
}

/// Whether this is the same name, for the same place.
fn is_same(one: &Named, other: &Named) -> bool
    ensures { IsTrue result → one.now ≡ other.now }
{
    one.name.is_same(&other.name) && one.place.is_same(other.place)
}
