ghost use Rattle.std.specs.Prelude.{◌≡◌, ℕ, ◌-◌, ◌^◌, ◌<◌, ◌≤◌, Bool, length, map, option_copied};
ghost use Rattle.std.specs.Int.{bit_not, w64};
ghost use Rattle.std.specs.Int.RustNames.{bit_and};
ghost use Rattle.std.specs.List.{filter};
ghost use Rattle.i3c_base.specs.Cutting.{cut_of};
ghost use Rattle.i3c_base.specs.declared.range.TheConstants.{SLOTS as SLOT_COUNT};
ghost use Rattle.i3c_wires.specs.Contest.{cuts_in, drives_one};
ghost use Rattle.i3c_wires.specs.Masks.{is_at, mask_of};

use arrayvec::ArrayVec;
use i3c_base::{Cuts, SLOTS, Slot};

/// A set of contenders: a bit for each place in the list of keys.
pub(crate) type Mask = u64;

/// The first `count` places.
pub(crate) fn first_places(count: usize) -> Mask
    requires { count ≤ SLOT_COUNT }
    ensures { result ≡ 2 ^ count - 1 }
{
    if count == 0 {
        0
    } else {
        Mask::MAX >> (Mask::BITS as usize - count)
    }
}

/// Those of these places that drive 0 at the bit after which this many follow.
pub(crate) fn zeros_among(keys: &[(Slot, u64)], among: Mask, left: u32) -> Mask
    requires bit { left < 64 }
    requires few { length keys.now ≤ SLOT_COUNT }
    requires places { (p : ℕ × ℕ → Bool) × (among ≡ mask_of p keys.now) }
    ensures { result ≡ bit_and among (bit_not w64 (mask_of (drives_one left) keys.now)) }
{
    let mut low = 0;
    let mut rest = among;
    while rest != 0 {
        let place = rest.trailing_zeros();
        let bit = 1 << place;
        if keys[place as usize].1 >> left & 1 == 0 {
            low |= bit;
        }
        rest -= bit;
    }
    low
}

/// Whether a slot is cut at this bit of a contest.
fn is_cut_at(cuts: &Cuts, slot: Slot, bit: u32) -> bool
    ensures { result ≡ is_at bit (cut_of cuts.now slot) }
{
    match cuts.at(slot) {
        Some(cut) => u32::from(cut) == bit,
        None => false,
    }
}

/// The contenders that are cut at this bit, counted from the first one: none without cuts.
pub(crate) fn cut_at(keys: &[(Slot, u64)], cuts: Option<&Cuts>, bit: u32) -> Mask
    requires few { length keys.now ≤ SLOT_COUNT }
    ensures { result ≡ mask_of (λ e. is_at bit (cut_of (cuts_in (option_copied cuts.entry)) e.0)) keys.now }
{
    match cuts {
        Some(cuts) => cut_among(keys, cuts, bit),
        None => 0,
    }
}

/// The contenders that these cuts cut at this bit, counted from the first one.
fn cut_among(keys: &[(Slot, u64)], cuts: &Cuts, bit: u32) -> Mask
    requires few { length keys.now ≤ SLOT_COUNT }
    ensures { result ≡ mask_of (λ e. is_at bit (cut_of cuts.now e.0)) keys.now }
{
    if cuts.is_empty() {
        return 0;
    }
    let mut places = 0;
    for (place, contender) in keys.iter().enumerate() {
        if is_cut_at(cuts, contender.0, bit) {
            places |= 1 << place;
        }
    }
    places
}

/// The slots at the places of a set, in their order.
pub(crate) fn slots_at(keys: &[(Slot, u64)], places: Mask) -> ArrayVec<Slot, SLOTS>
    requires few { length keys.now ≤ SLOT_COUNT }
    requires places { (p : ℕ × ℕ → Bool) × (places ≡ mask_of p keys.now) }
    ensures { (p : ℕ × ℕ → Bool) → places ≡ mask_of p keys.now → result.items ≡ map (λ e. e.0) (filter p keys.now) }
{
    let mut slots = ArrayVec::new();
    // for the loop's invariant alone
    let mut passed = 0;
    let mut rest = places;
    while rest != 0 {
        let place = rest.trailing_zeros();
        slots.push(keys[place as usize].0);
        passed = place + 1;
        rest -= 1 << place;
    }
    slots
}
