ghost use Rattle.std.specs.Prelude.{◌≡◌, ◌<◌, ◌≤◌, ◌-◌, ◌^◌, ℕ, suc, true, false, option_copied};
ghost use Rattle.std.specs.List.{All};
ghost use Rattle.i3c_base.specs.Cutting.{cut_of};
ghost use Rattle.i3c_wires.specs.Contest.{cuts_in, is_one};
ghost use Rattle.i3c_wires.specs.Masks.{is_at};
ghost use Rattle.i3c_wires.specs.Turns.{IsQuiet};

use i3c_base::{Cuts, Slot};

/// The bit of a contest of this width at which a slot is cut, if there is one.
fn cut_bit(cuts: &Cuts, slot: Slot, width: u32) -> u64
    requires { width ≤ 64 }
    ensures uncut { (left : ℕ) → left < width → is_one left result ≡ false → is_at (width - suc left) (cut_of cuts.now slot) ≡ false }
    ensures within { (left : ℕ) → is_one left result ≡ true → left < width }
{
    let Some(bit) = cuts.at(slot) else {
        return 0;
    };
    let bit = u32::from(bit);
    if bit < width {
        1 << (width - 1 - bit)
    } else {
        0
    }
}

/// The bits at which a key differs from the first one, where the contest may turn, by the number of bits that follow.
fn differing(keys: &[(Slot, u64)], first: u64, width: u32) -> u64
    requires fit { All (λ e. e.1 < 2 ^ width) keys.now }
    requires first_fits { first < 2 ^ width }
    ensures alike { (left : ℕ) → is_one left result ≡ false → All (λ e. is_one left e.1 ≡ is_one left first) keys.now }
    ensures within { (left : ℕ) → is_one left result ≡ true → left < width }
{
    let mut turns = 0;
    for contender in keys.iter() {
        turns |= contender.1 ^ first;
    }
    turns
}

/// The bits at which a contender is cut, where the contest may turn, by the number of bits that follow.
fn cut_bits(keys: &[(Slot, u64)], width: u32, cuts: &Cuts) -> u64
    requires few_bits { width ≤ 64 }
    ensures uncut { (left : ℕ) → left < width → is_one left result ≡ false → All (λ e. is_at (width - suc left) (cut_of cuts.now e.0) ≡ false) keys.now }
    ensures within { (left : ℕ) → is_one left result ≡ true → left < width }
{
    if cuts.is_empty() {
        return 0;
    }
    let mut turns = 0;
    for contender in keys.iter() {
        turns |= cut_bit(cuts, contender.0, width);
    }
    turns
}

/// The bits at which a contest may turn, by the number of bits that follow: where a key differs from the first one, or
/// a contender is cut.
pub(crate) fn turns_of(keys: &[(Slot, u64)], first: u64, width: u32, cuts: Option<&Cuts>) -> u64
    requires few_bits { width ≤ 64 }
    requires fit { All (λ e. e.1 < 2 ^ width) keys.now }
    requires first_fits { first < 2 ^ width }
    ensures quiet { (left : ℕ) → left < width → is_one left result ≡ false → All (IsQuiet (cuts_in (option_copied cuts.entry)) width left first) keys.now }
    ensures within { (left : ℕ) → is_one left result ≡ true → left < width }
{
    let differing = differing(keys, first, width);
    match cuts {
        Some(cuts) => differing | cut_bits(keys, width, cuts),
        None => differing,
    }
}
