ghost use Rattle.std.specs.Prelude.{◌≡◌, ◌⊎◌, ◌-◌, ◌/◌, ◌^◌, ◌<◌, ◌≤◌, ℕ, suc, false, true, [], length, option_copied};
ghost use Rattle.std.specs.List.{All};
ghost use Rattle.i3c_base.specs.Cutting.{no_cuts};
ghost use Rattle.i3c_base.specs.declared.range.TheConstants.{SLOTS as SLOT_COUNT};
ghost use Rattle.i3c_wires.specs.Contest.{AllLost, EachBit, LostIsBelow, cuts_in, holders, is_lost, is_one};

use crate::masks::{cut_at, first_places, slots_at, zeros_among};
use crate::outcome::Contest;
use crate::turns::turns_of;
use arrayvec::ArrayVec;
use i3c_base::{Cuts, SLOTS, Slot};

/// The contest of these slots, each with its key of `width` bits (1 to 64). All drive their keys at once, the most
/// significant bit first, and one that drives 1 and reads 0 drives nothing more (I3C Basic 5.1.2.2.1, 5.1.4).
///
/// The cuts count bits from the contest's first one, which is 0: a contender that is cut drives nothing from that bit on. The
/// winners are the contenders that are cut at no bit of the contest and whose whole key was read, which is then the least key
/// of all that aren't cut. Nobody wins if all are cut, or if the others had lost to one that was cut after that. With no
/// contender every bit reads 1.
pub fn contest(keys: &ArrayVec<(Slot, u64), SLOTS>, width: u32, cuts: &Cuts) -> Contest
    requires some_bits { 0 < width }
    requires few_bits { width ≤ 64 }
    requires fit { All (λ e. e.1 < 2 ^ width) keys.now.items }

    // the winners are the slots whose key was read and that aren't lost, that is, cut at the last bit or before; no slot that
    // isn't lost has a lower key
    ensures winners { result.winners.items ≡ holders cuts.now keys.now.items width result.bits }
    ensures least { All (λ e. is_lost cuts.now width e ≡ false → result.bits ≤ e.1) keys.now.items }

    // nobody wins only if all are lost, or one of the lost has a lower key than all that aren't
    ensures none { result.winners.items ≡ [] → AllLost cuts.now keys.now.items width ⊎ LostIsBelow cuts.now keys.now.items width }

    // each bit is the AND of the contenders still in and not cut there
    ensures each_bit { EachBit cuts.now keys.now.items width result.bits }

    // nobody drives: every bit reads 1
    ensures idle { keys.now.items ≡ [] → result.bits ≡ 2 ^ width - 1 }
    ensures in_width { result.bits < 2 ^ width }
{
    contested(keys, width, Some(cuts))
}

/// The contest of these slots where nobody is cut (I3C Basic 5.1.2.2.1, 5.1.4): all win whose key is the least one.
pub fn contest_uncut(keys: &[(Slot, u64)], width: u32) -> Contest
    requires some_bits { 0 < width }
    requires few_bits { width ≤ 64 }
    requires few { length keys.now ≤ SLOT_COUNT }
    requires fit { All (λ e. e.1 < 2 ^ width) keys.now }
    ensures winners { result.winners.items ≡ holders no_cuts keys.now width result.bits }
    ensures least { All (λ e. is_lost no_cuts width e ≡ false → result.bits ≤ e.1) keys.now }
    ensures none { result.winners.items ≡ [] → AllLost no_cuts keys.now width ⊎ LostIsBelow no_cuts keys.now width }
    ensures each_bit { EachBit no_cuts keys.now width result.bits }
    ensures idle { keys.now ≡ [] → result.bits ≡ 2 ^ width - 1 }
    ensures in_width { result.bits < 2 ^ width }
{
    contested(keys, width, None)
}

/// The contest of these slots, with or without cuts.
#[inline(always)]
fn contested(keys: &[(Slot, u64)], width: u32, cuts: Option<&Cuts>) -> Contest
    requires some_bits { 0 < width }
    requires few_bits { width ≤ 64 }
    requires few { length keys.now ≤ SLOT_COUNT }
    requires fit { All (λ e. e.1 < 2 ^ width) keys.now }
    ensures winners { result.winners.items ≡ holders (cuts_in (option_copied cuts.entry)) keys.now width result.bits }
    ensures least { All (λ e. is_lost (cuts_in (option_copied cuts.entry)) width e ≡ false → result.bits ≤ e.1) keys.now }
    ensures none { result.winners.items ≡ [] → AllLost (cuts_in (option_copied cuts.entry)) keys.now width ⊎ LostIsBelow (cuts_in (option_copied cuts.entry)) keys.now width }
    ensures each_bit { EachBit (cuts_in (option_copied cuts.entry)) keys.now width result.bits }
    ensures idle { keys.now ≡ [] → result.bits ≡ 2 ^ width - 1 }
    ensures in_width { result.bits < 2 ^ width }
{
    let Some(first) = keys.first() else {
        return Contest {
            winners: ArrayVec::new(),
            bits: u64::MAX >> (64 - width),
        };
    };
    let mut bits = first.1;
    let mut still = first_places(keys.len());
    let mut turns = turns_of(keys, bits, width, cuts);
    while turns != 0 {
        let left = turns.ilog2();
        still &= !cut_at(keys, cuts, width - 1 - left);
        if still == 0 {
            return unheard(bits, left);
        }
        let low = zeros_among(keys, still, left);
        if low == 0 {
            bits |= 1 << left;
        } else {
            bits &= !(1 << left);
            still = low;
        }
        turns &= !(1 << left);
    }
    let winners = slots_at(keys, still);
    Contest { winners, bits }
}

/// Nobody drives any more: from the bit after which this many follow, each reads 1.
fn unheard(bits: u64, left: u32) -> Contest
    requires { left < 64 }
    ensures nobody { result.winners.items ≡ [] }
    ensures above { result.bits / 2 ^ suc left ≡ bits / 2 ^ suc left }
    ensures ones { (i : ℕ) → i ≤ left → is_one i result.bits ≡ true }
{
    Contest {
        winners: ArrayVec::new(),
        bits: bits | (u64::MAX >> (63 - left)),
    }
}
