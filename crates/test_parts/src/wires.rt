ghost use Rattle.std.specs.Prelude.{◌<◌, ◌≤◌, ◌^◌, IsTrue};
ghost use Rattle.std.specs.List.{All};

use crate::faults::Fault;
use crate::setting::Setting;
use crate::told::{Answer, told, told_hex, told_slots};
use crate::words::{BITS, Words};
use arrayvec::ArrayVec;
use i3c_base::{SLOTS, Slot};
use i3c_wires::{Lines, contest};
use std::alloc::Global;

/// The calls on the lines and their contest.
pub(crate) fn call(setting: &mut Setting, call: &str, words: &mut Words<'_>) -> Answer {
    let alloc = setting.alloc;
    match call {
        "clock" => told(alloc, &Lines::clock(&levels(alloc, words)?)),
        "contender" => entered(setting, words),
        "contest" => held(setting, u32::from(words.bit()?)),
        _ => Err(Fault::Unknown),
    }
}

/// Enters a contender, if there is a place.
fn entered(setting: &mut Setting, words: &mut Words<'_>) -> Answer {
    let slot = words.slot()?;
    let key = words.number()?;
    if setting.contenders.is_full() {
        return Err(Fault::Unknown);
    }
    setting.contenders.push((slot, key));
    told(setting.alloc, &())
}

/// All words that are left, as levels that are driven.
fn levels(alloc: Global, words: &mut Words<'_>) -> Result<Vec<bool>, Fault> {
    let mut levels = Vec::new(alloc);
    for _ in 0..u64::MAX {
        if words.is_done() {
            break;
        }
        levels.push(words.named(&BITS)?)?;
    }
    Ok(levels)
}

/// The contest of the contenders with the cuts, on `width` bits: the number that was read, and the slots that won it.
fn held(setting: &Setting, width: u32) -> Answer {
    let alloc = setting.alloc;
    if width == 0 || width > 64 || !fit(&setting.contenders, width) {
        return Err(Fault::Unknown);
    }
    let read = contest(&setting.contenders, width, &setting.cuts);
    let bits = told_hex(alloc, &read.bits)?;
    let winners = told_slots(alloc, &read.winners)?;
    format!(in alloc; "({bits}, {winners})").or(Err(Fault::Memory))
}

/// Whether each contender's key has `width` bits at most.
fn fit(contenders: &ArrayVec<(Slot, u64), SLOTS>, width: u32) -> bool
    requires { width ≤ 64 }
    ensures { IsTrue result → All (λ e. e.1 < 2 ^ width) contenders.now.items }
{
    let most = largest(width);
    contenders.iter().all(|contender| contender.1 <= most)
}

/// The largest number of `width` bits.
fn largest(width: u32) -> u64
    requires { width ≤ 64 }
    ensures { result < 2 ^ width }
{
    if width == 64 {
        u64::MAX
    } else {
        (1 << width) - 1
    }
}
