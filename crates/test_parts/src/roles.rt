use crate::events::MOST_BEGUN;
use crate::faults::Fault;
use crate::setting::Setting;
use crate::taps::Told;
use crate::told::{Answer, told, told_hex, told_trace};
use crate::words::Words;
use i3c_handoff::{Active, Offer, give, offer, offer_bits, retire, tell_offer};
use std::alloc::Global;

/// The calls on wishes to join, and on the role.
pub(crate) fn call(setting: &mut Setting, call: &str, words: &mut Words<'_>) -> Answer {
    let alloc = setting.alloc;
    match call {
        "ask-join" => ask_join(setting, words),
        "ask-role" => ask_role(setting, words),
        "pass-role" => pass_role(alloc, words),
        "offer" => told_hex(alloc, &offered(setting, words)?),
        "offer-bits" => told(alloc, &offer_bits(&offered(setting, words)?)),
        "tell-offer" => told_offer(alloc, words),
        _ => Err(Fault::Unknown),
    }
}

/// A device wishes to join.
fn ask_join(setting: &mut Setting, words: &mut Words<'_>) -> Answer {
    let slot = words.slot()?;
    let asked = i3c_hotjoin::ask(&mut setting.devices, slot);
    told(setting.alloc, &asked)
}

/// A device wishes for the role.
fn ask_role(setting: &mut Setting, words: &mut Words<'_>) -> Answer {
    let slot = words.slot()?;
    let asked = i3c_handoff::ask(&mut setting.devices, setting.active, slot);
    told(setting.alloc, &asked)
}

/// The role begins in a slot, and passes to another: its holder and the active controller, before and after.
fn pass_role(alloc: Global, words: &mut Words<'_>) -> Answer {
    let main = words.slot()?;
    let other = words.slot()?;
    let (mut active, role) = Active::new(main);
    let before = (role.holder().index(), active.slot().index());
    let role = give(&mut active, role, other);
    let after = (role.holder().index(), active.slot().index());
    retire(active, role);
    told(alloc, &(before, after))
}

/// The offer of the role to an address.
fn offered(setting: &Setting, words: &mut Words<'_>) -> Result<Offer, Fault> {
    let address = words.address()?;
    let begun = setting.begun;
    if begun > MOST_BEGUN {
        return Err(Fault::Unknown);
    }
    Ok(offer(
        &setting.devices,
        setting.active,
        address,
        &setting.cuts,
        begun,
    ))
}

/// The symbols of an offer after the header of its frame.
fn told_offer(alloc: Global, words: &mut Words<'_>) -> Answer {
    let address = words.address()?;
    let offer = match words.word()? {
        "nobody" => Offer::Nobody,
        "torn" => Offer::Torn(words.byte()?),
        "taken" => Offer::Taken(words.slot()?),
        _ => return Err(Fault::Unknown),
    };
    let mut told = Told::begun(alloc);
    tell_offer(&mut told, address, &offer);
    told_trace(alloc, &told.symbols)
}
