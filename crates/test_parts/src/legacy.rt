use crate::faults::Fault;
use crate::setting::Setting;
use crate::table::declared;
use crate::told::{Answer, told, told_hex, told_lvrs};
use crate::words::Words;
use i3c_base::{Addr7, Lvr, REGISTERS};
use i3c_legacy::{Legacies, LegacyTargets};
use std::alloc::Global;

/// The calls on what has a static address: `legacies` are the legacy targets and the identities that are declared,
/// `targets` the legacy targets on a bus.
pub(crate) fn call(setting: &mut Setting, call: &str, words: &mut Words<'_>) -> Answer {
    let alloc = setting.alloc;
    match call {
        "legacies" => of_legacies(alloc, &mut setting.legacies, words),
        "targets" => of_targets(alloc, &mut setting.targets, words),
        _ => Err(Fault::Unknown),
    }
}

/// A call on what is declared: here those on legacy targets.
fn of_legacies(alloc: Global, legacies: &mut Legacies, words: &mut Words<'_>) -> Answer {
    match words.word()? {
        "add" => {
            let address = words.address()?;
            told(alloc, &legacies.add(address, Lvr(words.byte()?)))
        }
        "lvr_at" => told_lvrs(alloc, &legacies.lvr_at(words.address()?)),
        "by_address" => told_lvrs(alloc, &declared(alloc, legacies)?),
        "len" => told(alloc, &legacies.len()),
        "is_empty" => told(alloc, &legacies.is_empty()),
        method => of_identities(alloc, legacies, method, words),
    }
}

/// A call on identities, and those on what is declared of both kinds. `copied` goes on with a copy.
fn of_identities(
    alloc: Global,
    legacies: &mut Legacies,
    method: &str,
    words: &mut Words<'_>,
) -> Answer {
    match method {
        "declare" => {
            let address = words.address()?;
            told(alloc, &legacies.declare(address, words.identity()?))
        }
        "declared_at" => told_hex(alloc, &legacies.declared_at(words.address()?)),
        "fixed_of" => told_hex(alloc, &legacies.fixed_of(&words.identity()?)),
        "has_declared" => told(alloc, &legacies.has_declared()),
        "addresses" => told_hex(alloc, &static_addresses(alloc, legacies)?),
        "copied" => {
            *legacies = legacies.copied();
            told(alloc, &())
        }
        _ => Err(Fault::Unknown),
    }
}

/// All static addresses.
fn static_addresses(alloc: Global, legacies: &Legacies) -> Result<Vec<Addr7>, Fault> {
    let addresses = legacies.addresses();
    let mut all = Vec::new(alloc);
    for number in 0..128 {
        let address = Addr7::new(number)?;
        if addresses.has(address) {
            all.push(address)?;
        }
    }
    Ok(all)
}

/// A call on those on a bus.
fn of_targets(alloc: Global, targets: &mut LegacyTargets, words: &mut Words<'_>) -> Answer {
    match words.word()? {
        "write" => written(alloc, targets, words),
        "get" => told(alloc, &targets.get(words.address()?)),
        _ => Err(Fault::Unknown),
    }
}

/// Writes bytes: at most as many as there are registers.
fn written(alloc: Global, targets: &mut LegacyTargets, words: &mut Words<'_>) -> Answer {
    let address = words.address()?;
    let bytes = words.bytes(alloc)?;
    if bytes.len() > REGISTERS {
        return Err(Fault::Unknown);
    }
    targets.write(address, &bytes);
    told(alloc, &())
}
