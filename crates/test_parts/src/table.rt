ghost use Rattle.std.specs.Prelude.{IsTrue};
ghost use Rattle.i3c_base.specs.State.{IsPickableIn};

use crate::faults::Fault;
use crate::setting::Setting;
use crate::told::{Answer, done, told, told_hex, told_if, told_lvrs};
use crate::words::Words;
use i3c_base::{Addr7, Bcr, Lvr};
use i3c_legacy::{Legacies, LegacyTargets};
use i3c_table::{Row, Table};
use std::alloc::Global;

/// The calls on what is known of addresses: here those that change it and answer nothing.
pub(crate) fn call(setting: &mut Setting, call: &str, words: &mut Words<'_>) -> Answer {
    let alloc = setting.alloc;
    match call {
        "legacy" => done(alloc, declare(setting, words)),
        "row" => done(alloc, put(&mut setting.table, words, false)),
        "kept-row" => done(alloc, put(&mut setting.table, words, true)),
        "table" => of_table(alloc, &mut setting.table, words),
        _ => ask(setting, call, words),
    }
}

/// Declares a legacy target. The table has no row after it.
fn declare(setting: &mut Setting, words: &mut Words<'_>) -> Result<(), Fault> {
    let address = words.address()?;
    let lvr = Lvr(words.byte()?);
    setting.declared.push((address, lvr))?;
    setting.table = Table::new(legacies_of(&setting.declared)?);
    setting.targets = LegacyTargets::new(setting.table.legacies());
    Ok(())
}

/// The legacy targets of these declarations.
fn legacies_of(declared: &[(Addr7, Lvr)]) -> Result<Legacies, Fault> {
    let mut legacies = Legacies::new();
    for (address, lvr) in declared {
        if legacies.add(*address, *lvr).is_err() {
            return Err(Fault::Unknown);
        }
    }
    Ok(legacies)
}

/// Enters a row at an address that may be picked, and keeps it for its device or not. A static address may follow.
fn put(table: &mut Table, words: &mut Words<'_>, is_kept: bool) -> Result<(), Fault> {
    let address = words.address()?;
    let identity = words.identity()?;
    let fixed = words.maybe_address()?;
    if !is_pickable(table, address) {
        return Err(Fault::Unknown);
    }
    table.put(Row {
        address,
        bcr: identity.bcr,
        dcr: identity.dcr,
        identity: if is_kept { Some(identity) } else { None },
        fixed,
    });
    Ok(())
}

/// Whether the address is one below `3E` that may be picked: nobody has it, and it is nobody's static one.
fn is_pickable(table: &Table, address: Addr7) -> bool
    ensures { IsTrue result → IsPickableIn table.now.given table.now.legacy table.now.declared address }
{
    matches!(address.get(), 0x08..0x3E)
        && table.row_of(address).is_none()
        && table.legacies().lvr_at(address).is_none()
        && table.legacies().declared_at(address).is_none()
}

/// What is asked of addresses.
fn ask(setting: &mut Setting, call: &str, words: &mut Words<'_>) -> Answer {
    let alloc = setting.alloc;
    let table = &setting.table;
    match call {
        "known" => told_hex(alloc, &table.address_known(&words.identity()?)),
        "row-at" => told_hex(alloc, &table.row_of(words.address()?)),
        "lvr-at" => told_hex(alloc, &table.legacies().lvr_at(words.address()?)),
        "rows" => rows(alloc, table),
        "lvrs" => told_hex(alloc, &declared(alloc, table.legacies())?),
        "list-current" => told(alloc, &table.list_current()),
        _ => Err(Fault::Unknown),
    }
}

/// All rows.
fn rows(alloc: Global, table: &Table) -> Answer {
    let places = table.by_address();
    let mut rows = Vec::new(alloc);
    for place in &places {
        if let Some(row) = place {
            rows.push(row)?;
        }
    }
    told_hex(alloc, &rows)
}

/// All addresses of legacy targets, each with its LVR.
pub(crate) fn declared(alloc: Global, legacies: &Legacies) -> Result<Vec<(u8, Lvr)>, Fault> {
    let mut declared = Vec::new(alloc);
    let mut address = 0u8;
    for place in &legacies.by_address() {
        if let Some(lvr) = place {
            declared.push((address, *lvr))?;
        }
        address = address.wrapping_add(1);
    }
    Ok(declared)
}

/// A call on a table.
fn of_table(alloc: Global, table: &mut Table, words: &mut Words<'_>) -> Answer {
    let method = words.word()?;
    match method {
        "put" => told_if(alloc, put(table, words, true)),
        "put_again" => told_if(alloc, put_again(table, words)),
        "clear" => told(alloc, &table.clear(words.address()?)),
        "take_over" => told(alloc, &table.take_over(words.address()?)),
        "release" => told(alloc, &table.release(words.address()?)),
        "renumber" => told_if(alloc, renumber(table, words)),
        "mark_listed" => told(alloc, &table.mark_listed()),
        _ => ask_table(alloc, table, method, words),
    }
}

/// Moves a row to an address that may be picked.
fn renumber(table: &mut Table, words: &mut Words<'_>) -> Result<(), Fault> {
    let old = words.address()?;
    let new = words.address()?;
    if table.row_of(old).is_none() || !is_pickable(table, new) {
        return Err(Fault::Unknown);
    }
    table.renumber(old, new);
    Ok(())
}

/// Enters an identity again, with another BCR, at the address that is kept for it. A static address may follow.
fn put_again(table: &mut Table, words: &mut Words<'_>) -> Result<(), Fault> {
    let identity = words.identity()?;
    let bcr = Bcr(words.byte()?);
    let fixed = words.maybe_address()?;
    let Some(address) = table.address_known(&identity) else {
        return Err(Fault::Unknown);
    };
    table.put(Row {
        address,
        bcr,
        dcr: identity.dcr,
        identity: Some(identity),
        fixed,
    });
    Ok(())
}

/// What asks a table.
fn ask_table(alloc: Global, table: &Table, method: &str, words: &mut Words<'_>) -> Answer {
    match method {
        "row_of" => told(alloc, &table.row_of(words.address()?)),
        "lvr_at" => told_lvrs(alloc, &table.legacies().lvr_at(words.address()?)),
        "address_known" => told_hex(alloc, &table.address_known(&words.identity()?)),
        "by_address" => told_if(alloc, alike(table)),
        "given_addresses" => told_if(alloc, given(table)),
        "lowest_given" => told_hex(alloc, &table.given_addresses().lowest()),
        "list_current" => told(alloc, &table.list_current()),
        "legacies" => told(alloc, &table.legacies().len()),
        _ => Err(Fault::Unknown),
    }
}

/// At how many of the addresses `by_address` and `row_of` have the same.
fn alike(table: &Table) -> Result<usize, Fault> {
    let mut count = 0usize;
    let mut address = 0u8;
    for row in &table.by_address() {
        if *row == table.row_of(Addr7::new(address)?) {
            count = count.wrapping_add(1);
        }
        address = address.wrapping_add(1);
    }
    Ok(count)
}

/// At how many of the addresses `given_addresses` and `row_of` have the same.
fn given(table: &Table) -> Result<usize, Fault> {
    let given = table.given_addresses();
    let mut count = 0usize;
    for number in 0..128 {
        let address = Addr7::new(number)?;
        if given.has(address) == table.row_of(address).is_some() {
            count = count.wrapping_add(1);
        }
    }
    Ok(count)
}
