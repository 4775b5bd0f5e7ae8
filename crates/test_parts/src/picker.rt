use crate::faults::Fault;
use crate::setting::Setting;
use crate::told::{Answer, told_hex};
use crate::words::Words;
use i3c_base::{Addr7, Bcr, Dcr};
use i3c_picker::pick;
use i3c_table::{Row, Table};
use std::alloc::Global;

/// The calls that pick an address of the table: `give` also gives a number of them, one after another.
pub(crate) fn call(setting: &mut Setting, call: &str, words: &mut Words<'_>) -> Answer {
    let alloc = setting.alloc;
    match call {
        "pick" => told_hex(alloc, &pick(&setting.table)),
        "give" => give(alloc, &mut setting.table, words.count()?),
        _ => Err(Fault::Unknown),
    }
}

/// Puts rows at the addresses that are picked, until `count` are given or none is left.
fn give(alloc: Global, table: &mut Table, count: u64) -> Answer {
    let mut given: Vec<Addr7> = Vec::new(alloc);
    for _ in 0..count {
        let Some(address) = pick(table) else {
            break;
        };
        table.put(Row {
            address,
            bcr: Bcr(0),
            dcr: Dcr(0),
            identity: None,
            fixed: None,
        });
        given.push(address)?;
    }
    told_hex(alloc, &given)
}
