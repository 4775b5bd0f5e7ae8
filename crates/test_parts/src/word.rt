use crate::faults::Fault;
use crate::setting::Setting;
use crate::told::{Answer, told, told_hex};
use crate::words::{BITS, Words};
use i3c_word::{address_byte, end_bit, read_address_byte, read_word, write_word};

/// The calls on words.
pub(crate) fn call(setting: &mut Setting, call: &str, words: &mut Words<'_>) -> Answer {
    let alloc = setting.alloc;
    match call {
        "write_word" => told(alloc, &write_word(words.byte()?)),
        "read_word" => told_hex(alloc, &read_word(words.carried_word()?)),
        "end_bit" => told(alloc, &end_bit(words.named(&BITS)?)),
        _ => of_address_bytes(setting, call, words),
    }
}

/// The calls on address bytes.
fn of_address_bytes(setting: &mut Setting, call: &str, words: &mut Words<'_>) -> Answer {
    let alloc = setting.alloc;
    match call {
        "address_byte" => told_hex(alloc, &address_byte(words.address()?)),
        "read_address_byte" => told_hex(alloc, &read_address_byte(words.byte()?)),
        _ => Err(Fault::Unknown),
    }
}
