use crate::faults::Fault;
use crate::setting::Setting;
use crate::told::{Answer, told, told_hex};
use crate::words::Words;
use i3c_ccc::{byte_of, code_of, extended_code_of, read_command, read_extended_command};

/// The calls on commands.
pub(crate) fn call(setting: &mut Setting, call: &str, words: &mut Words<'_>) -> Answer {
    let alloc = setting.alloc;
    match call {
        "code_of" => told(alloc, &code_of(words.byte()?)),
        "extended_code_of" => told(alloc, &extended_code_of(words.byte()?)),
        "byte_of" => told_hex(alloc, &byte_of(words.code()?)),
        "read_command" => told(alloc, &read_command(&words.carried(alloc)?)),
        "read_extended_command" => told(alloc, &read_extended_command(&words.carried(alloc)?)),
        _ => Err(Fault::Unknown),
    }
}
