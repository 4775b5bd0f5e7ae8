//! Commands to devices that one frame carries: ENEC and DISEC, which enable and disable kinds of events, SETDASA and
//! SETNEWDA, which set dynamic addresses, and SETMWL and SETMRL, which set the maximum lengths of transfers. For each
//! there are its words, its effect on the devices, and its symbols.
#![tactic(auto)]

mod hearing;
mod setting;
mod wire;
mod words;

pub use hearing::{NoAnswer, answer_of, hear_kinds, hear_length, kinds_bits, length_bits};
pub use i3c_base::{Answer, Change, Kinds};
pub use setting::{Setting, hear_new, hear_static};
pub use wire::{tell_kinds, tell_length, tell_setting};
pub use words::{address_word, code_word, kinds_word, length_code, length_word, setting_word};
