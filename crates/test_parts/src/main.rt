//! `test_parts FILE` reads a text whose lines are calls of the public functions of a crate that the bus is made of, on a
//! small setting. Its first line names the crate, as `crate i3c_word`. It prints each line and after it a line `= ANSWER`, if
//! the call answers something. Lines that begin with `#` and empty lines are printed as they are, and a line that is no call
//! is answered by `?`.
//!
//! A call has the name of its function, and then its arguments, each parted from the next by a space. Slots, bits, counts and
//! sizes are decimal; addresses, bytes, identities and words on a bus are hexadecimal. An identity is a PID, BCR and DCR, in
//! one word or in three, or a BCR alone. For a slot `-` stands for the device in hand, which is in no slot, and for an
//! address `all` for none. The cuts, the active controller's slot, and the number of bits of a frame before a command are set
//! by lines of their own, until `new`.
//!
//! Answers of devices and of frames' contents have hexadecimal numbers too, except for counts, bits of frames, faults, and
//! slots alone. For the lowest crates each text says at its head which numbers are in which digits.
//!
//! `calls` has what is set, `subject` picks the crate, `words` reads what a line says, `setting` has what stays from one line
//! to the next, and `told` prints answers. The other modules have the calls, each with those of a crate or of a part of one.
//! Texts of every crate may set up devices and a table.
//!
//! It is a test, and promises nothing: tests/parts/ has the texts with the answers that are wanted. It ends with 2 where it
//! could not read the text.
#![tactic(auto)]

mod asked;
mod base;
mod calls;
mod ccc;
mod cutting;
mod events;
mod faults;
mod frame;
mod hand;
mod header;
mod legacy;
mod lists;
mod picker;
mod requests;
mod roles;
mod rounds;
mod run;
mod setting;
mod slots;
mod subject;
mod table;
mod taps;
mod told;
mod transfers;
mod wires;
mod word;
mod words;

use std::process::ExitCode;

fn main(rt: HostRuntime) -> ExitCode {
    ExitCode::from(run::run(&rt))
}
