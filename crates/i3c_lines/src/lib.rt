//! What a script's line says by itself: its tokens, its command, the names that it gives, and why it is refused.
//!
//! `tokens` reads one token, `command` a line of text, `line` a line of bytes, which may come in pieces. `sent` is a line that a controller sends. `names` keeps the
//! places of a script's names, `naming` says what such a keeper promises, and `namings` has the names that a command gives and means. `policies` are the tokens that
//! name a policy, and `data` those of data that a controller asks for, and of lengths that it sets. `capitals` writes a
//! line's hexadecimal digits in capitals. `form_faults` says why a line has no form, by the `fields` and the `shapes` of the
//! commands. `laws` are theorems over all lines.
#![tactic(auto)]

mod capitals;
mod command;
mod data;
mod fields;
mod form_faults;
mod laws;
mod line;
mod names;
mod naming;
mod namings;
mod policies;
mod printing;
mod refusals;
mod sent;
mod shapes;
pub mod tokens;

pub use capitals::push_capitals;
pub use command::Command;
pub use data::{datum, datum_name, length_token};
pub use fields::Field;
pub use form_faults::{FormFault, form_fault, misfit_behind, push_quoted};
pub use laws::{
    lines_are_of_one_command, printed_commands_are_read, skipped_lines_are_no_commands,
};
pub use line::{Line, is_skipped, read_line};
pub use names::{Name, Names, Place};
pub use naming::{Naming, slot_meant};
pub use policies::{ACCEPT_ALL, EXCEPTED};
pub use refusals::Refusal;
pub use sent::Sent;
