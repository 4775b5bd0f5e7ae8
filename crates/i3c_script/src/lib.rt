//! What the lines of a script come to. Each line's command is obeyed on a stage, before the bus or with it, and a listener
//! hears what it comes to, piece by piece.
//!
//! A line of one event takes one path: `stage` hands its command to `script_bus`, which makes the event and has the bus
//! answer it, and `replies` makes pieces of the answer.
//!
//! * `piece` has the pieces, and what a listener is. `printed` makes a text a listener: it prints each piece. `piece_list` keeps
//!   them, and `same_piece` compares them.
//! * `stage` is where a script is, before its bus and with it. `script_bus` obeys a line's command on a bus, whoever listens,
//!   however names are kept (`Naming` of `i3c_lines`) and whatever is kept of the past (`past`). `journal` is what scripts
//!   keep of it. `settings` is what lines have set. `slot_lookup` finds the slots that names mean.
//! * `assigning` plays the whole session of a `daa`. `replies` has the pieces of a reply and of such a session, `show` those
//!   of the bus, and `details` those of all that it is; `tenures` those of the active controllers at the times of recorded
//!   interrupts. `wires` keeps the last symbols; `symbols` and `frames` have their pieces.
//! * `outcomes` gives the result of a line, by the bus's reply. `laws` says that lines make legal runs.
#![tactic(auto)]

mod assigning;
mod details;
mod frames;
mod journal;
mod laws;
mod outcomes;
mod past;
mod piece;
mod piece_list;
mod printed;
mod replies;
mod same_piece;
mod script_bus;
mod settings;
mod show;
mod slot_lookup;
mod stage;
mod symbols;
mod tenures;
mod wires;

pub use journal::Journal;
pub use laws::scripts_are_legal_runs;
pub use past::{Past, Unkept};
pub use piece::{Deaf, Description, Listener, Piece};
pub use piece_list::PieceList;
pub use script_bus::ScriptBus;
pub use settings::{Settings, sum_of};
pub use show::{push_askers, show_bus, show_records_behind};
pub use stage::Stage;
