//! What the bus sends can be read back from the levels of SCL and SDA.
//!
//! `i3c_bus` says what each event sends, and `i3c_wave` how a reader of the two lines makes symbols of what it hears. The
//! functions of `laws` say that the reader gets the symbols that were sent, and those of `numbers` at which rising edge of
//! SCL each bit is. Nothing is carried out here.
#![tactic(auto)]

mod laws;
mod numbers;

pub use laws::{
    assignments_are_sent, events_fit, events_send_wires, runs_are_read_back, runs_are_wires,
    runs_go_on, runs_send_wires,
};
pub use numbers::{
    events_send_the_bits_by_number, events_send_the_bits_in_order, runs_send_the_bits_in_order,
    targets_answer_at_their_bits,
};
