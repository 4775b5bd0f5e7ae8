//! What a monitor saw on the wires of a bus, told in the bus's own words: from the symbols of a trace, each frame with its
//! requests, commands, rounds and transfers.
//!
//! `monitor` goes through the symbols of a trace. At each header it asks `header` what it is, by the frame's mode; `commands`
//! reads the symbols behind `7E`/W, and `words` the words expected at one place. `decoded` is what is told, and `printing`
//! the line that each of it prints.
//!
//! `linter` is a monitor that also checks. At each header `checks` puts together what `lint` finds of addresses and
//! `behind_faults` of the symbols behind it; `known` is what the trace showed of addresses so far. A `report` is what it
//! tells, with a `lint_fault` for each fault, and `lint_printing` its lines.
//!
//! What a monitor and a linter both call is in line in both: a call for each header would cost `trace` a sixth more.
#![tactic(auto)]

mod address_statuses;
mod behind;
mod behind_faults;
mod checks;
mod commands;
mod decoded;
mod header;
mod lint;
mod lint_fault;
mod lint_printing;
mod linter;
mod monitor;
mod printing;
mod report;
mod words;

pub use decoded::{Decoded, Direct, Fault, Span};
pub use lint_fault::{Breach, LintFault};
pub use linter::Linter;
pub use monitor::Monitor;
pub use printing::mark_of;
pub use report::Report;
