//! What a script expects: marks, the lines beside its commands, and the facts that these say.
//!
//! Reading: `marks` reads a line (`Mark`), `facts` its facts (`Facts`), `fact_tokens` one fact (`Fact`, in `fact`), and
//! `reasons` the reason of a refusal. `mark_faults` says why a line that begins as a mark isn't one, by the words of each fact
//! (`fact_forms`). Testing: `holding` tests a fact, by the place of its name, the result of the
//! previous line (`before`, which hears its pieces) and counts over slots and records (`counting`). Printing: `printing` prints marks and facts, and
//! `unmet` prints what holds in place of an unmet fact. `laws` has theorems over all lines.
#![tactic(auto)]

mod before;
mod counting;
mod fact;
mod fact_forms;
mod fact_tokens;
mod facts;
mod holding;
mod laws;
mod mark_faults;
mod marks;
mod printing;
mod reasons;
mod unmet;

pub use before::{Before, Heard, LineResult};
pub use fact::{Fact, ServedAs};
pub use facts::{Claim, Facts};
pub use laws::{
    askers_drive_the_first, lines_are_of_one_mark, marks_are_no_commands, printed_marks_are_read,
};
pub use mark_faults::mark_fault;
pub use marks::{Mark, read_mark};
