//! The answer to a line of a driven bus as a JSON object on one line.
//!
//! `told` makes the object of an answer's parts: `verdict` says how the line ended, and `aside` what the answer says besides to a
//! program that meets every order. `answer` makes the object for a program that meets one order. `fields` says which field each
//! piece of the line fills, and `symbols` has the lines of symbols. `objects` makes the objects that are values of fields, and
//! `values` the other values. `laws` says what a reader of the object finds.
#![tactic(auto)]

mod answer;
mod aside;
mod fields;
mod laws;
mod objects;
mod symbols;
mod told;
mod values;
mod verdict;

pub use answer::{Answer, push_object};
pub use aside::Aside;
pub use laws::{
    objects_tell_outcomes, objects_tell_pieces, told_objects_tell_asides, told_objects_tell_pieces,
    told_objects_tell_verdicts,
};
pub use told::{Told, push_told};
pub use verdict::Verdict;
