//! What the words of `i3cbus`'s command line ask for.
//!
//! `task` says what the words ask for, and `options` what one option does. `verb` has what the program can be told, and its parser; `argument` are the arguments
//! of a verb, and `help` longer texts of the help. `words_fault` is why words ask for nothing.
#![tactic(auto)]

mod argument;
mod help;
mod options;
mod task;
mod verb;
mod words_fault;

pub use task::{
    Capturing, Exploring, Meeting, STANDARD_INPUT, Stress, Task, Telling, Waveform, Work,
    task_named,
};
pub use verb::{MOST_DEVICES, MOST_POSTS};
pub use words_fault::WordsFault;
