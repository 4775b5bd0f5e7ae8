//! What a user runs: a script by `i3c_runner`, a trace that is told in lines by `i3c_traces`, and devices that post from
//! threads of their own by `i3c_stress`. It passes their names on, and has nothing of its own.
#![tactic(auto)]

pub use i3c_runner::{
    Viewer, WatchFault, Watching, Witness, check_script, commands_are_legal_runs,
    lines_are_legal_runs, run_script, run_viewed, run_watched, watched_lines_print_the_same,
};
pub use i3c_streams::{ScriptFault, ScriptLines, Tally, position_of_feed, write_out};
pub use i3c_stress::{
    Gate, MOST_DEVICES, MOST_POSTS, StressFault, StressReport, Watch, stress, stress_watched,
};
pub use i3c_traces::{
    run_explained, run_explained_knowing, run_lint, run_trace, run_trace_knowing,
};
