use super::{FailingReader, Flaky, FullWriter, tally};
use crate::checks::{holds, same, same_in};
use i3c_scenario::{ScriptFault, run_trace};
use std::alloc::Global;
use std::io::ErrorKind;
use std::process::Abort;

/// A trace of two frames.
const TRACE: &[u8] = b"S 7E/W+ 07.0 Sr 7E/R+ =0204000000100644 @13+ Sr 7E/R- P\nS 09/R+ 11.0 P\n";

/// What it tells.
const TOLD: &[u8] = b"frame 1\nENTDAA\nround 0204000000100644 13 taken\nround done\n\
    frame 2\nrequest interrupt 09 accepted 11\n";

// A reader that fails tells nothing, wherever it does. An interrupted read is a failure too.
#[test]
fn a_trace_is_not_read(rt: HostRuntime) {
    for kind in [ErrorKind::Other, ErrorKind::Interrupted] {
        let mut reader = FailingReader { rest: TRACE, kind };
        let mut printed = Vec::new(rt.alloc());
        let outcome = run_trace(rt.alloc(), &mut reader, &mut printed);
        same(&rt, outcome, Err(ScriptFault::Read));
        same(&rt, printed.len(), 0);
    }
}

// With room for a prefix of the lines, this is written out.
#[test]
fn a_trace_is_not_written(rt: HostRuntime) {
    for room in 0..TOLD.len() {
        for fails in [false, true] {
            let mut reader = TRACE;
            let mut writer = FullWriter {
                printed: Vec::new(rt.alloc()),
                room,
                fails,
            };
            let outcome = run_trace(rt.alloc(), &mut reader, &mut writer);
            same_in(&rt, room, outcome, Err(ScriptFault::Write));
            same(&rt, writer.printed.as_slice(), &TOLD[..room]);
        }
    }
}

// A read that fails alone tells nothing, though later ones would go on.
#[test]
fn one_read_of_a_trace_fails(rt: HostRuntime) {
    let mut failures = 0u64;
    for before in 0..1_000 {
        let mut reader = Flaky::new(rt.alloc(), TRACE, before);
        let mut printed = Vec::new(rt.alloc());
        let outcome = run_trace(rt.alloc(), &mut reader, &mut printed);
        if !reader.has_failed {
            same(&rt, outcome, Ok(tally(0)));
            same(&rt, printed.as_slice(), TOLD);
            break;
        }
        failures = before + 1;
        same_in(&rt, before, outcome, Err(ScriptFault::Read));
        same(&rt, printed.len(), 0);
    }
    // seven bytes at once, and the end
    same(&rt, failures, TRACE.len() as u64 / 7 + 2);
}

/// How many frames a long trace has.
const FRAMES: u64 = 150;

/// A trace of many frames, and what it tells.
fn long_trace(rt: &impl Abort, alloc: Global) -> (String, String) {
    let mut trace = String::new(alloc);
    let mut told = String::new(alloc);
    for frame in 1..FRAMES + 1 {
        trace.push_str("S 09/R+ 11.0 P\n").expect(rt, "memory");
        write!(told, "frame {frame}\nrequest interrupt 09 accepted 11\n").expect(rt, "memory");
    }
    (trace, told)
}

// A write that fails alone ends it, though later ones would go on. Lines go out together, once they are 1,024 bytes or
// more, and the last of them at the end.
#[test]
fn one_write_of_a_trace_fails(rt: HostRuntime) {
    let (trace, told) = long_trace(&rt, rt.alloc());
    let told = told.as_bytes();
    let mut failures = 0u64;
    for before in 0..1_000 {
        let mut reader = trace.as_bytes();
        let mut writer = Flaky::new(rt.alloc(), b"", before);
        let outcome = run_trace(rt.alloc(), &mut reader, &mut writer);
        if !writer.has_failed {
            same(&rt, outcome, Ok(tally(0)));
            same(&rt, writer.printed.as_slice(), told);
            break;
        }
        failures = before + 1;
        same_in(&rt, before, outcome, Err(ScriptFault::Write));
        let count = writer.printed.len();
        holds(&rt, count < told.len(), "fewer bytes are printed");
        same(&rt, writer.printed.as_slice(), &told[..count]);
    }
    same(&rt, failures, 7);
}
