//! A reader or a writer that fails at one of its calls, under a script whose answers are known line by line.

use super::{FailingReader, Flaky, tally};
use crate::checks::{holds, same, same_in};
use i3c_scenario::{ScriptFault, Tally, run_script};
use std::alloc::Global;
use std::io::ErrorKind;
use std::process::Abort;

/// The lines of a handover, each with what it prints.
const HANDOVER: [(&str, &str); 8] = [
    ("main hub 020400000001 46 C0\n", "hub slot 0 at 08\n"),
    ("attach c 020400000020 46 C1\n", "c slot 1\n"),
    ("daa\n", "assigned 09 020400000020 46 C1\ndone\n"),
    ("handover 09\n", "refused ListStale\n"),
    ("list\n", "done\n"),
    ("handover 09\n", "active 09\n"),
    ("raise hub 7F\n", "raised 1\n"),
    ("serve\n", "recorded 1\n"),
];

/// The handover's script.
fn script(rt: &impl Abort, alloc: Global) -> String {
    let mut script = String::new(alloc);
    for (line, _) in HANDOVER {
        script.push_str(line).expect(rt, "memory");
    }
    script
}

/// The output of its lines that end within the first `bytes` bytes.
fn answers_within(rt: &impl Abort, alloc: Global, bytes: usize) -> String {
    let (mut answers, mut end) = (String::new(alloc), 0usize);
    for (line, answer) in HANDOVER {
        end = end.saturating_add(line.len());
        if end <= bytes {
            answers.push_str(answer).expect(rt, "memory");
        }
    }
    answers
}

// Each read is refused in turn, until none is left: the lines that came whole before it are answered, and no others.
#[test]
fn a_handover_script_meets_each_refused_read(rt: HostRuntime) {
    let alloc = rt.alloc();
    let script = script(&rt, alloc);
    let mut refused = 0;
    for before in 0..1_000usize {
        let mut reader = Flaky::new(alloc, script.as_bytes(), before as u64);
        let mut printed = Vec::new(alloc);
        let outcome = run_script(alloc, &mut reader, &mut printed);
        if !reader.has_failed {
            is_whole(&rt, alloc, outcome, &printed);
            break;
        }
        refused = before + 1;
        same_in(&rt, before, outcome, Err(ScriptFault::Read));
        // it gives seven bytes a call
        let due = answers_within(&rt, alloc, before.saturating_mul(7));
        same_in(&rt, before, printed.as_slice(), due.as_bytes());
    }
    holds(
        &rt,
        12 < refused && refused < 1_000,
        "each read was refused",
    );
}

// Each write is refused in turn, until none is left: a prefix of the answers went out, longer from write to write.
#[test]
fn a_handover_script_meets_each_refused_write(rt: HostRuntime) {
    let alloc = rt.alloc();
    let script = script(&rt, alloc);
    let whole = answers_within(&rt, alloc, usize::MAX);
    let mut refused = 0u64;
    let mut least = 0;
    for before in 0..1_000u64 {
        // it gives seven bytes a call, and answers are written before the next
        let mut reader = Flaky::new(alloc, script.as_bytes(), u64::MAX);
        let mut writer = Flaky::new(alloc, b"", before);
        let outcome = run_script(alloc, &mut reader, &mut writer);
        if !writer.has_failed {
            is_whole(&rt, alloc, outcome, &writer.printed);
            break;
        }
        refused = before + 1;
        same_in(&rt, before, outcome, Err(ScriptFault::Write));
        let printed = writer.printed.as_slice();
        holds(
            &rt,
            printed.len() >= least,
            "each write adds to what went out",
        );
        holds(
            &rt,
            whole.as_bytes().starts_with(printed),
            "a prefix of the answers went out",
        );
        least = printed.len().saturating_add(1);
    }
    holds(
        &rt,
        4 < refused && refused < 1_000,
        "each write was refused",
    );
}

/// The whole handover was run: one of its lines is refused, and all answers went out.
fn is_whole(rt: &impl Abort, alloc: Global, outcome: Result<Tally, ScriptFault>, printed: &[u8]) {
    let due = answers_within(rt, alloc, usize::MAX);
    same(rt, outcome, Ok(tally(1)));
    same(rt, printed, due.as_bytes());
}

/// The first two lines of a script. It would go on with an assignment and a look.
const TWO_LINES: &[u8] = b"main hub 020400000001 46 C0\nattach t 020400000010 06 44\n";

// A reader fails right after the second line feed: both lines are answered.
#[test]
fn a_read_fails_after_two_lines(rt: HostRuntime) {
    for kind in [ErrorKind::Other, ErrorKind::Interrupted] {
        let mut reader = FailingReader {
            rest: TWO_LINES,
            kind,
        };
        let mut printed = Vec::new(rt.alloc());
        let outcome = run_script(rt.alloc(), &mut reader, &mut printed);
        same(&rt, outcome, Err(ScriptFault::Read));
        same(
            &rt,
            printed.as_slice(),
            b"hub slot 0 at 08\nt slot 1\n".as_slice(),
        );
    }
}
