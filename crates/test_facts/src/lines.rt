use crate::checks::{holds, mark, same};
use i3c_text::Text;
use std::alloc::Global;
use std::process::Abort;

/// Lines that are printed unchanged.
static LINES: [&str; 37] = [
    "any",
    "anywhere t",
    "always not t gone",
    "track",
    "close",
    "expect active hub",
    "expect t at 09",
    "expect t at any",
    "expect t at none",
    "expect t gone",
    "expect t waiting 3",
    "expect waiting 0",
    "expect records 65535",
    "expect record t 2A 1",
    "expect record t -- 0",
    "expect assigned",
    "expect listed",
    "expect open",
    "expect done",
    "expect refused",
    "expect not refused",
    "expect served quiet",
    "expect served recorded",
    "expect served turned down or not served torn",
    "expect served joining",
    "expect served wants role",
    "expect bytes 0A",
    "expect bytes 000102030405060708090A0B0C0D0E0F",
    "expect asking t",
    "expect asking gone or served gone or bytes gone or refused gone",
    "expect not asking asking",
    "expect refused ListStale",
    "expect refused LegacyTwice",
    "expect refused NoAnswer 50",
    "expect refused BadAddress 7F",
    "expect not waiting 3 or c gone or not done",
    "expect active gone or not at 09 or waiting gone",
];

/// Lines that are no marks.
static OTHERS: [&str; 36] = [
    "",
    "# any",
    "daa",
    "any ",
    "any t",
    "anywhere",
    "anywhere T",
    "track 1",
    "close any",
    "always",
    "expect",
    "expect ",
    "expect done or",
    "expect or done",
    "expect done or or done",
    "expect or at 09",
    "expect done  or done",
    "expect not not done",
    "expect t at 80",
    "expect t at 9",
    "expect waiting 65536",
    "expect waiting +1",
    "expect record t 2a 1",
    "expect refused Nothing",
    "expect served",
    "expect served turned",
    "expect served turned up",
    "expect served recorded 1",
    "expect served wants role 09",
    "expect bytes",
    "expect bytes 0",
    "expect bytes 0a",
    "expect bytes 000102030405060708090A0B0C0D0E0F10",
    "expect asking",
    "expect refused NoAnswer",
    "expect refused ListStale 09",
];

/// The line is a mark, which is printed so.
fn is_printed(rt: &impl Abort, alloc: Global, line: &str, due: &str) {
    let mut text = Text::new(alloc);
    match mark(rt, alloc, line) {
        Some(mark) => mark.push(&mut text).expect(rt, "memory"),
        None => holds(rt, false, line),
    }
    same(rt, line, text.as_bytes(), due);
}

// Each form of a mark and of a fact.
#[test]
fn marks_are_printed_as_they_are_read(rt: HostRuntime) {
    for line in LINES {
        is_printed(&rt, rt.alloc(), line, line);
    }
}

#[test]
fn zeros_that_lead_a_number_are_dropped(rt: HostRuntime) {
    is_printed(&rt, rt.alloc(), "expect waiting 007", "expect waiting 7");
}

#[test]
fn other_lines_are_no_marks(rt: HostRuntime) {
    for line in OTHERS {
        holds(&rt, mark(&rt, rt.alloc(), line).is_none(), line);
    }
}
