//! Assertions about a line as functions, so that each is proved once. Each crate of tests has its own: the gate takes a
//! function that may abort in tests alone.
use i3c_facts::{Facts, Mark, read_mark};
use std::alloc::Global;
use std::process::Abort;

/// Fails unless a line's text is the expected one, and prints both.
pub(crate) fn same<R: Abort>(rt: &R, line: &str, found: &[u8], expected: &str) {
    assert!(rt;
        found == expected.as_bytes(),
        "{line} gave another text than {expected}"
    );
}

/// Fails unless something is so of a line.
pub(crate) fn holds<R: Abort>(rt: &R, is_so: bool, line: &str) {
    assert!(rt; is_so, "{line}");
}

/// The mark that a line is.
pub(crate) fn mark<R: Abort>(rt: &R, alloc: Global, line: &str) -> Option<Mark> {
    match read_mark(alloc, line.as_bytes()) {
        Ok(mark) => mark,
        Err(_) => panic!(rt; "no memory for {line}"),
    }
}

/// The facts that a line expects.
pub(crate) fn expected<R: Abort>(rt: &R, alloc: Global, line: &str) -> Facts {
    match mark(rt, alloc, line) {
        Some(Mark::Expect(facts)) => facts,
        _ => panic!(rt; "{line} expects nothing"),
    }
}
