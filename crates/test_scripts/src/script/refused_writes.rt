//! A writer whose first calls are refused with an error of one kind: only an interrupted write is tried again.

use crate::checks::{same, same_in};
use i3c_streams::{ScriptFault, write_out};
use std::alloc::Global;
use std::io;
use std::io::{ErrorKind, Write};

/// A writer that refuses its first calls with an error of this kind, takes three bytes at each later one, and counts them all.
#[derive(Drop)]
struct Refusing {
    kind: ErrorKind,
    refusals: u64,
    calls: u64,
    printed: Vec<u8>,
}

impl Refusing {
    fn new(alloc: Global, kind: ErrorKind, refusals: u64) -> Refusing {
        Refusing {
            kind,
            refusals,
            calls: 0,
            printed: Vec::new(alloc),
        }
    }
}

impl Write for Refusing {
    fn write(&mut self, buf: &[u8]) -> io::Result<usize> {
        self.calls = self.calls.saturating_add(1);
        if self.calls <= self.refusals {
            return Err(io::Error::from(self.kind));
        }
        let count = buf.len().min(3);
        self.printed.extend_from_slice(&buf[..count])?;
        Ok(count)
    }

    fn flush(&mut self) -> io::Result<()> {
        Ok(())
    }
}

/// The kinds of errors that end a write, as a full disk, a closed pipe or a terminal that isn't ready give them, and others.
const ENDING: [ErrorKind; 12] = [
    ErrorKind::NotFound,
    ErrorKind::PermissionDenied,
    ErrorKind::BrokenPipe,
    ErrorKind::WouldBlock,
    ErrorKind::InvalidInput,
    ErrorKind::TimedOut,
    ErrorKind::WriteZero,
    ErrorKind::StorageFull,
    ErrorKind::QuotaExceeded,
    ErrorKind::FileTooLarge,
    ErrorKind::OutOfMemory,
    ErrorKind::Other,
];

/// A text that is written by three calls, of three, three and one byte.
const TEXT: &[u8] = b"08 hub\n";

// The writer would take the text at its second call. But the error of the first ends the write, and nothing went out.
#[test]
fn each_other_error_ends_a_write_at_once(rt: HostRuntime) {
    for kind in ENDING {
        let mut writer = Refusing::new(rt.alloc(), kind, 1);
        let outcome = write_out(TEXT, &mut writer);
        same_in(&rt, kind, outcome, Err(ScriptFault::Write));
        same_in(&rt, kind, writer.calls, 1);
        same_in(&rt, kind, writer.printed.len(), 0);
    }
}

// An interrupted write took nothing. It is tried again as often as need be, and then the whole text goes out once.
#[test]
fn an_interrupted_write_is_tried_again(rt: HostRuntime) {
    for refusals in [0, 1, 2, 300] {
        let mut writer = Refusing::new(rt.alloc(), ErrorKind::Interrupted, refusals);
        let outcome = write_out(TEXT, &mut writer);
        same_in(&rt, refusals, outcome, Ok(()));
        same_in(&rt, refusals, writer.calls, refusals.saturating_add(3));
        same(&rt, writer.printed.as_slice(), TEXT);
    }
}

/// A writer that takes nothing, and counts the calls.
#[derive(Drop)]
struct Idle {
    calls: u64,
}

impl Write for Idle {
    fn write(&mut self, _buf: &[u8]) -> io::Result<usize> {
        self.calls = self.calls.saturating_add(1);
        Ok(0)
    }

    fn flush(&mut self) -> io::Result<()> {
        Ok(())
    }
}

// A writer that takes nothing would never end.
#[test]
fn a_write_that_takes_nothing_ends_it(rt: HostRuntime) {
    let mut writer = Idle { calls: 0 };
    let outcome = write_out(TEXT, &mut writer);
    same(&rt, outcome, Err(ScriptFault::Write));
    same(&rt, writer.calls, 1);
}
