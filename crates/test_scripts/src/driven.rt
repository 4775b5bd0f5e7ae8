use crate::checks::same;
use i3c_drive::run_driven;
use i3c_scenario::Tally;
use i3c_streams::Form;
use std::io;
use std::io::Write;

/// A writer that keeps nothing. It counts its flushes, and the bytes that it was given behind the last one.
#[derive(Drop)]
struct CountedFlushes {
    flushes: u64,
    unflushed: usize,
}

impl Write for CountedFlushes {
    fn write(&mut self, buf: &[u8]) -> io::Result<usize> {
        self.unflushed = self.unflushed.saturating_add(buf.len());
        Ok(buf.len())
    }

    fn flush(&mut self) -> io::Result<()> {
        self.flushes = self.flushes.saturating_add(1);
        self.unflushed = 0;
        Ok(())
    }
}

// A caller whose writer keeps bytes back sees each answer before it sends the next line.
#[test]
fn each_answer_is_flushed(rt: HostRuntime) {
    for form in [Form::Lines, Form::Json] {
        let mut reader = b"main hub 020400000001 46 C0\n# a comment\nbad\nserve\n".as_slice();
        let mut writer = CountedFlushes {
            flushes: 0,
            unflushed: 0,
        };
        let outcome = run_driven(rt.alloc(), form, &mut reader, &mut writer);
        let tally = Tally {
            refused: 1,
            unmet: 0,
        };
        same(&rt, outcome, Ok(tally));
        same(&rt, writer.flushes, 4);
        same(&rt, writer.unflushed, 0);
    }
}
