use crate::checks::{holds, same, same_in};
use i3c_frame::read_trace;
use i3c_scenario::{ScriptFault, Tally, run_script};
use std::alloc::Global;
use std::io::{ErrorKind, Read, Write};
use std::process::Abort;
use std::{io, str};

mod joining;
mod refused_io;
mod refused_writes;
mod traces;

/// How many bytes a script may have.
const SCRIPT_LENGTH: usize = 1_048_576;

/// The main controller that most scripts begin with.
const HUB: &str = "main hub 020400000001 46 C0\n";

/// What it prints.
const HUB_LINE: &str = "hub slot 0 at 08\n";

/// Runs a script over memory, and gives what it printed and how it ended.
fn run(alloc: Global, script: &[u8]) -> (Vec<u8>, Result<Tally, ScriptFault>) {
    let mut reader = script;
    let mut printed = Vec::new(alloc);
    let outcome = run_script(alloc, &mut reader, &mut printed);
    (printed, outcome)
}

/// The tally of a script with this number of refused lines, and without expectations.
fn tally(refused: u64) -> Tally {
    Tally { refused, unmet: 0 }
}

/// A script prints this, and this number of its lines are refused.
fn prints(rt: &impl Abort, alloc: Global, script: &str, wanted: &str, refused: u64) {
    let (printed, outcome) = run(alloc, script.as_bytes());
    let printed = str::from_utf8(&printed).unwrap_or("no text");
    same_in(rt, script, printed, wanted);
    same_in(rt, script, outcome, Ok(tally(refused)));
}

/// A script that follows the main controller's line prints this after its line.
fn goes_on(rt: &impl Abort, alloc: Global, script: &str, wanted: &str, refused: u64) {
    let script = format!(in alloc; "{HUB}{script}").expect(rt, "memory");
    let wanted = format!(in alloc; "{HUB_LINE}{wanted}").expect(rt, "memory");
    prints(rt, alloc, script.as_str(), wanted.as_str(), refused);
}

/// The last line of an output.
fn last_line<'a>(rt: &impl Abort, printed: &'a [u8]) -> &'a str {
    let text = str::from_utf8(printed).expect(rt, "a text");
    text.lines().last().expect(rt, "a line")
}

/// A device that interrupts with a mandatory byte.
const TARGET: &str = "attach t 020400000010 06 44\n";

/// What it prints as the first device after the main controller, and what `daa` prints then.
const TARGET_LINES: &str = "t slot 1\nassigned 09 020400000010 06 44\ndone\n";

// Its form comes first: a line without one is told so before there is a bus, and after.
#[test]
fn skipped_lines(rt: HostRuntime) {
    let alloc = rt.alloc();
    let script =
        "\n# é\t\r\0\n#\n\n\nattach t\nmain abcdefghijklm012 020400000001 46 C0\n#daa\ndaa\0\ndaa";
    let wanted = "refused BadLine\nabcdefghijklm012 slot 0 at 08\nrefused BadLine\ndone\n";
    prints(&rt, alloc, script, wanted, 2);
    prints(&rt, alloc, "", "", 0);
    let (printed, outcome) = run(alloc, b"#\xFF\x80\ndaa\xFF\n\xC0");
    same(
        &rt,
        printed.as_slice(),
        b"refused BadLine\nrefused BadLine\n".as_slice(),
    );
    same(&rt, outcome, Ok(tally(2)));
}

// A line has at most 256 bytes, a comment too.
#[test]
fn long_lines(rt: HostRuntime) {
    for (first, length, wanted) in [
        ('#', 256, ""),
        ('#', 257, "refused BadLine\n"),
        ('#', 10_000, "refused BadLine\n"),
        ('d', 256, "refused BadLine\n"),
        ('d', 257, "refused BadLine\n"),
    ] {
        let line = long_line(&rt, rt.alloc(), first, length);
        alone_and_not_last(&rt, rt.alloc(), line.as_str(), wanted);
    }
}

/// A line of `length` bytes.
fn long_line(rt: &impl Abort, alloc: Global, first: char, length: usize) -> String {
    let mut line = String::new(alloc);
    line.push(first).expect(rt, "memory");
    for _ in 1..length {
        line.push('a').expect(rt, "memory");
    }
    line
}

/// A line prints this where it is the last one, and where another one follows.
fn alone_and_not_last(rt: &impl Abort, alloc: Global, line: &str, wanted: &str) {
    let (printed, _) = run(alloc, line.as_bytes());
    same_in(rt, line, printed.as_slice(), wanted.as_bytes());
    let script = format!(in alloc; "{line}\ndaa\n").expect(rt, "memory");
    let wanted = format!(in alloc; "{wanted}refused NoBus\n").expect(rt, "memory");
    let (printed, _) = run(alloc, script.as_bytes());
    same_in(rt, line, printed.as_slice(), wanted.as_bytes());
}

/// A script of `length` bytes: comments, and at last a line of four bytes.
fn long_script(rt: &impl Abort, alloc: Global, length: usize) -> Vec<u8> {
    let mut script = Vec::new(alloc);
    for _ in 0..length {
        if script.len() + 4 >= length {
            break;
        }
        script.extend_from_slice(b"#\n").expect(rt, "memory");
    }
    script.extend_from_slice(b"daa\n").expect(rt, "memory");
    script
}

// A line that ends with a script's last allowed byte is run, and one that ends later isn't.
#[test]
fn large_scripts(rt: HostRuntime) {
    let mut script = long_script(&rt, rt.alloc(), SCRIPT_LENGTH);
    same(&rt, script.len(), SCRIPT_LENGTH);
    has_no_bus(&rt, rt.alloc(), &script, Ok(tally(1)));
    script.push(b'#').expect(&rt, "memory");
    has_no_bus(&rt, rt.alloc(), &script, Err(ScriptFault::TooLarge));
    script.remove(0);
    script.extend_from_slice(b"daa\n").expect(&rt, "memory");
    has_no_bus(&rt, rt.alloc(), &script, Err(ScriptFault::TooLarge));
}

/// A script whose last line wants a bus prints that there is none, and ends so.
fn has_no_bus(rt: &impl Abort, alloc: Global, script: &[u8], ending: Result<Tally, ScriptFault>) {
    let (printed, outcome) = run(alloc, script);
    same(rt, printed.as_slice(), b"refused NoBus\n".as_slice());
    same(rt, outcome, ending);
}

/// A reader of these bytes, a few at a time, that fails where they end.
#[derive(Drop)]
struct FailingReader<'a> {
    rest: &'a [u8],
    kind: ErrorKind,
}

impl Read for FailingReader<'_> {
    fn read(&mut self, buf: &mut [u8]) -> io::Result<usize> {
        if self.rest.is_empty() {
            return Err(io::Error::from(self.kind));
        }
        let count = self.rest.len().min(buf.len()).min(5);
        buf[..count].copy_from_slice(&self.rest[..count]);
        self.rest = &self.rest[count..];
        Ok(count)
    }
}

// The lines before a failure are run, and the one that it cuts isn't. An interrupted read is a failure too.
#[test]
fn a_reader_fails(rt: HostRuntime) {
    for kind in [ErrorKind::Other, ErrorKind::Interrupted] {
        let mut reader = FailingReader {
            rest: b"main hub 020400000001 46 C0\ndaa\ndaa",
            kind,
        };
        let mut printed = Vec::new(rt.alloc());
        let outcome = run_script(rt.alloc(), &mut reader, &mut printed);
        same(
            &rt,
            printed.as_slice(),
            b"hub slot 0 at 08\ndone\n".as_slice(),
        );
        same(&rt, outcome, Err(ScriptFault::Read));
    }
}

/// A writer that takes a number of bytes, and then fails or takes nothing.
#[derive(Drop)]
struct FullWriter {
    printed: Vec<u8>,
    room: usize,
    fails: bool,
}

impl Write for FullWriter {
    fn write(&mut self, buf: &[u8]) -> io::Result<usize> {
        if self.room == 0 && self.fails {
            return Err(io::Error::from(ErrorKind::Other));
        }
        let count = self.room.min(buf.len());
        self.printed.extend_from_slice(&buf[..count])?;
        self.room -= count;
        Ok(count)
    }

    fn flush(&mut self) -> io::Result<()> {
        Ok(())
    }
}

#[test]
fn a_writer_fails(rt: HostRuntime) {
    let script =
        b"main hub 020400000001 46 C0\nattach t 020400000010 06 44\nattach t 0\ndaa\nshow\n";
    let whole = run(rt.alloc(), script).0;
    for room in 0..whole.len() {
        for fails in [false, true] {
            let mut reader = script.as_slice();
            let mut writer = FullWriter {
                printed: Vec::new(rt.alloc()),
                room,
                fails,
            };
            let outcome = run_script(rt.alloc(), &mut reader, &mut writer);
            same_in(&rt, room, outcome, Err(ScriptFault::Write));
            same(&rt, writer.printed.as_slice(), &whole[..room]);
        }
    }
}

/// A reader or a writer over memory with one call that fails. Later calls go on as if nothing had been.
#[derive(Drop)]
struct Flaky<'a> {
    rest: &'a [u8],
    printed: Vec<u8>,
    // how many calls are made before the one that fails
    before: u64,
    has_failed: bool,
}

impl<'a> Flaky<'a> {
    fn new(alloc: Global, rest: &'a [u8], before: u64) -> Flaky<'a> {
        Flaky {
            rest,
            printed: Vec::new(alloc),
            before,
            has_failed: false,
        }
    }

    /// Counts a call, and fails if it is the one.
    fn count(&mut self) -> io::Result<()> {
        if self.before == 0 && !self.has_failed {
            self.has_failed = true;
            return Err(io::Error::from(ErrorKind::Other));
        }
        self.before = self.before.saturating_sub(1);
        Ok(())
    }
}

impl Read for Flaky<'_> {
    fn read(&mut self, buf: &mut [u8]) -> io::Result<usize> {
        self.count()?;
        let count = self.rest.len().min(buf.len()).min(7);
        buf[..count].copy_from_slice(&self.rest[..count]);
        self.rest = &self.rest[count..];
        Ok(count)
    }
}

impl Write for Flaky<'_> {
    fn write(&mut self, buf: &[u8]) -> io::Result<usize> {
        self.count()?;
        self.printed.extend_from_slice(buf)?;
        Ok(buf.len())
    }

    fn flush(&mut self) -> io::Result<()> {
        Ok(())
    }
}

/// A script with a line of each form, and refused ones.
const EACH_LINE: &[u8] = b"show\nlegacy eep 50 20\ndeclare 20 020400000030 06 44\n\
    declare 50 020400000031 06 44\nmain hub 020400000001 46 C0\n\
    attach t 020400000010 06 44\nattach t 0\ndaa\nraise t 11\npolicy none\nserve\nenec 01\n\
    policy all\nraise x 11\ndisec 01 09\nenec 01 51\nenec 01 09\nraise t 12\nserve\nshow\nsymbols\n\
    write 50 A5\nread 50\nwrite 09\nread 09\n\
    attach u 020400000011 06 44\nask-join u\ncut u 65535\nserve\nopen\nround\nround\nend\nend\ndrop u\n\
    attach c 020400000020 46 C1\ndaa\nask-role c\nlist\nhandover 0B\n\
    attach s 020400000030 06 44\nsetdasa 20 30\nsetnewda 30 31\nsetdasa 20 3E\nreset\nshow\n";

// Each write that fails alone ends the run, be it a reply's, a refusal's or a part of `show`, though all later ones
// would be taken; nothing is printed after it.
#[test]
fn one_write_fails(rt: HostRuntime) {
    let alloc = rt.alloc();
    let (whole, outcome) = run(alloc, EACH_LINE);
    same(&rt, outcome, Ok(tally(7)));
    let mut failures = 0u64;
    for before in 0..10_000 {
        // it gives seven bytes at a time, and what they print is written before the next
        let mut reader = Flaky::new(alloc, EACH_LINE, u64::MAX);
        let mut writer = Flaky::new(alloc, b"", before);
        let outcome = run_script(alloc, &mut reader, &mut writer);
        if !writer.has_failed {
            same(&rt, outcome, Ok(tally(7)));
            same(&rt, writer.printed.as_slice(), whole.as_slice());
            break;
        }
        failures = before + 1;
        same_in(&rt, before, outcome, Err(ScriptFault::Write));
        let count = writer.printed.len();
        holds(&rt, count < whole.len(), "fewer bytes are printed");
        same(&rt, writer.printed.as_slice(), &whole[..count]);
    }
    // there were writes to fail, one for almost each line that prints
    holds(&rt, failures > 20, "there were writes to fail");
}

// Each read that fails alone ends the run, though later ones would go on; the lines that were read before are run.
#[test]
fn one_read_fails(rt: HostRuntime) {
    let alloc = rt.alloc();
    let (whole, _) = run(alloc, EACH_LINE);
    let mut printed = 0;
    for before in 0..10_000 {
        let mut reader = Flaky::new(alloc, EACH_LINE, before);
        let mut writer = Vec::new(alloc);
        let outcome = run_script(alloc, &mut reader, &mut writer);
        if !reader.has_failed {
            same(&rt, outcome, Ok(tally(7)));
            same(&rt, writer.as_slice(), whole.as_slice());
            break;
        }
        same_in(&rt, before, outcome, Err(ScriptFault::Read));
        let count = writer.len();
        holds(
            &rt,
            printed <= count && count <= whole.len(),
            "no fewer bytes are printed than before",
        );
        same(&rt, writer.as_slice(), &whole[..count]);
        printed = count;
    }
    same(&rt, printed, whole.len());
}

/// The lines of a script that raises and serves `count` interrupts.
fn served(rt: &impl Abort, alloc: Global, count: u64) -> String {
    let mut script = String::new(alloc);
    for number in 1..=count {
        write!(script, "raise t {:02X}\nserve\n", number % 256).expect(rt, "memory");
    }
    script
}

/// What these lines print.
fn served_lines(rt: &impl Abort, alloc: Global, count: u64) -> String {
    let mut wanted = String::new(alloc);
    for number in 1..=count {
        write!(wanted, "raised {number}\nrecorded {number}\n").expect(rt, "memory");
    }
    wanted
}

/// What `show` prints of their records.
fn record_lines(rt: &impl Abort, alloc: Global, count: u64) -> String {
    let mut wanted = String::new(alloc);
    for number in 1..=count {
        let byte = number % 256;
        writeln!(
            wanted,
            "record {number} slot 1 raise {number} at 09 byte {byte:02X}"
        )
        .expect(rt, "memory");
    }
    wanted
}

// Five hundred interrupts are recorded, each under its number.
#[test]
fn many_records(rt: HostRuntime) {
    let alloc = rt.alloc();
    let served = served(&rt, alloc, 500);
    let script = format!(in alloc; "{TARGET}daa\n{served}show\n").expect(&rt, "memory");
    let served = served_lines(&rt, alloc, 500);
    let records = record_lines(&rt, alloc, 500);
    let wanted = format!(in alloc; "{TARGET_LINES}{served}{SHOWN}{records}");
    let wanted = wanted.expect(&rt, "memory");
    goes_on(&rt, alloc, script.as_str(), wanted.as_str(), 0);
}

/// What `show` prints before five hundred records of one device.
const SHOWN: &str = "active 08\nhub 08 waiting 0\nt 09 waiting 0\nrecords 500\n";

// What `symbols` prints of 42 sessions, of six symbols each, is a trace of as many.
#[test]
fn symbols_are_a_trace(rt: HostRuntime) {
    let alloc = rt.alloc();
    let script = sessions(&rt, alloc, 42);
    let (printed, outcome) = run(alloc, script.as_bytes());
    same(&rt, outcome, Ok(tally(0)));
    let symbols = read_trace(alloc, last_line(&rt, &printed)).expect(&rt, "a trace");
    same(&rt, symbols.len(), 252);
}

/// A script of `count` sessions, and then the wire's symbols.
fn sessions(rt: &impl Abort, alloc: Global, count: u64) -> String {
    let mut script = String::from_str(alloc, HUB).expect(rt, "memory");
    for _ in 0..count {
        script.push_str("daa\n").expect(rt, "memory");
    }
    script.push_str("symbols\n").expect(rt, "memory");
    script
}
