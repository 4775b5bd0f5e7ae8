//! Addresses, until none is left.

ghost use Rattle.std.specs.Prelude.{◌<◌};

use crate::checks::holds;
use crate::script::{HUB, HUB_LINE, last_line, prints, run};
use std::alloc::Global;
use std::process::Abort;

/// The usable dynamic address behind the first `before`, from `08` on: `3E`, `5E`, `6E` and `76` are left out.
fn usable_address(before: u8) -> u8
    requires { before < 108 }
{
    match before {
        0..=53 => before + 0x08,
        54..=84 => before + 0x09,
        85..=99 => before + 0x0A,
        100..=106 => before + 0x0B,
        _ => before + 0x0C,
    }
}

/// How many devices get an address before the last one.
const DEVICES: u8 = 106;

/// Devices come to slot 1 one after the other, as a script's lines.
fn coming(rt: &impl Abort, alloc: Global) -> String {
    let mut script = String::new(alloc);
    for number in 1..=DEVICES {
        write!(
            script,
            "attach d 0204000100{number:02X} 06 44\ndaa\ndrop d\n"
        )
        .expect(rt, "memory");
    }
    script
}

/// What these lines print: each gets an address that nobody had before.
fn coming_lines(rt: &impl Abort, alloc: Global) -> String {
    let mut wanted = String::new(alloc);
    for number in 1..=DEVICES {
        let address = usable_address(number);
        write!(
            wanted,
            "d slot 1\nassigned {address:02X} 0204000100{number:02X} 06 44\ndone\ndropped\n"
        )
        .expect(rt, "memory");
    }
    wanted
}

/// The last address is given, and then there is none.
const LAST: &str = "attach d 02040001006B 06 44\nopen\nround\nround\nend\ndrop d\n\
    attach d 02040001006C 06 44\ndaa\nshow\nsymbols\n";

/// Its output, except for the symbols.
const LAST_LINES: &str =
    "d slot 1\nopen\nassigned 77 02040001006B 06 44\nrefused NoAddress\nended\ndropped\n\
    d slot 1\nrefused NoAddress\nactive 08\nhub 08 waiting 0\nd -- waiting 0\nrecords 0\n";

/// The last symbols.
const WIRE: &str = " Sr 7E/R- P S 7E/W+ 07.0 Sr 7E/R+ =02040001006B0644 @EF+ P S 7E/W+ 07.0 P";

// The main controller has the first address, so the 107th device gets the last. From then on no round sends a bit.
#[test]
fn addresses_run_out(rt: HostRuntime) {
    let alloc = rt.alloc();
    let script = all_come(&rt, alloc);
    let lines = coming_lines(&rt, alloc);
    left_out(&rt, lines.as_str());
    let (printed, _) = run(alloc, script.as_bytes());
    let wire = last_line(&rt, &printed);
    holds(&rt, wire.ends_with(WIRE), wire);
    let wanted = format!(in alloc; "{HUB_LINE}{lines}{LAST_LINES}{wire}\n");
    let wanted = wanted.expect(&rt, "memory");
    prints(&rt, alloc, script.as_str(), wanted.as_str(), 2);
}

/// The script in which they come, and the last two.
fn all_come(rt: &impl Abort, alloc: Global) -> String {
    let coming = coming(rt, alloc);
    format!(in alloc; "{HUB}{coming}{LAST}").expect(rt, "memory")
}

/// The addresses of the 53rd and the 54th device are next to one that is left out.
fn left_out(rt: &impl Abort, lines: &str) {
    let is_before = lines.contains("assigned 3D 020400010035 06 44\n");
    holds(rt, is_before, "the 53rd has 3D");
    let is_behind = lines.contains("assigned 3F 020400010036 06 44\n");
    holds(rt, is_behind, "the 54th has 3F");
}
