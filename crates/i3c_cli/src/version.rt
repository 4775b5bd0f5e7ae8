use crate::fault::Fault;
use crate::output::Output;
use i3c_streams::Tally;
use std::io::Write;
use std::rt::Files;

/// The version, as CHANGELOG.md calls it.
const VERSION: &str = "0.1.0, not yet released";

/// A commit that these sources have in their past. A program can't name its own: the toolchain doesn't know it when it
/// builds. tests/readme looks for it in the history.
const COMMIT: &str = "0863153";

/// The toolchain that proved it, as README.md names it. tests/readme compares the two.
const KIT: &str = "rattle-kit-13f logic dac8208d650f15bf";

/// Prints which program this is.
pub fn print_version<R: Files + Print + AllocGlobal>(rt: &R) -> Result<Tally, Fault> {
    let mut printed = Output::new(rt)?;
    match writeln!(
        printed,
        "i3cbus {VERSION}\ncommit {COMMIT} or later\nkit {KIT}"
    ) {
        Ok(()) => Ok(Tally {
            refused: 0,
            unmet: 0,
        }),
        Err(_) => Err(Fault::Write),
    }
}
