ghost use Rattle.std.specs.Prelude.{◌≡◌, ◌++◌, OnOk};
ghost use Rattle.i3c_wave.specs.Dump.{symbols_dump};
ghost use Rattle.i3c_streams.specs.Outcomes.{PutsOrFails, output};
ghost use Rattle.i3c_cli.specs.Wavings.{GoesLast, IsWaved, after_wire, content_of, line_dump};

use i3c_base::Addresses;
use i3c_frame::Symbol;
use i3c_runner::{Viewer, run_viewed};
use i3c_streams::{ScriptFault, Tally, write_gathered, write_out};
use i3c_text::Text;
use i3c_wave::{Content, Wave, push_script_line, push_script_preamble, push_served};
use std::alloc::{AllocError, Global};
use std::io::{Read, Write};

/// Runs a script, and writes the value change dump (IEEE 1364) of its wire to a writer that it gives back. A full dump has the
/// script's lines too, and what they printed. Legacy targets have these addresses. What lines sent before a fault goes out too.
pub fn wave_script<R: Read, W: Write>(
    alloc: Global,
    legacies: Addresses,
    content: Content,
    reader: &mut R,
    out: W,
) -> (Result<Tally, ScriptFault>, W)
    ensures { IsWaved legacies.0 content (R.remaining reader.old) (W.contents out) (W.contents result.1) result.0 }
{
    let mut text = Text::new(alloc);
    match push_script_preamble(content, &mut text) {
        Ok(()) => {}
        Err(_) => return (Err(ScriptFault::Memory), out),
    }
    let mut waving = Waving {
        legacies,
        wave: Wave::new(content),
        line: Text::new(alloc),
        text,
        out,
    };
    let outcome = run_viewed(alloc, reader, &mut waving);
    let Waving {
        legacies: _,
        wave: _,
        line: _,
        text,
        mut out,
    } = waving;
    let result = write_last(outcome, text.as_bytes(), &mut out);
    (result, out)
}

/// What a dump has.
pub(crate) fn content_of(plain: bool) -> Content
    ensures { result ≡ content_of plain }
{
    if plain { Content::Wires } else { Content::Full }
}

/// The dump of a script that runs, its last bytes gathered, and its part of the line in hand.
struct Waving<W> {
    legacies: Addresses,
    wave: Wave,
    line: Text,
    text: Text,
    out: W,
}

// A line without symbols isn't in the dump.
impl<W: Write> Viewer for Waving<W> {
    ghost use Rattle.i3c_cli.specs.Wavings.{FailsLine, WavesLine, dump_at};

    ghost view_gives = { λ old line printed wire new. WavesLine (dump_at old.legacies.0 old.wave (W.contents old.out) old.text) line printed wire (dump_at new.legacies.0 new.wave (W.contents new.out) new.text) };

    ghost view_fails = { λ old line printed wire fault new. FailsLine (dump_at old.legacies.0 old.wave (W.contents old.out) old.text) line printed wire fault (dump_at new.legacies.0 new.wave (W.contents new.out) new.text) };

    fn view(&mut self, line: &[u8], printed: &[u8], wire: &[Symbol]) -> Result<(), ScriptFault> {
        if wire.is_empty() {
            return Ok(());
        }
        self.line.clear();
        match push_line(
            self.legacies,
            &mut self.wave,
            line,
            printed,
            wire,
            &mut self.line,
        ) {
            Ok(()) => gather(self.line.as_bytes(), &mut self.text, &mut self.out),
            Err(_) => Err(ScriptFault::Memory),
        }
    }
}

/// Appends a line with its symbols, and what it printed where the last of them ends; of a plain dump the symbols alone.
fn push_line(
    legacies: Addresses,
    wave: &mut Wave,
    line: &[u8],
    printed: &[u8],
    wire: &[Symbol],
    text: &mut Text,
) -> Result<(), AllocError>
    ensures text { OnOk result (text.new ≡ text.old ++ line_dump legacies.0 wave.old line.now printed.now wire.now) }
    ensures wave { OnOk result (wave.new ≡ after_wire legacies.0 wave.old wire.now) }
{
    let content = wave.content;
    push_script_line(content, line, text)?;
    push_wire(legacies, wave, wire, text)?;
    push_served(content, printed, text)
}

/// Appends the dump of symbols, one after another.
fn push_wire(
    legacies: Addresses,
    wave: &mut Wave,
    wire: &[Symbol],
    text: &mut Text,
) -> Result<(), AllocError>
    ensures text { OnOk result (text.new ≡ text.old ++ symbols_dump legacies.0 wave.old wire.now) }
    ensures wave { OnOk result (wave.new ≡ after_wire legacies.0 wave.old wire.now) }
{
    let mut rest = wire;
    while let [symbol, more @ ..] = rest {
        wave.push_symbol(legacies, *symbol, text)?;
        rest = more;
    }
    Ok(())
}

/// Gathers the dump of a line, and writes out what is gathered, once it is long enough.
fn gather<W: Write>(dump: &[u8], text: &mut Text, out: &mut W) -> Result<(), ScriptFault>
    ensures { PutsOrFails (output (W.contents out.old) text.old) (output (W.contents out.new) text.new) dump.now result }
{
    match text.push(dump) {
        Ok(()) => write_gathered(text, out),
        Err(_) => Err(ScriptFault::Memory),
    }
}

/// Writes out the gathered output at the end, whatever the result of the lines. But it writes nothing to a writer that
/// failed.
fn write_last<W: Write>(
    outcome: Result<Tally, ScriptFault>,
    gathered: &[u8],
    out: &mut W,
) -> Result<Tally, ScriptFault>
    ensures { GoesLast (W.contents out.old) (W.contents out.new) gathered.now outcome result }
{
    match outcome {
        Err(ScriptFault::Write) => Err(ScriptFault::Write),
        Ok(_) | Err(ScriptFault::Memory | ScriptFault::Read | ScriptFault::TooLarge) => {
            match write_out(gathered, out) {
                Ok(()) => outcome,
                Err(fault) => Err(fault),
            }
        }
    }
}
