ghost use Rattle.std.specs.Prelude.{◌≡◌, ◌++◌, ◌-◌, OnOk, codes, slice_get};
ghost use Rattle.i3c_monitor.specs.LintLines.{address_text, breach_text, faults_text, place_text, symbol_text};

use crate::lint_fault::{Breach, LintFault};
use crate::printing::{push_address, push_number};
use crate::report::Report;
use i3c_base::Addr7;
use i3c_frame::Symbol;
use i3c_text::Text;
use i3c_wave::FrameMark;
use std::alloc::AllocError;

impl Report {
    ghost use Rattle.std.specs.Prelude.{◌≡◌, ◌++◌, OnOk};
    ghost use Rattle.i3c_monitor.specs.LintLines.{report_text};

    /// Appends its lines to a text, of this trace, whose frames have these marks, as far as these go.
    pub fn push(
        &self,
        trace: &[Symbol],
        marks: &[FrameMark],
        text: &mut Text,
    ) -> Result<(), AllocError>
        ensures { OnOk result (text.new ≡ text.old ++ report_text trace.now marks.now self.now) }
    {
        match self {
            Report::Decoded(decoded) => decoded.push(trace, marks, text),
            Report::Faults(faults) => push_faults(faults, trace, text),
        }
    }
}

/// Appends the lines of faults.
fn push_faults(faults: &[LintFault], trace: &[Symbol], text: &mut Text) -> Result<(), AllocError>
    ensures { OnOk result (text.new ≡ text.old ++ faults_text trace.now faults.now) }
{
    let mut rest = faults;
    while let [fault, more @ ..] = rest {
        fault.push(trace, text)?;
        rest = more;
    }
    Ok(())
}

impl LintFault {
    ghost use Rattle.std.specs.Prelude.{◌≡◌, ◌++◌, OnOk};
    ghost use Rattle.i3c_monitor.specs.LintLines.{fault_line};

    /// Appends its line to a text, of this trace.
    pub fn push(&self, trace: &[Symbol], text: &mut Text) -> Result<(), AllocError>
        ensures { OnOk result (text.new ≡ text.old ++ fault_line trace.now self.now) }
    {
        push_place(self.frame, self.symbol, trace, text)?;
        push_breach(&self.breach, text)?;
        text.end()
    }
}

/// Appends a frame and a symbol of a trace.
fn push_place(
    frame: usize,
    symbol: usize,
    trace: &[Symbol],
    text: &mut Text,
) -> Result<(), AllocError>
    ensures { OnOk result (text.new ≡ text.old ++ place_text trace.now frame symbol) }
{
    push_number(b"frame ", frame, text)?;
    push_number(b": symbol ", symbol, text)?;
    push_quoted(symbol_at(trace, symbol), text)
}

/// The symbol of this number, counted from 1.
fn symbol_at(trace: &[Symbol], number: usize) -> Option<Symbol>
    ensures { result ≡ slice_get trace.now (number - 1) }
{
    match trace.get(number.saturating_sub(1)) {
        Some(symbol) => Some(*symbol),
        None => None,
    }
}

/// Appends the text of a symbol, in quotes.
fn push_quoted(symbol: Option<Symbol>, text: &mut Text) -> Result<(), AllocError>
    ensures { OnOk result (text.new ≡ text.old ++ (codes " '" ++ (symbol_text symbol ++ codes "': "))) }
{
    text.push(b" '")?;
    if let Some(symbol) = symbol {
        symbol.push(text)?;
    }
    text.push(b"': ")
}

/// Appends why a symbol is a fault.
fn push_breach(breach: &Breach, text: &mut Text) -> Result<(), AllocError>
    ensures { OnOk result (text.new ≡ text.old ++ breach_text breach.now) }
{
    match breach {
        Breach::Nobody(address) => push_address(b"nobody was given ", *address, text),
        Breach::Silent(address, since) => {
            text.push_byte(address.get())?;
            push_number(b" gave no answer at symbol ", *since, text)
        }
        Breach::Twice(address) => push_said(*address, b" is another's", text),
        Breach::Unanswered => text.push(b"nobody answered"),
        Breach::Stray => text.push(b"no Sr before it"),
        Breach::Surplus => text.push(b"its command takes no more"),
        Breach::Ended => text.push(b"T 0 before it"),
        Breach::Parity => text.push(b"wrong parity"),
    }
}

/// Appends an address, and what is said of it.
fn push_said(address: Addr7, words: &[u8], text: &mut Text) -> Result<(), AllocError>
    ensures { OnOk result (text.new ≡ text.old ++ address_text address words.now) }
{
    text.push_byte(address.get())?;
    text.push(words)
}
