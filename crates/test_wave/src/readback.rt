use i3c_base::{Addr7, Addresses};
use i3c_frame::{Symbol, TraceFault, read_trace};
use i3c_text::read_byte;
use i3c_wave::{Edges, Levels, Reader, Reading};
use std::io::{Read, Write};
use std::rt::Env;
use std::{env, io};
use thiserror::Error;

/// Why a trace couldn't be read back.
#[derive(Debug, Drop, Error)]
pub(crate) enum Fault {
    #[error("{0}")]
    Io(io::Error),
    #[error("{0}")]
    Trace(TraceFault),
}

impl From<io::Error> for Fault {
    fn from(error: io::Error) -> Fault {
        Fault::Io(error)
    }
}

impl From<TraceFault> for Fault {
    fn from(fault: TraceFault) -> Fault {
        Fault::Trace(fault)
    }
}

/// Prints the symbols that are read of the levels of a trace.
pub(crate) fn print_read_back<R>(rt: &R) -> Result<(), Fault>
where
    R: Env + Input + Print + AllocGlobal,
{
    let legacies = legacies_given(rt)?;
    let mut text = String::new(rt.alloc());
    rt.reader().read_to_string(&mut text)?;
    let trace = read_trace(rt.alloc(), &text)?;
    let mut edges = Edges::new();
    let mut reader = Reader::new(legacies);
    let mut printed = io::writer(rt);
    for symbol in &trace {
        print_symbol(*symbol, &mut edges, &mut reader, &mut printed)?;
    }
    Ok(printed.flush()?)
}

/// The addresses of legacy targets that were given.
fn legacies_given<R: Env + AllocGlobal>(rt: &R) -> Result<Addresses, Fault> {
    let mut legacies = Addresses::new();
    for word in env::args(rt)?.skip(1) {
        if let Some(address) = address_of(word.as_bytes()) {
            legacies = legacies.with(address);
        }
    }
    Ok(legacies)
}

/// The address of two hex digits.
fn address_of(digits: &[u8]) -> Option<Addr7> {
    let [high, low] = digits else {
        return None;
    };
    Addr7::new(read_byte(*high, *low)?).ok()
}

/// Prints what is read of the levels of a symbol.
fn print_symbol<W: Write>(
    symbol: Symbol,
    edges: &mut Edges,
    reader: &mut Reader,
    printed: &mut W,
) -> Result<(), Fault> {
    let mut levels = Levels::new(symbol);
    while let Some(level) = levels.next() {
        if let Some(mark) = edges.hear(level) {
            match reader.read(mark) {
                Reading::Partial => {}
                Reading::Symbol(symbol) => writeln!(printed, "{symbol}")?,
                Reading::Misread => writeln!(printed, "misread")?,
            }
        }
    }
    Ok(())
}
