ghost use Rattle.std.specs.Prelude.{◌≡◌, ◌==◌, ◌-◌, drop, length, position, slice_get, take};
ghost use Rattle.std.specs.Option.{option_and_then};
ghost use Rattle.i3c_wave.specs.Signals.{base_from, base_len, base_of, bit_asked, bit_of_signal, bit_offset, is_named, range_at_end, range_in, range_of, range_or, range_with, source_with};

use crate::capture_fault::CaptureFault;
use crate::dump_word::{Code, is_word, number_of};
use i3c_text::Text;
use std::alloc::{AllocError, Global};
use std::marker::Model;
use std::{fmt, mem, str};

/// The names of the signals that a capture declares, each on a line of its own.
#[derive(Drop)]
pub struct SignalNames {
    lines: Text,
}

impl Model for SignalNames {
    ghost use Rattle.std.specs.Prelude.{ℕ, List};

    ghost Value = { List ℕ };

    ghost view = { λ names. names.lines };
}

/// Where the level of a line is: the code of its signal, and the bit in the signal's values, counted from the last.
#[derive(Clone, Copy)]
pub(crate) struct LineSource {
    pub code: Code,
    pub bit: u64,
}

/// The numbers of a vector's first bit and of its last.
#[derive(Clone, Copy)]
pub(crate) struct BitRange {
    pub first: u64,
    pub last: u64,
}

/// The signals that a dump has declared so far, and the scopes that are open.
#[derive(Drop)]
pub(crate) struct Signals {
    alloc: Global,
    /// The names of the open scopes, each with a dot behind it.
    path: Vec<u8>,
    /// For each open scope, the length of the path before it.
    scopes: Vec<usize>,
    /// The name of the signal that is declared, as far as it was read.
    name: Text,
    names: SignalNames,
}

impl Model for Signals {
    ghost use Rattle.i3c_wave.specs.Declarations.{Declarations};

    ghost Value = { Declarations };

    ghost view = { λ s. record { path = s.path.items; scopes = s.scopes.items; name = s.name; names = s.names } };
}

impl SignalNames {
    ghost use Rattle.std.specs.Prelude.{◌≡◌, [], ◌∷◌, ◌++◌, codes, OnOk};

    /// Nothing yet.
    pub(crate) fn new(alloc: Global) -> SignalNames
        ensures { result ≡ [] }
    {
        SignalNames {
            lines: Text::new(alloc),
        }
    }

    /// Appends a line with the name of a signal in its scopes.
    fn push(&mut self, path: &[u8], name: &[u8]) -> Result<(), AllocError>
        ensures { OnOk result (self.new ≡ self.old ++ (codes "\n    " ++ (path.now ++ name.now))) }
    {
        self.lines.push(b"\n    ")?;
        self.lines.push(path)?;
        self.lines.push(name)
    }
}

impl fmt::Display for SignalNames {
    fn fmt<W: fmt::Write>(&self, f: &mut fmt::Formatter<W>) -> fmt::Result {
        match str::from_utf8(self.lines.as_bytes()) {
            Ok(lines) => f.write_str(lines),
            Err(_) => f.write_str("\n    names that are no text"),
        }
    }
}

impl fmt::Debug for SignalNames {
    fn fmt<W: fmt::Write>(&self, f: &mut fmt::Formatter<W>) -> fmt::Result {
        match str::from_utf8(self.lines.as_bytes()) {
            Ok(lines) => f.write_str(lines),
            Err(_) => Ok(()),
        }
    }
}

impl Signals {
    ghost use Rattle.std.specs.Prelude.{◌≡◌, [], ◌∷◌, ◌++◌};
    ghost use Rattle.i3c_wave.specs.Signals.{Grown, entered, left, listed, named_on, no_signals, scope_named, source_in};

    /// Before the first declaration.
    pub fn new(alloc: Global) -> Signals
        ensures { result ≡ no_signals }
    {
        Signals {
            alloc,
            path: Vec::new(alloc),
            scopes: Vec::new(alloc),
            name: Text::new(alloc),
            names: SignalNames::new(alloc),
        }
    }

    /// A scope begins.
    pub fn enter(&mut self) -> Result<(), CaptureFault>
        ensures { Grown (entered self.old) self.new result }
    {
        match self.scopes.push(self.path.len()) {
            Ok(()) => Ok(()),
            Err(_) => Err(CaptureFault::Memory),
        }
    }

    /// The scope that began last has this name.
    pub fn name_scope(&mut self, word: &[u8]) -> Result<(), CaptureFault>
        ensures { Grown (scope_named self.old word.now) self.new result }
    {
        match self.path.extend_from_slice(word) {
            Ok(()) => self.push_dot(),
            Err(_) => Err(CaptureFault::Memory),
        }
    }

    /// Appends a dot to the path.
    fn push_dot(&mut self) -> Result<(), CaptureFault>
        ensures { Grown (record self.old { path = self.old.path ++ 46 ∷ [] }) self.new result }
    {
        match self.path.push(b'.') {
            Ok(()) => Ok(()),
            Err(_) => Err(CaptureFault::Memory),
        }
    }

    /// The scope that began last ends, if there is one.
    pub fn leave(&mut self)
        ensures { self.new ≡ left self.old }
    {
        let before = match self.scopes.last() {
            Some(before) => *before,
            None => return,
        };
        self.path.truncate(before);
        self.scopes.truncate(self.scopes.len() - 1);
    }

    /// Another word of the name of the signal that is declared.
    pub fn push_name(&mut self, word: &[u8]) -> Result<(), CaptureFault>
        ensures { Grown (named_on self.old word.now) self.new result }
    {
        match self.name.push(word) {
            Ok(()) => Ok(()),
            Err(_) => Err(CaptureFault::Memory),
        }
    }

    /// The signal that is declared is listed, and another may be.
    pub fn list(&mut self) -> Result<(), CaptureFault>
        ensures { Grown (listed self.old) self.new result }
    {
        match self.names.push(&self.path, self.name.as_bytes()) {
            Ok(()) => {
                self.name.clear();
                Ok(())
            }
            Err(_) => Err(CaptureFault::Memory),
        }
    }

    /// The names of all signals, which are taken out.
    pub fn take_names(&mut self) -> SignalNames
        ensures { result ≡ self.old.names }
    {
        mem::replace(&mut self.names, SignalNames::new(self.alloc))
    }

    /// The signal that is declared, of this code and this width, as the source of a line that has this name.
    pub fn source(
        &self,
        wanted: &[u8],
        code: Option<Code>,
        width: Option<u64>,
    ) -> Option<LineSource>
        ensures { result ≡ source_in self.now wanted.now code width }
    {
        let name = self.name.as_bytes();
        if is_named(&self.path, base_of(name), base_of(wanted)) {
            source_with(code, bit_of_width(name, wanted, width))
        } else {
            None
        }
    }
}

/// The bit of a signal of this width that a name asks for.
fn bit_of_width(name: &[u8], wanted: &[u8], width: Option<u64>) -> Option<u64>
    ensures { result ≡ option_and_then (bit_of_signal name.now wanted.now) width }
{
    match width {
        Some(width) => bit_of_signal(name, wanted, width),
        None => None,
    }
}

/// The same, where the width is a number.
fn bit_of_signal(name: &[u8], wanted: &[u8], width: u64) -> Option<u64>
    ensures { result ≡ bit_of_signal name.now wanted.now width }
{
    bit_asked(
        range_at_end(wanted),
        range_or(range_at_end(name), width),
        width,
    )
}

/// A bit of a signal of this code.
fn source_with(code: Option<Code>, bit: Option<u64>) -> Option<LineSource>
    ensures { result ≡ source_with code bit }
{
    match (code, bit) {
        (Some(code), Some(bit)) => Some(LineSource { code, bit }),
        _ => None,
    }
}

/// Whether a name is that of a signal, with its scopes or without.
fn is_named(path: &[u8], base: &[u8], wanted: &[u8]) -> bool
    ensures { result ≡ is_named path.now base.now wanted.now }
{
    is_word(wanted, base)
        || is_word(front(wanted, path.len()), path) && is_word(back(wanted, path.len()), base)
}

/// The first bytes of a text, or all.
fn front(text: &[u8], count: usize) -> &[u8]
    ensures { result.now ≡ take count text.now }
{
    if text.len() > count {
        &text[..count]
    } else {
        text
    }
}

/// The bytes behind these.
fn back(text: &[u8], count: usize) -> &[u8]
    ensures { result.now ≡ drop count text.now }
{
    if text.len() > count {
        &text[count..]
    } else {
        b""
    }
}

/// The bits of a signal of this width, which are numbered down to 0 where it doesn't say otherwise.
fn range_or(range: Option<BitRange>, width: u64) -> BitRange
    ensures { result ≡ range_or range width }
{
    match range {
        Some(range) => range,
        None => BitRange {
            first: width.saturating_sub(1),
            last: 0,
        },
    }
}

/// The bit that is asked for: a signal of one bit is named without it.
fn bit_asked(asked: Option<BitRange>, range: BitRange, width: u64) -> Option<u64>
    ensures { result ≡ bit_asked asked range width }
{
    match asked {
        None if width == 1 => Some(0),
        None => None,
        Some(asked) if asked.first == asked.last => bit_offset(range, asked.first),
        Some(_) => None,
    }
}

/// Where a bit is in a range, counted from the last.
fn bit_offset(range: BitRange, bit: u64) -> Option<u64>
    ensures { result ≡ bit_offset range bit }
{
    if range.first < range.last {
        if bit < range.first || range.last < bit {
            None
        } else {
            Some(range.last - bit)
        }
    } else if bit < range.last || range.first < bit {
        None
    } else {
        Some(bit - range.last)
    }
}

/// A name without the range at its end.
fn base_of(name: &[u8]) -> &[u8]
    ensures { result.now ≡ base_of name.now }
{
    match range_at_end(name) {
        Some(_) => front(name, base_len(name)),
        None => name,
    }
}

/// The range at the end of a name, if it has one.
fn range_at_end(name: &[u8]) -> Option<BitRange>
    ensures { result ≡ range_at_end name.now }
{
    range_of(back(name, base_len(name)), last_of(name))
}

/// The last byte of a name.
fn last_of(name: &[u8]) -> Option<u8>
    ensures { result ≡ slice_get name.now (length name.now - 1) }
{
    match name.last() {
        Some(last) => Some(*last),
        None => None,
    }
}

/// The length of a name up to its last bracket.
fn base_len(name: &[u8]) -> usize
    ensures { result ≡ base_len name.now }
{
    let mut base = name.len();
    let mut count = 0;
    let mut rest = name;
    while let [byte, more @ ..] = rest {
        if *byte == b'[' {
            base = count;
        }
        count += 1;
        rest = more;
    }
    base
}

/// The range that a text in brackets is, if it is one.
fn range_of(text: &[u8], last: Option<u8>) -> Option<BitRange>
    ensures { result ≡ range_of text.now last }
{
    match last {
        Some(b']') if text.len() > 1 => range_in(&text[1..text.len() - 1]),
        _ => None,
    }
}

/// A bit alone, or the bits from one to another.
fn range_in(inner: &[u8]) -> Option<BitRange>
    ensures { result ≡ range_in inner.now }
{
    match colon_in(inner) {
        None => {
            let bit = number_of(inner)?;
            Some(BitRange {
                first: bit,
                last: bit,
            })
        }
        Some(colon) => {
            let first = number_of(front(inner, colon))?;
            let last = number_of(back(inner, colon + 1))?;
            Some(BitRange { first, last })
        }
    }
}

/// Where the first colon is.
fn colon_in(inner: &[u8]) -> Option<usize>
    ensures { result ≡ position (λ byte. byte == 58) inner.now }
{
    inner.iter().position(|byte| *byte == b':')
}
