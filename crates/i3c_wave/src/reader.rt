ghost use Rattle.std.specs.Prelude.{◌≡◌};
ghost use Rattle.i3c_wave.specs.Reading.{shifted};

use crate::awaited::{Awaited, bits_in, next_place, start_in, symbol_in};
use crate::edges::Mark;
use i3c_base::Addresses;
use i3c_frame::Symbol;

/// What one mark makes of the marks before it.
#[derive(Clone, Copy)]
pub enum Reading {
    /// A part of a symbol.
    Partial,
    /// A whole symbol.
    Symbol(Symbol),
    /// A symbol that isn't allowed there. The reader waits for the next frame.
    Misread,
}

/// More than the number of 63 bits.
const HALF: u64 = 1 << 63;

/// Reads symbols from what is heard of the lines.
#[derive(Clone, Copy, Drop)]
pub struct Reader {
    legacies: Addresses,
    /// The awaited symbol, if a frame is open.
    place: Option<Awaited>,
    /// The bits of the awaited symbol that were read, as a number.
    number: u64,
    /// How many bits of the awaited symbol are still to come.
    left: u8,
}

impl Reader {
    ghost use Rattle.std.specs.Prelude.{◌≡◌, None};
    ghost use Rattle.i3c_wave.specs.Reading.{awaiting, bit_turn, entered, framed, is_in_frame, misread, turn};

    /// Outside a frame. Legacy targets have these addresses.
    pub fn new(legacies: Addresses) -> Reader
        ensures { result ≡ awaiting legacies None }
    {
        Reader {
            legacies,
            place: None,
            number: 0,
            left: 0,
        }
    }

    /// Takes the next mark.
    pub fn read(&mut self, mark: Mark) -> Reading
        ensures reading { result ≡ (turn self.old mark).reading }
        ensures reader { self.new ≡ (turn self.old mark).reader }
    {
        match mark {
            Mark::Start => self.frame(start_in(self.place)),
            Mark::Stop => self.frame(Symbol::Stop),
            Mark::Bit(bit) => self.take_bit(bit),
        }
    }

    /// Whether a frame is open.
    pub(crate) fn is_open(&self) -> bool
        ensures { result ≡ is_in_frame self.now.place }
    {
        match self.place {
            Some(_) => true,
            None => false,
        }
    }

    /// Waits for the next START.
    pub(crate) fn wait(&mut self)
        ensures { self.new ≡ awaiting self.old.legacies None }
    {
        self.await_place(None);
    }

    /// Takes a START or a STOP, which comes between symbols.
    fn frame(&mut self, symbol: Symbol) -> Reading
        ensures reading { result ≡ (framed self.old symbol).reading }
        ensures reader { self.new ≡ (framed self.old symbol).reader }
    {
        if self.left == bits_in(self.place) {
            self.enter(symbol)
        } else {
            self.misread()
        }
    }

    /// Takes a bit.
    fn take_bit(&mut self, bit: bool) -> Reading
        ensures reading { result ≡ (bit_turn self.old (shifted self.old.number bit) self.old.left).reading }
        ensures reader { self.new ≡ (bit_turn self.old (shifted self.old.number bit) self.old.left).reader }
    {
        let number = shifted(self.number, bit);
        match self.left {
            0 => self.misread(),
            1 => self.enter(symbol_in(self.place, number)),
            left => {
                self.number = number;
                self.left = left - 1;
                Reading::Partial
            }
        }
    }

    /// Takes a whole symbol.
    fn enter(&mut self, symbol: Symbol) -> Reading
        ensures reading { result ≡ (entered self.old symbol).reading }
        ensures reader { self.new ≡ (entered self.old symbol).reader }
    {
        match next_place(self.legacies, self.place, &symbol) {
            Some(place) => {
                self.await_place(place);
                Reading::Symbol(symbol)
            }
            None => self.misread(),
        }
    }

    /// Answers that the frame is misread, and waits for the next START.
    fn misread(&mut self) -> Reading
        ensures reading { result ≡ (misread self.old).reading }
        ensures reader { self.new ≡ (misread self.old).reader }
    {
        self.wait();
        Reading::Misread
    }

    /// Begins to read the next awaited symbol.
    fn await_place(&mut self, place: Option<Awaited>)
        ensures { self.new ≡ awaiting self.old.legacies place }
    {
        self.place = place;
        self.number = 0;
        self.left = bits_in(place);
    }
}

/// A number with one more bit.
fn shifted(number: u64, bit: bool) -> u64
    ensures { result ≡ shifted number bit }
{
    let room = number % HALF * 2;
    if bit { room + 1 } else { room }
}
