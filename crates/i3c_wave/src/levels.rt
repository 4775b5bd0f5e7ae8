ghost use Rattle.std.specs.Prelude.{◌≡◌, ◌<◌, ◌≤◌, [], ◌∷◌, ◌++◌, not, IsSome};
ghost use Rattle.std.specs.List.{slice_get};
ghost use Rattle.i3c_wave.specs.Levels.{bits, bits_of, clocked, levels_of};

use i3c_frame::Symbol;

/// One of the two lines of a bus.
#[derive(Clone, Copy)]
pub enum Line {
    /// The clock, SCL.
    Scl,
    /// The data, SDA.
    Sda,
}

/// What the two lines are at between two changes: `true` is high (I3C Basic 5.1.2).
#[derive(Clone, Copy)]
pub struct Level {
    pub scl: bool,
    pub sda: bool,
}

/// How many bits the identity of a device has: its PID, its BCR and its DCR (I3C Basic 5.1.4.2).
const IDENTITY_BITS: usize = 64;

/// How many bits an address has (I3C Basic 5.1.2.2).
const ADDRESS_BITS: usize = 7;

/// How many bits a byte has (I3C Basic 5.1.2.3).
const BYTE_BITS: usize = 8;

/// A START: SDA falls while SCL is high (I3C Basic 5.1.2).
static START: [Level; 1] = [Level {
    scl: true,
    sda: false,
}];

/// A repeated START: SDA rises while SCL is low, and falls while it is high.
static REPEATED: [Level; 3] = [
    Level {
        scl: false,
        sda: true,
    },
    Level {
        scl: true,
        sda: true,
    },
    Level {
        scl: true,
        sda: false,
    },
];

/// A STOP: SDA falls while SCL is low, and rises while it is high.
static STOP: [Level; 3] = [
    Level {
        scl: false,
        sda: false,
    },
    Level {
        scl: true,
        sda: false,
    },
    Level {
        scl: true,
        sda: true,
    },
];

/// The levels of a symbol, one after another.
#[derive(Clone, Copy, Drop)]
pub struct Levels {
    symbol: Symbol,
    /// How many of its levels have been given.
    index: usize,
}

impl Levels {
    ghost use Rattle.std.specs.Prelude.{◌≡◌};
    ghost use Rattle.i3c_wave.specs.Levels.{levels_left, levels_of};

    /// All levels of a symbol.
    pub fn new(symbol: Symbol) -> Levels
        ensures { levels_left result ≡ levels_of symbol }
    {
        Levels { symbol, index: 0 }
    }
}

impl Iterator for Levels {
    ghost use Rattle.std.specs.Iterator.{YieldsFirst, item_count};
    ghost use Rattle.i3c_wave.specs.Levels.{levels_left};

    type Item = Level;

    ghost next_gives = { YieldsFirst levels_left };

    ghost remaining = { item_count levels_left };

    fn next(&mut self) -> Option<Level> {
        let level = level_at(&self.symbol, self.index)?;
        self.index += 1;
        Some(level)
    }
}

/// The level of a symbol with this number, counted from 0, if it has one.
fn level_at(symbol: &Symbol, index: usize) -> Option<Level>
    ensures level { result ≡ slice_get (levels_of symbol.now) index }
    ensures bound { IsSome result → index < 128 }
{
    match symbol {
        Symbol::Start => START.get(index).copied(),
        Symbol::Repeated => REPEATED.get(index).copied(),
        Symbol::Stop => STOP.get(index).copied(),
        _ => clocked_level(symbol, index),
    }
}

/// The level of a symbol of bits: each has two, the first while SCL is low.
fn clocked_level(symbol: &Symbol, index: usize) -> Option<Level>
    ensures level { result ≡ slice_get (clocked (bits_of symbol.now)) index }
    ensures bound { IsSome result → index < 128 }
{
    let sda = bit_of(symbol, index / 2)?;
    Some(Level {
        scl: index % 2 == 1,
        sda,
    })
}

/// The bit of a symbol with this number, counted from 0 as they are sent, if it has one.
fn bit_of(symbol: &Symbol, index: usize) -> Option<bool>
    ensures bit { result ≡ slice_get (bits_of symbol.now) index }
    ensures bound { IsSome result → index < 64 }
{
    match *symbol {
        Symbol::Header { address, read, ack } => header_bit(address.get(), read, ack, index),
        Symbol::Word(word) => byte_bit(word.byte, word.t, index),
        Symbol::Identity(number) => number_bit(number, IDENTITY_BITS, index),
        Symbol::AddressByte { byte, ack } => byte_bit(byte, !ack, index),
        Symbol::LegacyWord { byte, ack } => byte_bit(byte, !ack, index),
        Symbol::Start | Symbol::Repeated | Symbol::Stop => None,
    }
}

/// A bit of a header: its address, its direction, and its answer, which is 0 for an ACK (I3C Basic 5.1.2.2).
fn header_bit(address: u8, read: bool, ack: bool, index: usize) -> Option<bool>
    ensures bit { result ≡ slice_get (bits 7 address ++ (read ∷ not ack ∷ [])) index }
    ensures bound { IsSome result → index < 64 }
{
    if index == ADDRESS_BITS {
        Some(read)
    } else if index == ADDRESS_BITS + 1 {
        Some(!ack)
    } else {
        number_bit(u64::from(address), ADDRESS_BITS, index)
    }
}

/// A bit of a byte or the ninth bit behind it.
fn byte_bit(byte: u8, ninth: bool, index: usize) -> Option<bool>
    ensures bit { result ≡ slice_get (bits 8 byte ++ ninth ∷ []) index }
    ensures bound { IsSome result → index < 64 }
{
    if index == BYTE_BITS {
        Some(ninth)
    } else {
        number_bit(u64::from(byte), BYTE_BITS, index)
    }
}

/// One of the `count` bits of a number, which are sent the most significant first.
fn number_bit(number: u64, count: usize, index: usize) -> Option<bool>
    requires { count ≤ 64 }
    ensures bit { result ≡ slice_get (bits count number) index }
    ensures bound { IsSome result → index < count }
{
    if index < count {
        Some((number >> (count - 1 - index)) % 2 == 1)
    } else {
        None
    }
}
