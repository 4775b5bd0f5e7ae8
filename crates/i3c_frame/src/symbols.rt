ghost use Rattle.std.specs.Prelude.{◌≡◌, ◌≤◌, length, Bool, [], ◌∷◌, ◌++◌, codes, Some, IfSome, IsSome};
ghost use Rattle.std.specs.Fmt.{WritesOnOk};
ghost use Rattle.i3c_frame.specs.Texts.{FindsSymbol, HasText, IsInRange, answer_text, direction_text, t_text, text_of};
ghost use Rattle.i3c_text.specs.Hex.{hex_text};

use i3c_base::Addr7;
use i3c_text::{read_byte, read_digits, write_digits};
use i3c_word::Word;
use std::fmt;

/// Begins the text of an address byte.
pub(crate) const AT_SIGN: u8 = b'@';

/// Begins the text of an identity.
pub(crate) const EQUALS: u8 = b'=';

/// Stands before a direction.
pub(crate) const SLASH: u8 = b'/';

/// Stands before a T bit.
pub(crate) const DOT: u8 = b'.';

/// The address that every I3C device hears (I3C Basic 5.1.2.2.1).
const BROADCAST: u8 = 0x7E;

/// What is seen on the wire, one symbol after another. Each has one text, which `Display` writes. Digits are upper case
/// hexadecimal.
#[derive(Clone, Copy, Debug, PartialEq, Eq)]
pub enum Symbol {
    /// START: `S` (I3C Basic 5.1.2).
    Start,
    /// Repeated START: `Sr`.
    Repeated,
    /// STOP: `P`.
    Stop,
    /// A header, and whether it was acknowledged: `7E/W+` (I3C Basic 5.1.2.2).
    Header {
        address: Addr7,
        read: bool,
        ack: bool,
    },
    /// A byte and its T bit: `07.0` (I3C Basic 5.1.2.3).
    Word(Word),
    /// The 48 bits of a PID, a BCR and a DCR, as a round reads them: `=0204000000100644` (I3C Basic 5.1.4.2).
    Identity(u64),
    /// The byte that gives an address in a round, and whether it was acknowledged: `@13+`.
    AddressByte {
        byte: u8,
        ack: bool,
    },
    /// A byte of a legacy I2C target, and whether it was acknowledged: `01+`.
    LegacyWord {
        byte: u8,
        ack: bool,
    },
}

impl Symbol {
    ghost use Rattle.i3c_frame.specs.declared.symbols.Symbol.{Symbol as SymbolValue};

    /// A header of the broadcast address, which every I3C device hears (I3C Basic 5.1.2.2.1).
    pub fn broadcast(read: bool, ack: bool) -> Symbol
        ensures { result ≡ SymbolValue.Header 0x7E read ack }
    {
        let address = Addr7::new(BROADCAST).unwrap();
        Symbol::Header { address, read, ack }
    }
}

impl fmt::Display for Symbol {
    ghost output = { λ symbol. Some (text_of symbol) };

    fn fmt<W: fmt::Write>(&self, f: &mut fmt::Formatter<W>) -> fmt::Result {
        match *self {
            Symbol::Start => f.write_str("S"),
            Symbol::Repeated => f.write_str("Sr"),
            Symbol::Stop => f.write_str("P"),
            Symbol::Header { address, read, ack } => write_header(f, address, read, ack),
            Symbol::Word(word) => write_word(f, word),
            Symbol::Identity(bits) => write_identity(f, bits),
            Symbol::AddressByte { byte, ack } => write_address_byte(f, byte, ack),
            Symbol::LegacyWord { byte, ack } => write_legacy_word(f, byte, ack),
        }
    }
}

/// Writes a header: an address, a direction and an answer.
fn write_header<W: fmt::Write>(
    f: &mut fmt::Formatter<W>,
    address: Addr7,
    read: bool,
    ack: bool,
) -> fmt::Result
    ensures { WritesOnOk W.write_str_gives f.old result (hex_text 2 address ++ (direction_text read ++ answer_text ack)) f.new }
{
    write_digits(f, u64::from(address.get()), 2)?;
    f.write_str(direction(read))?;
    f.write_str(answer(ack))
}

/// Writes a word: a byte and its T bit.
fn write_word<W: fmt::Write>(f: &mut fmt::Formatter<W>, word: Word) -> fmt::Result
    ensures { WritesOnOk W.write_str_gives f.old result (hex_text 2 word.byte ++ t_text word.t) f.new }
{
    write_digits(f, u64::from(word.byte), 2)?;
    f.write_str(t_bit(word.t))
}

/// Writes the bits of an identity: an equals sign and 16 digits.
fn write_identity<W: fmt::Write>(f: &mut fmt::Formatter<W>, bits: u64) -> fmt::Result
    ensures { WritesOnOk W.write_str_gives f.old result (codes "=" ++ hex_text 16 bits) f.new }
{
    f.write_str("=")?;
    write_digits(f, bits, 16)
}

/// Writes an address byte of a round, and its answer.
fn write_address_byte<W: fmt::Write>(f: &mut fmt::Formatter<W>, byte: u8, ack: bool) -> fmt::Result
    ensures { WritesOnOk W.write_str_gives f.old result (codes "@" ++ (hex_text 2 byte ++ answer_text ack)) f.new }
{
    f.write_str("@")?;
    write_legacy_word(f, byte, ack)
}

/// Writes a byte of a legacy target, and its answer.
fn write_legacy_word<W: fmt::Write>(f: &mut fmt::Formatter<W>, byte: u8, ack: bool) -> fmt::Result
    ensures { WritesOnOk W.write_str_gives f.old result (hex_text 2 byte ++ answer_text ack) f.new }
{
    write_digits(f, u64::from(byte), 2)?;
    f.write_str(answer(ack))
}

/// How a header's direction is written.
pub(crate) fn direction(read: bool) -> &'static str
    ensures { result.now ≡ direction_text read }
{
    if read { "/R" } else { "/W" }
}

/// How an answer is written: ACK or NACK.
pub(crate) fn answer(ack: bool) -> &'static str
    ensures { result.now ≡ answer_text ack }
{
    if ack { "+" } else { "-" }
}

/// How a T bit is written.
pub(crate) fn t_bit(t: bool) -> &'static str
    ensures { result.now ≡ t_text t }
{
    if t { ".1" } else { ".0" }
}

/// The symbol of a text, if there is one.
pub(crate) fn read_symbol(text: &[u8]) -> Option<Symbol>
    ensures text { IfSome result (HasText text.now) }
    ensures range { IfSome result IsInRange }
    ensures every { FindsSymbol text.now result }
{
    match text {
        [letter] => read_letter(*letter),
        [first, second] => read_pair(*first, *second),
        [high, low, ack] => read_legacy_word(*high, *low, *ack),
        [first, second, third, fourth] => read_four(*first, *second, *third, *fourth),
        [high, low, slash, direction, ack] => read_header(*high, *low, *slash, *direction, *ack),
        [equals, digits @ ..] => read_identity(*equals, digits),
        [] => None,
    }
}

/// The symbol of one letter.
#[inline(always)]
pub(crate) fn read_letter(letter: u8) -> Option<Symbol>
    ensures text { IfSome result (HasText (letter ∷ [])) }
    ensures every { FindsSymbol (letter ∷ []) result }
{
    match letter {
        b'S' => Some(Symbol::Start),
        b'P' => Some(Symbol::Stop),
        _ => None,
    }
}

/// The symbol of two letters.
#[inline(always)]
pub(crate) fn read_pair(first: u8, second: u8) -> Option<Symbol>
    ensures text { IfSome result (HasText (first ∷ second ∷ [])) }
    ensures every { FindsSymbol (first ∷ second ∷ []) result }
{
    if first == b'S' && second == b'r' {
        Some(Symbol::Repeated)
    } else {
        None
    }
}

/// A symbol of four letters: an address byte or a word.
fn read_four(first: u8, second: u8, third: u8, fourth: u8) -> Option<Symbol>
    ensures text { IfSome result (HasText (first ∷ second ∷ third ∷ fourth ∷ [])) }
    ensures every { FindsSymbol (first ∷ second ∷ third ∷ fourth ∷ []) result }
{
    if first == AT_SIGN {
        read_address_byte(second, third, fourth)
    } else if third == DOT {
        read_word(first, second, fourth)
    } else {
        None
    }
}

/// A header: an address, a slash, a direction and an answer.
#[inline(always)]
pub(crate) fn read_header(high: u8, low: u8, slash: u8, direction: u8, ack: u8) -> Option<Symbol>
    ensures text { IfSome result (HasText (high ∷ low ∷ slash ∷ direction ∷ ack ∷ [])) }
    ensures every { FindsSymbol (high ∷ low ∷ slash ∷ direction ∷ ack ∷ []) result }
{
    if slash != SLASH {
        return None;
    }
    let address = Addr7::new(read_byte(high, low)?).ok()?;
    let read = read_direction(direction)?;
    let ack = read_answer(ack)?;
    Some(Symbol::Header { address, read, ack })
}

/// A word: a byte and its T bit.
#[inline(always)]
pub(crate) fn read_word(high: u8, low: u8, t: u8) -> Option<Symbol>
    ensures text { IfSome result (HasText (high ∷ low ∷ DOT ∷ t ∷ [])) }
    ensures every { FindsSymbol (high ∷ low ∷ DOT ∷ t ∷ []) result }
{
    let byte = read_byte(high, low)?;
    let t = read_t(t)?;
    Some(Symbol::Word(Word { byte, t }))
}

/// The bits of an identity: an equals sign and 16 digits. Shorter texts are those of other symbols.
#[inline(always)]
pub(crate) fn read_identity(equals: u8, digits: &[u8]) -> Option<Symbol>
    requires { 5 ≤ length digits.now }
    ensures text { IfSome result (HasText (equals ∷ digits.now)) }
    ensures every { FindsSymbol (equals ∷ digits.now) result }
{
    if equals != EQUALS || digits.len() != 16 {
        return None;
    }
    let bits = read_digits(digits)?;
    Some(Symbol::Identity(bits))
}

/// An address byte of a round, and its answer.
#[inline(always)]
pub(crate) fn read_address_byte(high: u8, low: u8, ack: u8) -> Option<Symbol>
    ensures text { IfSome result (HasText (AT_SIGN ∷ high ∷ low ∷ ack ∷ [])) }
    ensures every { FindsSymbol (AT_SIGN ∷ high ∷ low ∷ ack ∷ []) result }
{
    let byte = read_byte(high, low)?;
    let ack = read_answer(ack)?;
    Some(Symbol::AddressByte { byte, ack })
}

/// A byte of a legacy target, and its answer.
#[inline(always)]
pub(crate) fn read_legacy_word(high: u8, low: u8, ack: u8) -> Option<Symbol>
    ensures text { IfSome result (HasText (high ∷ low ∷ ack ∷ [])) }
    ensures every { FindsSymbol (high ∷ low ∷ ack ∷ []) result }
{
    let byte = read_byte(high, low)?;
    let ack = read_answer(ack)?;
    Some(Symbol::LegacyWord { byte, ack })
}

/// The direction that a header's letter means.
fn read_direction(letter: u8) -> Option<bool>
    ensures read { IfSome result (λ read. direction_text read ≡ SLASH ∷ letter ∷ []) }
    ensures every { (read : Bool) → direction_text read ≡ SLASH ∷ letter ∷ [] → IsSome result }
{
    match letter {
        b'R' => Some(true),
        b'W' => Some(false),
        _ => None,
    }
}

/// The answer that a mark means.
fn read_answer(mark: u8) -> Option<bool>
    ensures ack { IfSome result (λ ack. answer_text ack ≡ mark ∷ []) }
    ensures every { (ack : Bool) → answer_text ack ≡ mark ∷ [] → IsSome result }
{
    match mark {
        b'+' => Some(true),
        b'-' => Some(false),
        _ => None,
    }
}

/// The T bit of a digit.
fn read_t(digit: u8) -> Option<bool>
    ensures t { IfSome result (λ t. t_text t ≡ DOT ∷ digit ∷ []) }
    ensures every { (t : Bool) → t_text t ≡ DOT ∷ digit ∷ [] → IsSome result }
{
    match digit {
        b'1' => Some(true),
        b'0' => Some(false),
        _ => None,
    }
}
