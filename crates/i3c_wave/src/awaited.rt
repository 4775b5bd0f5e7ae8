ghost use Rattle.std.specs.Prelude.{◌≡◌};
ghost use Rattle.i3c_wave.specs.Awaited.{awaited_behind, bits_in, next_awaited, next_place, open_place, start_in, symbol_in, was_assigning};

use i3c_base::{Addr7, Addresses};
use i3c_frame::Symbol;
use i3c_word::Word;

/// The address that every I3C device hears (I3C Basic 5.1.2.2.1).
const BROADCAST: u8 = 0x7E;

/// The code of an assignment, ENTDAA (I3C Basic 5.1.9.3).
const ENTDAA: u8 = 0x07;

/// How many bits an identity has (I3C Basic 5.1.4.2), and how many each other symbol of bits.
const IDENTITY_BITS: u8 = 64;

const OTHER_BITS: u8 = 9;

/// What comes next inside a frame, if it is bits. A frame is an assignment behind ENTDAA.
#[derive(Clone, Copy)]
pub enum Awaited {
    /// A header, of an assignment or not.
    Header(bool),
    /// The word of a command code, behind `7E/W`.
    Code,
    /// A word, in an assignment or not.
    Word(bool),
    /// A word of a legacy target.
    LegacyWord(bool),
    /// An identity.
    Identity,
    /// An address byte.
    AddressByte,
}

/// The next thing awaited behind a symbol, inside a frame or outside one (`None`), if the symbol is allowed there. Legacy
/// targets have these addresses.
pub(crate) fn next_place(
    legacies: Addresses,
    place: Option<Awaited>,
    symbol: &Symbol,
) -> Option<Option<Awaited>>
    ensures { result ≡ next_place legacies.0 place symbol.now }
{
    match (place, *symbol) {
        (None, Symbol::Start) => Some(Some(Awaited::Header(false))),
        (None, _) | (Some(_), Symbol::Start) => None,
        (Some(awaited), Symbol::Stop) => open_place(awaited, None),
        (Some(awaited), Symbol::Repeated) => {
            open_place(awaited, Some(Awaited::Header(was_assigning(awaited))))
        }
        (Some(awaited), _) => match next_awaited(legacies, awaited, symbol) {
            Some(next) => Some(Some(next)),
            None => None,
        },
    }
}

/// The next thing awaited behind a repeated START or a STOP; neither is allowed where a header is expected.
fn open_place(awaited: Awaited, next: Option<Awaited>) -> Option<Option<Awaited>>
    ensures { result ≡ open_place awaited next }
{
    match awaited {
        Awaited::Header(_) => None,
        Awaited::Code | Awaited::Identity | Awaited::AddressByte => Some(next),
        Awaited::Word(_) | Awaited::LegacyWord(_) => Some(next),
    }
}

/// Whether an assignment goes on.
fn was_assigning(awaited: Awaited) -> bool
    ensures { result ≡ was_assigning awaited }
{
    match awaited {
        Awaited::Header(assigning) | Awaited::Word(assigning) | Awaited::LegacyWord(assigning) => {
            assigning
        }
        Awaited::Code => false,
        Awaited::Identity | Awaited::AddressByte => true,
    }
}

/// What is awaited behind a symbol that is neither START nor STOP. `None` says that the symbol isn't allowed there.
fn next_awaited(legacies: Addresses, awaited: Awaited, symbol: &Symbol) -> Option<Awaited>
    ensures { result ≡ next_awaited legacies.0 awaited symbol.now }
{
    match (awaited, *symbol) {
        (Awaited::Header(assigning), Symbol::Header { address, read, ack }) => {
            Some(awaited_behind(legacies, assigning, address, read, ack))
        }
        (Awaited::Code, Symbol::Word(word)) => Some(Awaited::Word(word.byte == ENTDAA)),
        (Awaited::Word(assigning), Symbol::Word(_)) => Some(Awaited::Word(assigning)),
        (Awaited::LegacyWord(assigning), Symbol::LegacyWord { .. }) => {
            Some(Awaited::LegacyWord(assigning))
        }
        (Awaited::Identity, Symbol::Identity(_)) => Some(Awaited::AddressByte),
        (Awaited::AddressByte, Symbol::AddressByte { .. }) => Some(Awaited::Word(true)),
        _ => None,
    }
}

/// What is awaited behind a header.
fn awaited_behind(
    legacies: Addresses,
    assigning: bool,
    address: Addr7,
    read: bool,
    ack: bool,
) -> Awaited
    ensures { result ≡ awaited_behind legacies.0 assigning address read ack }
{
    if legacies.has(address) {
        Awaited::LegacyWord(assigning)
    } else if address.get() != BROADCAST {
        Awaited::Word(assigning)
    } else if !read {
        Awaited::Code
    } else if assigning && ack {
        Awaited::Identity
    } else {
        Awaited::Word(assigning)
    }
}

/// How many bits the symbol has that comes next: outside a frame there is none.
pub(crate) fn bits_in(place: Option<Awaited>) -> u8
    ensures { result ≡ bits_in place }
{
    match place {
        None => 0,
        Some(Awaited::Identity) => IDENTITY_BITS,
        Some(_) => OTHER_BITS,
    }
}

/// The symbol of a START.
pub(crate) fn start_in(place: Option<Awaited>) -> Symbol
    ensures { result ≡ start_in place }
{
    match place {
        None => Symbol::Start,
        Some(_) => Symbol::Repeated,
    }
}

/// The symbol of some bits, as a number.
pub(crate) fn symbol_in(place: Option<Awaited>, number: u64) -> Symbol
    ensures { result ≡ symbol_in place number }
{
    let byte = (number / 2 % 256) as u8;
    let ack = number % 2 == 0;
    match place {
        Some(Awaited::Header(_)) => Symbol::Header {
            address: Addr7::new((number / 4 % 128) as u8).unwrap(),
            read: number / 2 % 2 == 1,
            ack,
        },
        Some(Awaited::Identity) => Symbol::Identity(number),
        Some(Awaited::AddressByte) => Symbol::AddressByte { byte, ack },
        Some(Awaited::LegacyWord(_)) => Symbol::LegacyWord { byte, ack },
        Some(Awaited::Code | Awaited::Word(_)) | None => {
            let t = number % 2 == 1;
            Symbol::Word(Word { byte, t })
        }
    }
}
