ghost use Rattle.std.specs.Prelude.{true, false, not, ◌&&◌, ◌==◌, ◌≡◌, ◌+◌, ◌<◌, ◌≤◌, drop, length, position};
ghost use Rattle.i3c_monitor.specs.Lint.{begins_with, belongs, code_takes, defining_bytes, ended_after, ended_fault, fault_at, heads_round, heeded, is_unanswered, is_word, is_wrong_address, length_takes, mode_takes, parity_fault, stray_fault, surplus_fault, taken_by, unanswered_fault, words_taken};

use crate::header::{BROADCAST, Header, Mode};
use crate::lint::{Spot, begins_with_word, fault_at, fault_if};
use crate::lint_fault::{Breach, LintFault};
use i3c_base::{Datum, Direction};
use i3c_ccc::{Code, extended_code_of};
use i3c_frame::Symbol;
use i3c_word::read_address_byte;

/// Whether nobody acknowledged a header whose answer counts. That of `7E`/W doesn't (I3C Basic 5.1.2.2).
fn is_unanswered(header: &Header) -> bool
    ensures { result ≡ is_unanswered header.now }
{
    !header.ack && !is_broadcast(header)
}

/// Whether a header is `7E`/W.
fn is_broadcast(header: &Header) -> bool
    ensures { result ≡ ((header.now.address == 0x7E) && not header.now.read) }
{
    header.address.get() == BROADCAST && !header.read
}

/// Whether a header is `7E`/R, which heads a round.
fn heads_round(header: &Header) -> bool
    ensures { result ≡ heads_round header.now }
{
    header.address.get() == BROADCAST && header.read
}

/// The fault of the symbols behind a header that nobody acknowledged.
pub(crate) fn unanswered_fault(spot: Spot, header: &Header, symbols: &[Symbol]) -> Option<LintFault>
    requires { spot.symbol + length symbols.now < usize.MAX }
    ensures { result ≡ unanswered_fault spot.frame spot.symbol header.now symbols.now }
{
    fault_if(
        is_unanswered(header) && !symbols.is_empty(),
        spot.frame,
        spot.symbol + 1,
        Breach::Unanswered,
    )
}

/// The symbols behind a header that are looked at further: none where nobody acknowledged it.
pub(crate) fn heeded<'a>(header: &Header, symbols: &'a [Symbol]) -> &'a [Symbol]
    ensures same { result.now ≡ heeded header.now symbols.now }
    ensures short { length result.now ≤ length symbols.now }
{
    if is_unanswered(header) { &[] } else { symbols }
}

/// The first symbol that may not follow a header: a repeated START is missing before it (I3C Basic 5.1.2).
pub(crate) fn stray_fault(spot: Spot, header: &Header, symbols: &[Symbol]) -> Option<LintFault>
    requires { spot.symbol + length symbols.now < usize.MAX }
    ensures { result ≡ stray_fault spot.frame spot.symbol header.now symbols.now }
{
    let place = first_stray(heads_round(header), symbols)?;
    Some(fault_at(spot.frame, spot.symbol + (place + 1), Breach::Stray))
}

/// The place of that symbol.
fn first_stray(round: bool, symbols: &[Symbol]) -> Option<usize>
    ensures { result ≡ position (λ symbol. not (belongs round symbol)) symbols.now }
{
    symbols.iter().position(|symbol| !belongs(round, symbol))
}

/// Whether a symbol may follow a header: words behind any, and what a round has behind `7E`/R.
fn belongs(round: bool, symbol: &Symbol) -> bool
    ensures { result ≡ belongs round symbol.now }
{
    match symbol {
        Symbol::Word(_) | Symbol::LegacyWord { .. } => true,
        Symbol::Identity(_) | Symbol::AddressByte { .. } => round,
        Symbol::Start | Symbol::Repeated | Symbol::Stop | Symbol::Header { .. } => false,
    }
}

/// The first word behind all that a header takes (I3C Basic 5.1.9.1).
pub(crate) fn surplus_fault(
    spot: Spot,
    mode: &Mode,
    header: &Header,
    symbols: &[Symbol],
) -> Option<LintFault>
    requires { spot.symbol + length symbols.now < usize.MAX }
    ensures { result ≡ surplus_fault spot.frame spot.symbol mode.now header.now symbols.now }
{
    let taken = taken_by(mode, header, symbols)?;
    if !word_follows(taken, symbols) {
        return None;
    }
    Some(fault_at(spot.frame, spot.symbol + (taken + 1), Breach::Surplus))
}

/// Whether a word follows the first `count` symbols.
fn word_follows(count: usize, symbols: &[Symbol]) -> bool
    ensures word { result ≡ begins_with is_word (drop count symbols.now) }
    ensures within { result ≡ true → count < length symbols.now }
{
    count < symbols.len() && begins_with_word(&symbols[count..])
}

/// How many symbols a header takes, unless as many as come.
fn taken_by(mode: &Mode, header: &Header, symbols: &[Symbol]) -> Option<usize>
    ensures { result ≡ taken_by mode.now header.now symbols.now }
{
    if is_broadcast(header) {
        code_takes(symbols)
    } else {
        mode_takes(mode, heads_round(header))
    }
}

/// How many symbols follow `7E`/W, its code counted.
fn code_takes(symbols: &[Symbol]) -> Option<usize>
    ensures { result ≡ code_takes symbols.now }
{
    match symbols {
        [Symbol::Word(word), ..] => Some(words_taken(&extended_code_of(word.byte))? + 1),
        _ => None,
    }
}

/// How many words follow a code.
fn words_taken(code: &Code) -> Option<usize>
    ensures { result ≡ words_taken code.now }
{
    match code {
        Code::Enec | Code::Disec => Some(1),
        Code::Deftgts | Code::Other(_) => None,
        Code::Rstdaa | Code::Entdaa => Some(0),
        Code::EnecDirect | Code::DisecDirect | Code::Getacccr => Some(0),
        Code::Setdasa | Code::Setnewda => Some(0),
        Code::SetLengthDirect(_) => Some(0),
        Code::SetLength(way) => Some(length_takes(*way)),
        Code::Get(what) => Some(defining_bytes(*what)),
    }
}

/// How many words may follow a code that asks for a datum: a defining byte, where there are several of the kind (I3C Basic
/// 5.1.9.3.15, 5.1.9.3.18, 5.1.9.3.19).
fn defining_bytes(what: Datum) -> usize
    ensures { result ≡ defining_bytes what }
{
    match what {
        Datum::Status | Datum::Speed | Datum::Capabilities => 1,
        Datum::Pid | Datum::Bcr | Datum::Dcr | Datum::WriteLength | Datum::ReadLength => 0,
    }
}

/// How many words a maximum length takes: two, and of reads a third, which is for interrupts (I3C Basic 5.1.9.3.5,
/// 5.1.9.3.6).
fn length_takes(way: Direction) -> usize
    ensures { result ≡ length_takes way }
{
    match way {
        Direction::Write => 2,
        Direction::Read => 3,
    }
}

/// How many symbols follow a header of a command: its byte, a length, or a round's identity and address byte.
fn mode_takes(mode: &Mode, round: bool) -> Option<usize>
    ensures { result ≡ mode_takes mode.now round }
{
    match mode {
        Mode::Single(_) => Some(1),
        Mode::Length(way) => Some(length_takes(*way)),
        Mode::Rounds if round => Some(2),
        _ => None,
    }
}

/// The first word behind a read word whose T said 'last' (I3C Basic 5.1.2.3).
pub(crate) fn ended_fault(spot: Spot, header: &Header, symbols: &[Symbol]) -> Option<LintFault>
    requires { spot.symbol + length symbols.now < usize.MAX }
    ensures { result ≡ ended_fault spot.frame spot.symbol header.now symbols.now }
{
    if !header.read {
        return None;
    }
    let symbol = ended_after(spot.symbol + 1, symbols)?;
    Some(fault_at(spot.frame, symbol, Breach::Ended))
}

/// The number of that word, where the first symbol has this number.
fn ended_after(first: usize, symbols: &[Symbol]) -> Option<usize>
    requires { first + length symbols.now ≤ usize.MAX }
    ensures { result ≡ ended_after false first symbols.now }
{
    let mut ended = false;
    let mut number = first;
    let mut rest = symbols;
    while let [symbol, more @ ..] = rest {
        match symbol {
            Symbol::Word(_) if ended => return Some(number),
            Symbol::Word(word) => ended = !word.t,
            _ => ended = false,
        }
        number += 1;
        rest = more;
    }
    None
}

/// The first address byte with a wrong parity bit (I3C Basic 5.1.4.2).
pub(crate) fn parity_fault(spot: Spot, symbols: &[Symbol]) -> Option<LintFault>
    requires { spot.symbol + length symbols.now < usize.MAX }
    ensures { result ≡ parity_fault spot.frame spot.symbol symbols.now }
{
    let place = first_wrong_address(symbols)?;
    Some(fault_at(spot.frame, spot.symbol + (place + 1), Breach::Parity))
}

/// The place of that byte.
fn first_wrong_address(symbols: &[Symbol]) -> Option<usize>
    ensures { result ≡ position is_wrong_address symbols.now }
{
    symbols.iter().position(is_wrong_address)
}

/// Whether a symbol is an address byte with a wrong parity bit.
fn is_wrong_address(symbol: &Symbol) -> bool
    ensures { result ≡ is_wrong_address symbol.now }
{
    match symbol {
        Symbol::AddressByte { byte, .. } => read_address_byte(*byte).is_err(),
        _ => false,
    }
}
