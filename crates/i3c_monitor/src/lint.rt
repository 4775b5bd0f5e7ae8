ghost use Rattle.std.specs.Prelude.{◌≡◌, ◌+◌, ◌<◌, length};
ghost use Rattle.i3c_monitor.specs.Lint.{are_others, begins_with, carries_more, ends_at_once, fault_at, fault_if, is_nobodys, is_others, is_transfer, is_word, may_be_legacy, mode_at, moved_fault, nobody_fault, silence_fault, silent_since, twice_fault};

use crate::address_statuses::{AddressStatuses, Owner};
use crate::decoded::{Decoded, Direct};
use crate::header::{BROADCAST, Header, Mode};
use crate::lint_fault::{Breach, LintFault};
use i3c_base::{Addr7, Addresses};
use i3c_frame::Symbol;

/// The place of a header: its frame and its symbol, both counted from 1.
#[derive(Clone, Copy)]
pub(crate) struct Spot {
    pub frame: usize,
    pub symbol: usize,
}

/// The mode of a frame at a header: one that begins with a private transfer is in no command.
pub(crate) fn mode_at(legacies: Addresses, mode: &Mode, header: &Header, symbols: &[Symbol]) -> Mode
    ensures { result ≡ mode_at legacies.0 mode.now header.now symbols.now }
{
    match mode {
        Mode::First if is_transfer(legacies, header, symbols) => Mode::Plain,
        mode => *mode,
    }
}

/// Whether a frame ends at once, whose START is before these symbols. Such a frame couldn't be read.
pub(crate) fn ends_at_once(symbols: &[Symbol]) -> bool
    ensures { result ≡ ends_at_once symbols.now }
{
    matches!(symbols, [Symbol::Stop, ..])
}

/// Whether a frame's first header is that of a private transfer: a legacy target's, or with more behind it than a request
/// carries (I3C Basic 5.1.2.2).
fn is_transfer(legacies: Addresses, header: &Header, symbols: &[Symbol]) -> bool
    ensures { result ≡ is_transfer legacies.0 header.now symbols.now }
{
    header.address.get() != BROADCAST
        && (legacies.has(header.address) || header.ack && carries_more(header.read, symbols))
}

/// Whether these symbols are more than a request carries, which is the one byte of an interrupt at most.
fn carries_more(read: bool, symbols: &[Symbol]) -> bool
    ensures { result ≡ carries_more read symbols.now }
{
    match symbols {
        [Symbol::Word(_), rest @ ..] if read => begins_with_word(rest),
        _ => begins_with_word(symbols),
    }
}

/// Whether the first of these symbols is a word, with a T bit or of a legacy target.
pub(crate) fn begins_with_word(symbols: &[Symbol]) -> bool
    ensures { result ≡ begins_with is_word symbols.now }
{
    matches!(symbols, [Symbol::Word(_) | Symbol::LegacyWord { .. }, ..])
}

/// The fault of a header that speaks to an address that nobody was given (I3C Basic 5.1.4).
pub(crate) fn nobody_fault(
    legacies: Addresses,
    known: &AddressStatuses,
    spot: Spot,
    symbols: &[Symbol],
    decoded: &Decoded,
) -> Option<LintFault>
    ensures { result ≡ nobody_fault legacies.0 known.now spot.frame spot.symbol symbols.now decoded.now }
{
    if may_be_legacy(decoded, symbols) {
        return None;
    }
    let address = decoded.spoken_to()?;
    let is_strange = known.shown
        && !legacies.has(address)
        && is_nobodys(&known.status(address).owner);
    fault_if(is_strange, spot.frame, spot.symbol, Breach::Nobody(address))
}

/// Whether nobody has an address.
fn is_nobodys(owner: &Owner) -> bool
    ensures { result ≡ is_nobodys owner.now }
{
    matches!(owner, Owner::Nobody)
}

/// Whether an answer may be that of a legacy target that the trace doesn't show: it has no word with a T bit.
fn may_be_legacy(decoded: &Decoded, symbols: &[Symbol]) -> bool
    ensures { result ≡ may_be_legacy decoded.now symbols.now }
{
    match decoded {
        Decoded::Transfer { span: Some(_), .. } => !matches!(symbols, [Symbol::Word(_), ..]),
        _ => false,
    }
}

/// The fault of an owner that answers or asks, and was silent before, without having been given the address again.
pub(crate) fn silence_fault(
    known: &AddressStatuses,
    spot: Spot,
    decoded: &Decoded,
) -> Option<LintFault>
    ensures { result ≡ silence_fault known.now spot.frame spot.symbol decoded.now }
{
    let address = decoded.present()?;
    let status = known.status(address);
    let since = silent_since(&status.owner, status.silent)?;
    Some(fault_at(spot.frame, spot.symbol, Breach::Silent(address, since)))
}

/// The symbol since which an owner is silent that got its address in a round.
fn silent_since(owner: &Owner, silent: Option<usize>) -> Option<usize>
    ensures { result ≡ silent_since owner.now silent }
{
    match owner {
        Owner::Given(_) => silent,
        Owner::Nobody | Owner::Somebody => None,
    }
}

/// The fault of a round that gives an address that another identity was given (I3C Basic 5.1.4.2).
pub(crate) fn twice_fault(
    known: &AddressStatuses,
    spot: Spot,
    symbols: &[Symbol],
) -> Option<LintFault>
    requires { spot.symbol + length symbols.now < usize.MAX }
    ensures { result ≡ twice_fault known.now spot.frame spot.symbol symbols.now }
{
    match symbols {
        [
            Symbol::Identity(identity),
            Symbol::AddressByte { byte, ack: true },
            ..
        ] => {
            let address = Addr7::new(*byte / 2).unwrap();
            let is_others = is_others(*identity, &known.status(address).owner);
            fault_if(
                is_others,
                spot.frame,
                spot.symbol + 2,
                Breach::Twice(address),
            )
        }
        _ => None,
    }
}

/// The fault of SETNEWDA that gives an address which another identity was given (I3C Basic 5.1.9.3.11).
pub(crate) fn moved_fault(
    known: &AddressStatuses,
    spot: Spot,
    decoded: &Decoded,
) -> Option<LintFault>
    requires { spot.symbol < usize.MAX }
    ensures { result ≡ moved_fault known.now spot.frame spot.symbol decoded.now }
{
    match decoded {
        Decoded::Single {
            command: Direct::Setnewda,
            address,
            byte: Some(byte),
        } => {
            let new = Addr7::new(*byte / 2).unwrap();
            let are_others = are_others(&known.status(*address).owner, &known.status(new).owner);
            fault_if(are_others, spot.frame, spot.symbol + 1, Breach::Twice(new))
        }
        _ => None,
    }
}

/// Whether two addresses were given to different identities.
fn are_others(one: &Owner, other: &Owner) -> bool
    ensures { result ≡ are_others one.now other.now }
{
    match one {
        Owner::Given(identity) => is_others(*identity, other),
        Owner::Nobody | Owner::Somebody => false,
    }
}

/// Whether an address is another identity's.
fn is_others(identity: u64, owner: &Owner) -> bool
    ensures { result ≡ is_others identity owner.now }
{
    match owner {
        Owner::Given(other) => *other != identity,
        Owner::Nobody | Owner::Somebody => false,
    }
}

/// A fault at the symbol of this number.
pub(crate) fn fault_at(frame: usize, symbol: usize, breach: Breach) -> LintFault
    ensures { result ≡ fault_at frame symbol breach }
{
    LintFault {
        frame,
        symbol,
        breach,
    }
}

/// The same for an optional one.
pub(crate) fn fault_if(
    wrong: bool,
    frame: usize,
    symbol: usize,
    breach: Breach,
) -> Option<LintFault>
    ensures { result ≡ fault_if wrong frame symbol breach }
{
    if wrong {
        Some(fault_at(frame, symbol, breach))
    } else {
        None
    }
}
