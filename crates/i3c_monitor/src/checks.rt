ghost use Rattle.std.specs.Prelude.{◌≡◌, ◌+◌, ◌<◌, ◌++◌, length, OnOk};
ghost use Rattle.std.specs.Option.{option_and_then};
ghost use Rattle.i3c_monitor.specs.Lint.{all_found, checks, moved_fault, nobody_fault, silence_fault};

use crate::address_statuses::AddressStatuses;
use crate::behind_faults::{
    ended_fault, heeded, parity_fault, stray_fault, surplus_fault, unanswered_fault,
};
use crate::decoded::Decoded;
use crate::header::{Header, Mode};
use crate::lint::{Spot, moved_fault, nobody_fault, silence_fault, twice_fault};
use crate::lint_fault::LintFault;
use i3c_base::Addresses;
use i3c_frame::Symbol;
use std::alloc::AllocError;

/// How many faults are looked for at a header.
const CHECKS: usize = 9;

/// What is found at a header, and in the symbols behind it, in the order in which it is told.
pub(crate) fn checks(
    legacies: Addresses,
    known: &AddressStatuses,
    spot: Spot,
    mode: &Mode,
    header: &Header,
    symbols: &[Symbol],
    decoded: &Option<Decoded>,
) -> [Option<LintFault>; CHECKS]
    requires { spot.symbol + length symbols.now < usize.MAX }
    ensures { result ≡ checks legacies.0 known.now mode.now spot.frame spot.symbol header.now symbols.now decoded.now }
{
    let rest = heeded(header, symbols);
    [
        nobody_found(legacies, known, spot, symbols, decoded),
        silence_found(known, spot, decoded),
        unanswered_fault(spot, header, symbols),
        stray_fault(spot, header, rest),
        surplus_fault(spot, mode, header, rest),
        ended_fault(spot, header, rest),
        parity_fault(spot, rest),
        twice_fault(known, spot, rest),
        moved_found(known, spot, decoded),
    ]
}

/// The fault of a header that speaks to nobody, if it tells anything.
fn nobody_found(
    legacies: Addresses,
    known: &AddressStatuses,
    spot: Spot,
    symbols: &[Symbol],
    decoded: &Option<Decoded>,
) -> Option<LintFault>
    ensures { result ≡ option_and_then (nobody_fault legacies.0 known.now spot.frame spot.symbol symbols.now) decoded.now }
{
    match decoded {
        Some(decoded) => nobody_fault(legacies, known, spot, symbols, decoded),
        None => None,
    }
}

/// The fault of an owner that was silent before, if the header tells anything.
fn silence_found(
    known: &AddressStatuses,
    spot: Spot,
    decoded: &Option<Decoded>,
) -> Option<LintFault>
    ensures { result ≡ option_and_then (silence_fault known.now spot.frame spot.symbol) decoded.now }
{
    match decoded {
        Some(decoded) => silence_fault(known, spot, decoded),
        None => None,
    }
}

/// The fault of an address that SETNEWDA gives, if the header tells anything.
fn moved_found(known: &AddressStatuses, spot: Spot, decoded: &Option<Decoded>) -> Option<LintFault>
    requires { spot.symbol < usize.MAX }
    ensures { result ≡ option_and_then (moved_fault known.now spot.frame spot.symbol) decoded.now }
{
    match decoded {
        Some(decoded) => moved_fault(known, spot, decoded),
        None => None,
    }
}

/// Appends the faults that were found.
pub(crate) fn push_found(
    found: &[Option<LintFault>],
    faults: &mut Vec<LintFault>,
) -> Result<(), AllocError>
    ensures { OnOk result (faults.new.items ≡ faults.old.items ++ all_found found.now) }
{
    let mut rest = found;
    while let [first, more @ ..] = rest {
        if let Some(fault) = first {
            faults.push(*fault)?;
        }
        rest = more;
    }
    Ok(())
}
