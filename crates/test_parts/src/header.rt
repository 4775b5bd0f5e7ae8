ghost use Rattle.std.specs.Prelude.{IfOk};
ghost use Rattle.i3c_header.specs.Keys.{IsLawful};

use crate::faults::Fault;
use crate::setting::Setting;
use crate::told::{Answer, told_hex};
use crate::words::Words;
use i3c_header::{Request, arbitrate, header, key};
use std::alloc::Global;

/// The calls on requests.
pub(crate) fn call(setting: &mut Setting, call: &str, words: &mut Words<'_>) -> Answer {
    let alloc = setting.alloc;
    match call {
        "key" => told_hex(alloc, &key(words.request()?)),
        "header" => told_hex(alloc, &header(words.request()?)),
        "arbitrate" => first_of(alloc, words),
        _ => Err(Fault::Unknown),
    }
}

/// The winner of no request, or of the one, two or three that follow.
fn first_of(alloc: Global, words: &mut Words<'_>) -> Answer {
    if words.is_done() {
        return told_hex(alloc, &arbitrate(&[]));
    }
    let one = lawful(words)?;
    if words.is_done() {
        return told_hex(alloc, &arbitrate(&[one]));
    }
    let other = lawful(words)?;
    if words.is_done() {
        return told_hex(alloc, &arbitrate(&[one, other]));
    }
    let last = lawful(words)?;
    told_hex(alloc, &arbitrate(&[one, other, last]))
}

/// A request that a device may drive: the addresses below 08 are no device's.
fn lawful(words: &mut Words<'_>) -> Result<Request, Fault>
    ensures { IfOk result IsLawful }
{
    let request = words.request()?;
    match request {
        Request::Role(address) | Request::Interrupt(address) if address.get() < 8 => {
            Err(Fault::Unknown)
        }
        _ => Ok(request),
    }
}
