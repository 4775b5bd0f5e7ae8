ghost use Rattle.std.specs.Prelude.{◌≡◌, ◌∷◌, []};
ghost use Rattle.i3c_facts.specs.Forms.{IsReason};
ghost use Rattle.i3c_facts.specs.Reading.{plain_reasons};
ghost use Rattle.i3c_lines.specs.Parsing.{Reads};

use i3c_legacy::{DeclareFault, LegacyFault};
use i3c_lines::Refusal;
use i3c_lines::tokens::{self, is_token};
use i3c_step::Refusal as BusRefusal;

const NO_ANSWER: &[u8] = b"NoAnswer";

const BAD_ADDRESS: &[u8] = b"BadAddress";

/// How many tokens say a refusal by themselves.
const REASONS: usize = 26;

/// The refusals whose text is one token. Of two with the same token only the first is here.
fn plain_reasons() -> [Refusal; REASONS]
    ensures { result ≡ plain_reasons }
{
    [
        Refusal::BadLine,
        Refusal::NoBus,
        Refusal::BusMade,
        Refusal::NameTaken,
        Refusal::NoName,
        Refusal::NoEnd,
        Refusal::Legacy(LegacyFault::LegacyAddress),
        Refusal::Legacy(LegacyFault::LegacyTwice),
        Refusal::Legacy(LegacyFault::TooManyLegacy),
        Refusal::Declare(DeclareFault::IdentityTwice),
        Refusal::Declare(DeclareFault::TooManyDeclared),
        Refusal::Bus(BusRefusal::SessionOpen),
        Refusal::Bus(BusRefusal::NoSession),
        Refusal::Bus(BusRefusal::ActiveStays),
        Refusal::Bus(BusRefusal::SlotTaken),
        Refusal::Bus(BusRefusal::NoDevice),
        Refusal::Bus(BusRefusal::IsActive),
        Refusal::Bus(BusRefusal::NoAddress),
        Refusal::Bus(BusRefusal::HasAddress),
        Refusal::Bus(BusRefusal::NotCapable),
        Refusal::Bus(BusRefusal::ByteMismatch),
        Refusal::Bus(BusRefusal::Masked),
        Refusal::Bus(BusRefusal::Full),
        Refusal::Bus(BusRefusal::ListStale),
        Refusal::Bus(BusRefusal::TooLong),
        Refusal::NotActive,
    ]
}

/// The refusal that is printed as this token alone, if there is one.
pub(crate) fn plain_reason(token: &[u8]) -> Option<Refusal>
    ensures { Reads IsReason (token.now ∷ []) result }
{
    let reasons = plain_reasons();
    for index in 0..REASONS {
        let why = reasons[index];
        if is_token(token, why.token().as_bytes()) {
            return Some(why);
        }
    }
    None
}

/// The refusal that is printed as this token and an address, if there is one.
pub(crate) fn reason_at(token: &[u8], address: &[u8]) -> Option<Refusal>
    ensures { Reads IsReason (token.now ∷ address.now ∷ []) result }
{
    let address = tokens::address(address)?;
    if is_token(token, NO_ANSWER) {
        return Some(Refusal::Bus(BusRefusal::NoAnswer(address)));
    }
    if is_token(token, BAD_ADDRESS) {
        return Some(Refusal::Bus(BusRefusal::BadAddress(address)));
    }
    None
}
