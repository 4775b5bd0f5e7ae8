ghost use Rattle.std.specs.Prelude.{◌≡◌, ◌++◌, OnOk};
ghost use Rattle.i3c_text.specs.declared.line_error.LineError.TheVariants.{Refused};
ghost use Rattle.i3c_lines.specs.Refusing.{bus_token, declare_token, legacy_token};

use i3c_legacy::{DeclareFault, LegacyFault};
use i3c_step::Refusal as BusRefusal;
use i3c_text::{LineError, Text};
use std::alloc::AllocError;

/// Why a line was refused. A refused line changes nothing but the cuts that wait, which a frame's line takes. It is
/// printed by this name, and one of the bus or of a declaration by its own.
#[derive(Clone, Copy, Debug, PartialEq, Eq, Drop)]
pub enum Refusal {
    /// The line has no form.
    BadLine,
    /// There is no bus before `main`.
    NoBus,
    /// There is a bus already.
    BusMade,
    /// A present device or a legacy target has this name.
    NameTaken,
    /// No name like this was given.
    NoName,
    /// The legacy target can't be declared.
    Legacy(LegacyFault),
    /// The identity can't be declared.
    Declare(DeclareFault),
    /// The bus refuses it. A name that has no device, since it is a legacy target's or its device is gone, is refused as
    /// a slot without a device.
    Bus(BusRefusal),
    /// The data that was read did not end.
    NoEnd,
    /// The controller that a line is of isn't the active one.
    NotActive,
}

impl From<Refusal> for LineError<Refusal> {
    ghost from_gives = { λ refusal stop. stop ≡ Refused refusal };

    fn from(refusal: Refusal) -> LineError<Refusal> {
        LineError::Refused(refusal)
    }
}

impl Refusal {
    ghost use Rattle.i3c_lines.specs.Refusing.{refusal_text, refusal_token};

    /// The refusal's name, as it is printed.
    pub fn token(&self) -> &'static str
        ensures { result.now ≡ refusal_token self.now }
    {
        match self {
            Refusal::BadLine => "BadLine",
            Refusal::NoBus => "NoBus",
            Refusal::BusMade => "BusMade",
            Refusal::NameTaken => "NameTaken",
            Refusal::NoName => "NoName",
            Refusal::Legacy(fault) => legacy_token(fault),
            Refusal::Declare(fault) => declare_token(fault),
            Refusal::Bus(why) => bus_token(why),
            Refusal::NoEnd => "NoEnd",
            Refusal::NotActive => "NotActive",
        }
    }

    /// Appends it to a text: its name, and the address that it is about.
    pub fn push(&self, text: &mut Text) -> Result<(), AllocError>
        ensures { OnOk result (text.new ≡ text.old ++ refusal_text self.now) }
    {
        text.push(self.token().as_bytes())?;
        match self {
            Refusal::Bus(BusRefusal::NoAnswer(address) | BusRefusal::BadAddress(address)) => {
                text.push(b" ")?;
                text.push_byte(address.get())
            }
            _ => Ok(()),
        }
    }
}

/// The name of a refused declaration of a legacy target.
fn legacy_token(fault: &LegacyFault) -> &'static str
    ensures { result.now ≡ legacy_token fault.now }
{
    match fault {
        LegacyFault::LegacyAddress => "LegacyAddress",
        LegacyFault::LegacyTwice => "LegacyTwice",
        LegacyFault::TooManyLegacy => "TooManyLegacy",
    }
}

/// The name of a refused declaration of an identity.
fn declare_token(fault: &DeclareFault) -> &'static str
    ensures { result.now ≡ declare_token fault.now }
{
    match fault {
        DeclareFault::LegacyAddress => "LegacyAddress",
        DeclareFault::LegacyTwice => "LegacyTwice",
        DeclareFault::IdentityTwice => "IdentityTwice",
        DeclareFault::TooManyDeclared => "TooManyDeclared",
    }
}

/// The name of a refusal of the bus.
fn bus_token(why: &BusRefusal) -> &'static str
    ensures { result.now ≡ bus_token why.now }
{
    match why {
        BusRefusal::SessionOpen => "SessionOpen",
        BusRefusal::NoSession => "NoSession",
        BusRefusal::ActiveStays => "ActiveStays",
        BusRefusal::SlotTaken => "SlotTaken",
        BusRefusal::NoDevice => "NoDevice",
        BusRefusal::IsActive => "IsActive",
        BusRefusal::NoAddress => "NoAddress",
        BusRefusal::HasAddress => "HasAddress",
        BusRefusal::NotCapable => "NotCapable",
        BusRefusal::ByteMismatch => "ByteMismatch",
        BusRefusal::Masked => "Masked",
        BusRefusal::Full => "Full",
        BusRefusal::ListStale => "ListStale",
        BusRefusal::NoAnswer(_) => "NoAnswer",
        BusRefusal::TooLong => "TooLong",
        BusRefusal::BadAddress(_) => "BadAddress",
    }
}

impl From<LegacyFault> for Refusal {
    ghost use Rattle.std.specs.Prelude.{◌≡◌};
    ghost use Rattle.i3c_lines.specs.declared.refusals.Refusal.{Refusal};

    ghost from_gives = { λ fault refusal. refusal ≡ Refusal.Legacy fault };

    fn from(fault: LegacyFault) -> Refusal {
        Refusal::Legacy(fault)
    }
}

impl From<DeclareFault> for Refusal {
    ghost use Rattle.std.specs.Prelude.{◌≡◌};
    ghost use Rattle.i3c_lines.specs.declared.refusals.Refusal.{Refusal};

    ghost from_gives = { λ fault refusal. refusal ≡ Refusal.Declare fault };

    fn from(fault: DeclareFault) -> Refusal {
        Refusal::Declare(fault)
    }
}

impl From<BusRefusal> for Refusal {
    ghost use Rattle.std.specs.Prelude.{◌≡◌};
    ghost use Rattle.i3c_lines.specs.declared.refusals.Refusal.{Refusal};

    ghost from_gives = { λ why refusal. refusal ≡ Refusal.Bus why };

    fn from(why: BusRefusal) -> Refusal {
        Refusal::Bus(why)
    }
}
