ghost use Rattle.std.specs.Prelude.{◌≡◌, ◌++◌, OnOk, codes};
ghost use Rattle.std.specs.Fmt.{decimal};
ghost use Rattle.i3c_facts.specs.Forms.{served_text};
ghost use Rattle.i3c_facts.specs.Printing.{byte_or_none, claim_text, claims_text, fact_text, mark_text, more_text, negation_text, recorded_text};
ghost use Rattle.i3c_lines.specs.Naming.{letters};
ghost use Rattle.i3c_lines.specs.Refusing.{refusal_text};
ghost use Rattle.i3c_text.specs.Hex.{byte_text, bytes_text};

use crate::fact::{Fact, ServedAs};
use crate::facts::{Claim, Facts};
use crate::marks::Mark;
use i3c_base::{Addr7, Bytes};
use i3c_lines::{Name, Refusal};
use i3c_text::Text;
use std::alloc::AllocError;

impl Mark {
    /// Appends its line, without the line's end, to a text.
    pub fn push(&self, text: &mut Text) -> Result<(), AllocError>
        ensures { OnOk result (text.new ≡ text.old ++ mark_text self.now) }
    {
        match self {
            Mark::Any => text.push(b"any"),
            Mark::Anywhere(name) => push_named(text, b"anywhere ", name),
            Mark::Always(facts) => push_facts(text, b"always ", facts),
            Mark::Track => text.push(b"track"),
            Mark::Close => text.push(b"close"),
            Mark::Expect(facts) => push_facts(text, b"expect ", facts),
        }
    }
}

impl Facts {
    /// Appends the text of the claims, as a line has it.
    pub fn push(&self, text: &mut Text) -> Result<(), AllocError>
        ensures { OnOk result (text.new ≡ text.old ++ claims_text self.now) }
    {
        match self.claims.as_slice().split_first() {
            Some((first, more)) => {
                first.push(text)?;
                push_more(text, more)
            }
            None => Ok(()),
        }
    }
}

impl Claim {
    /// Appends the text of the claim, as a line has it.
    pub fn push(&self, text: &mut Text) -> Result<(), AllocError>
        ensures { OnOk result (text.new ≡ text.old ++ claim_text self.now) }
    {
        if self.negated {
            text.push(b"not ")?;
        }
        self.fact.push(text)
    }
}

impl Fact {
    /// Appends the text of the fact, as a line has it.
    pub fn push(&self, text: &mut Text) -> Result<(), AllocError>
        ensures { OnOk result (text.new ≡ text.old ++ fact_text self.now) }
    {
        match self {
            Fact::Active(name) => push_named(text, b"active ", name),
            Fact::At(name, address) => push_at(text, name, *address),
            Fact::AtAny(name) => push_name(text, name, b" at any"),
            Fact::AtNone(name) => push_name(text, name, b" at none"),
            Fact::Gone(name) => push_name(text, name, b" gone"),
            Fact::Waiting(name, count) => push_waiting(text, name, usize::from(*count)),
            Fact::AllWaiting(count) => push_number(text, b"waiting ", usize::from(*count)),
            Fact::Records(count) => push_number(text, b"records ", usize::from(*count)),
            Fact::Recorded(name, byte, count) => push_recorded(
                text,
                name,
                *byte,
                usize::from(*count),
            ),
            Fact::Assigned => text.push(b"assigned"),
            Fact::Listed => text.push(b"listed"),
            Fact::Open => text.push(b"open"),
            Fact::Done => text.push(b"done"),
            Fact::Refused(why) => push_refused(text, why),
            Fact::AnyRefused => text.push(b"refused"),
            Fact::Served(way) => push_served(text, *way),
            Fact::Bytes(bytes) => push_bytes(text, bytes),
            Fact::Asking(name) => push_named(text, b"asking ", name),
        }
    }
}

/// Appends some tokens, and claims with an `or` between each two.
fn push_facts(text: &mut Text, tokens: &[u8], facts: &Facts) -> Result<(), AllocError>
    ensures { OnOk result (text.new ≡ text.old ++ (tokens.now ++ claims_text facts.now)) }
{
    text.push(tokens)?;
    facts.push(text)
}

/// Appends claims, each behind an `or`.
fn push_more(text: &mut Text, claims: &[Claim]) -> Result<(), AllocError>
    ensures { OnOk result (text.new ≡ text.old ++ more_text claims.now) }
{
    for index in 0..claims.len() {
        push_another(text, &claims[index])?;
    }
    Ok(())
}

/// Appends a claim behind an `or`.
fn push_another(text: &mut Text, claim: &Claim) -> Result<(), AllocError>
    ensures { OnOk result (text.new ≡ text.old ++ (codes " or " ++ claim_text claim.now)) }
{
    text.push(b" or ")?;
    claim.push(text)
}

/// Appends some tokens and a name.
pub(crate) fn push_named(text: &mut Text, tokens: &[u8], name: &Name) -> Result<(), AllocError>
    ensures { OnOk result (text.new ≡ text.old ++ (tokens.now ++ letters name.now)) }
{
    text.push(tokens)?;
    text.push(name.as_bytes())
}

/// Appends a name and some tokens.
pub(crate) fn push_name(text: &mut Text, name: &Name, tokens: &[u8]) -> Result<(), AllocError>
    ensures { OnOk result (text.new ≡ text.old ++ (letters name.now ++ tokens.now)) }
{
    text.push(name.as_bytes())?;
    text.push(tokens)
}

/// Appends some tokens and a number.
pub(crate) fn push_number(text: &mut Text, tokens: &[u8], number: usize) -> Result<(), AllocError>
    ensures { OnOk result (text.new ≡ text.old ++ (tokens.now ++ decimal number)) }
{
    text.push(tokens)?;
    text.push_decimal(number as u64)
}

/// Appends that a device has an address.
pub(crate) fn push_at(text: &mut Text, name: &Name, address: Addr7) -> Result<(), AllocError>
    ensures { OnOk result (text.new ≡ text.old ++ (letters name.now ++ (codes " at " ++ byte_text address))) }
{
    push_name(text, name, b" at ")?;
    text.push_byte(address.get())
}

/// Appends the fact that a device has `count` waiting interrupts.
pub(crate) fn push_waiting(text: &mut Text, name: &Name, count: usize) -> Result<(), AllocError>
    ensures { OnOk result (text.new ≡ text.old ++ (letters name.now ++ (codes " waiting " ++ decimal count))) }
{
    text.push(name.as_bytes())?;
    push_number(text, b" waiting ", count)
}

/// Appends the fact that a name's slot has `count` records with a mandatory byte, or with none.
pub(crate) fn push_recorded(
    text: &mut Text,
    name: &Name,
    byte: Option<u8>,
    count: usize,
) -> Result<(), AllocError>
    ensures { OnOk result (text.new ≡ text.old ++ recorded_text name.now byte count) }
{
    push_named(text, b"record ", name)?;
    text.push(b" ")?;
    push_byte(text, byte)?;
    push_number(text, b" ", count)
}

/// Appends a mandatory byte, or `--` for none.
fn push_byte(text: &mut Text, byte: Option<u8>) -> Result<(), AllocError>
    ensures { OnOk result (text.new ≡ text.old ++ byte_or_none byte) }
{
    match byte {
        Some(byte) => text.push_byte(byte),
        None => text.push(b"--"),
    }
}

/// Appends that a line was refused.
pub(crate) fn push_refused(text: &mut Text, why: &Refusal) -> Result<(), AllocError>
    ensures { OnOk result (text.new ≡ text.old ++ (codes "refused " ++ refusal_text why.now)) }
{
    text.push(b"refused ")?;
    why.push(text)
}

/// Appends what the first request of a frame came to.
pub(crate) fn push_served(text: &mut Text, way: ServedAs) -> Result<(), AllocError>
    ensures { OnOk result (text.new ≡ text.old ++ (codes "served " ++ served_text way)) }
{
    text.push(b"served ")?;
    text.push(way.text().as_bytes())
}

/// Appends bytes that were read.
pub(crate) fn push_bytes(text: &mut Text, bytes: &Bytes) -> Result<(), AllocError>
    ensures { OnOk result (text.new ≡ text.old ++ (codes "bytes " ++ bytes_text bytes.now)) }
{
    text.push(b"bytes ")?;
    text.push_bytes(bytes.as_slice())
}
