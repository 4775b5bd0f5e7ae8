ghost use Rattle.std.specs.Prelude.{◌≡◌, ◌∷◌, ℕ, List, Option, MatchOption, [], codes};
ghost use Rattle.i3c_facts.specs.Forms.{IsByteOrNone, IsFact, WritesBytes, texts};
ghost use Rattle.i3c_lines.specs.Parsing.{Reads};

use crate::fact::{Fact, ServedAs};
use crate::reasons::{plain_reason, reason_at};
use i3c_base::{Bytes, REGISTERS};
use i3c_lines::Name;
use i3c_lines::tokens::{self, is_token};

const ACTIVE: &[u8] = b"active";

const ANY: &[u8] = b"any";

const ASKING: &[u8] = b"asking";

const ASSIGNED: &[u8] = b"assigned";

const AT: &[u8] = b"at";

const BYTES: &[u8] = b"bytes";

const DONE: &[u8] = b"done";

const GONE: &[u8] = b"gone";

const LISTED: &[u8] = b"listed";

const NO_BYTE: &[u8] = b"--";

const NONE: &[u8] = b"none";

/// What turns a fact into its contrary.
pub(crate) const NOT: &[u8] = b"not";

const OPEN: &[u8] = b"open";

const RECORD: &[u8] = b"record";

const RECORDS: &[u8] = b"records";

const REFUSED: &[u8] = b"refused";

const SERVED: &[u8] = b"served";

const WAITING: &[u8] = b"waiting";

/// The fact that some tokens say, if they have a fact's form.
pub(crate) fn read_fact(tokens: &[&[u8]]) -> Option<Fact>
    ensures { Reads IsFact (texts tokens.now) result }
{
    match tokens {
        [token] => of_one(token),
        [first, second] => of_two(first, second),
        [first, second, third] => of_three(first, second, third),
        [first, second, third, fourth] => of_four(first, second, third, fourth),
        _ => None,
    }
}

/// A fact of one token.
fn of_one(token: &[u8]) -> Option<Fact>
    ensures { Reads IsFact (token.now ∷ []) result }
{
    if is_token(token, ASSIGNED) {
        return Some(Fact::Assigned);
    }
    if is_token(token, LISTED) {
        return Some(Fact::Listed);
    }
    if is_token(token, OPEN) {
        return Some(Fact::Open);
    }
    if is_token(token, DONE) {
        return Some(Fact::Done);
    }
    if is_token(token, REFUSED) {
        return Some(Fact::AnyRefused);
    }
    None
}

/// A fact of two tokens. `active gone` is about a device that is called gone.
fn of_two(first: &[u8], second: &[u8]) -> Option<Fact>
    ensures { Reads IsFact (first.now ∷ second.now ∷ []) result }
{
    if is_token(first, ACTIVE) {
        return active(second);
    }
    if is_token(second, GONE) {
        return gone(first);
    }
    if is_token(first, WAITING) {
        return all_waiting(second);
    }
    if is_token(first, RECORDS) {
        return records(second);
    }
    if is_token(first, REFUSED) {
        return refused(second);
    }
    of_line(first, second)
}

/// A fact of two tokens: what the line before came to, or who asks now.
fn of_line(first: &[u8], second: &[u8]) -> Option<Fact>
    requires active { first.now ≡ codes "active" → ⊥ }
    requires gone { second.now ≡ codes "gone" → ⊥ }
    requires waiting { first.now ≡ codes "waiting" → ⊥ }
    requires records { first.now ≡ codes "records" → ⊥ }
    requires refused { first.now ≡ codes "refused" → ⊥ }
    ensures { Reads IsFact (first.now ∷ second.now ∷ []) result }
{
    if is_token(first, SERVED) {
        return served(second);
    }
    if is_token(first, BYTES) {
        return bytes(second);
    }
    if is_token(first, ASKING) {
        return asking(second);
    }
    None
}

/// A fact of three tokens.
fn of_three(first: &[u8], second: &[u8], third: &[u8]) -> Option<Fact>
    ensures { Reads IsFact (first.now ∷ second.now ∷ third.now ∷ []) result }
{
    if is_token(second, AT) {
        return at(first, third);
    }
    if is_token(second, WAITING) {
        return waiting(first, third);
    }
    if is_token(first, REFUSED) {
        return refused_at(second, third);
    }
    if is_token(first, SERVED) {
        return served_as(second, third);
    }
    None
}

/// A fact of four tokens.
fn of_four(first: &[u8], second: &[u8], third: &[u8], fourth: &[u8]) -> Option<Fact>
    ensures { Reads IsFact (first.now ∷ second.now ∷ third.now ∷ fourth.now ∷ []) result }
{
    if is_token(first, RECORD) {
        return recorded(second, third, fourth);
    }
    None
}

/// `active`, by its name.
fn active(token: &[u8]) -> Option<Fact>
    ensures { Reads IsFact (codes "active" ∷ token.now ∷ []) result }
{
    let name = Name::parse(token)?;
    Some(Fact::Active(name))
}

/// `gone`, by its name, which isn't `active`.
fn gone(token: &[u8]) -> Option<Fact>
    requires { token.now ≡ codes "active" → ⊥ }
    ensures { Reads IsFact (token.now ∷ codes "gone" ∷ []) result }
{
    let name = Name::parse(token)?;
    Some(Fact::Gone(name))
}

/// `waiting` of all devices, by its number. `waiting gone` is about a device that is called waiting.
fn all_waiting(token: &[u8]) -> Option<Fact>
    requires { token.now ≡ codes "gone" → ⊥ }
    ensures { Reads IsFact (codes "waiting" ∷ token.now ∷ []) result }
{
    let count = tokens::bit(token)?;
    Some(Fact::AllWaiting(count))
}

/// `records`, by its number. `records gone` is about a device that is called records.
fn records(token: &[u8]) -> Option<Fact>
    requires { token.now ≡ codes "gone" → ⊥ }
    ensures { Reads IsFact (codes "records" ∷ token.now ∷ []) result }
{
    let count = tokens::bit(token)?;
    Some(Fact::Records(count))
}

/// `refused`, by a reason of one token. `refused gone` is about a device that is called refused.
fn refused(token: &[u8]) -> Option<Fact>
    requires { token.now ≡ codes "gone" → ⊥ }
    ensures { Reads IsFact (codes "refused" ∷ token.now ∷ []) result }
{
    let why = plain_reason(token)?;
    Some(Fact::Refused(why))
}

/// `refused`, by a reason and an address. With `at` or `waiting` it is about a device that is called refused.
fn refused_at(token: &[u8], address: &[u8]) -> Option<Fact>
    requires at { token.now ≡ codes "at" → ⊥ }
    requires waiting { token.now ≡ codes "waiting" → ⊥ }
    ensures { Reads IsFact (codes "refused" ∷ token.now ∷ address.now ∷ []) result }
{
    let why = reason_at(token, address)?;
    Some(Fact::Refused(why))
}

/// `served`, by what it came to in one token. `served gone` is about a device that is called served.
fn served(token: &[u8]) -> Option<Fact>
    requires { token.now ≡ codes "gone" → ⊥ }
    ensures { Reads IsFact (codes "served" ∷ token.now ∷ []) result }
{
    if is_token(token, b"quiet") {
        return Some(Fact::Served(ServedAs::Quiet));
    }
    if is_token(token, b"recorded") {
        return Some(Fact::Served(ServedAs::Recorded));
    }
    if is_token(token, b"torn") {
        return Some(Fact::Served(ServedAs::Torn));
    }
    if is_token(token, b"joining") {
        return Some(Fact::Served(ServedAs::Joining));
    }
    None
}

/// `served`, by what it came to in two tokens. With `at` or `waiting` it is about a device that is called served.
fn served_as(token: &[u8], more: &[u8]) -> Option<Fact>
    requires at { token.now ≡ codes "at" → ⊥ }
    requires waiting { token.now ≡ codes "waiting" → ⊥ }
    ensures { Reads IsFact (codes "served" ∷ token.now ∷ more.now ∷ []) result }
{
    if is_token(token, b"turned") && is_token(more, b"down") {
        return Some(Fact::Served(ServedAs::TurnedDown));
    }
    if is_token(token, b"wants") && is_token(more, b"role") {
        return Some(Fact::Served(ServedAs::WantsRole));
    }
    None
}

/// `bytes`, by one to sixteen of them.
fn bytes(token: &[u8]) -> Option<Fact>
    requires { token.now ≡ codes "gone" → ⊥ }
    ensures { Reads IsFact (codes "bytes" ∷ token.now ∷ []) result }
{
    let bytes = written_bytes(token)?;
    Some(Fact::Bytes(bytes))
}

/// One to sixteen bytes, each of two hex digits.
pub(crate) fn written_bytes(token: &[u8]) -> Option<Bytes>
    ensures { MatchOption result ((bytes : List ℕ) → WritesBytes token.now bytes → ⊥) (λ bytes. WritesBytes token.now bytes) }
{
    let bytes = tokens::bytes(token)?;
    if bytes.is_empty() || bytes.len() > REGISTERS {
        return None;
    }
    Some(Bytes::new(bytes.as_slice()))
}

/// `asking`, by its name. `asking gone` is about a device that is called asking.
fn asking(token: &[u8]) -> Option<Fact>
    requires { token.now ≡ codes "gone" → ⊥ }
    ensures { Reads IsFact (codes "asking" ∷ token.now ∷ []) result }
{
    let name = Name::parse(token)?;
    Some(Fact::Asking(name))
}

/// `at`, by its name, and an address, `any` or `none`.
fn at(token: &[u8], place: &[u8]) -> Option<Fact>
    ensures { Reads IsFact (token.now ∷ codes "at" ∷ place.now ∷ []) result }
{
    let name = Name::parse(token)?;
    if is_token(place, ANY) {
        return Some(Fact::AtAny(name));
    }
    if is_token(place, NONE) {
        return Some(Fact::AtNone(name));
    }
    let address = tokens::address(place)?;
    Some(Fact::At(name, address))
}

/// `waiting` of one device, by its name, which isn't `not`, and its number.
fn waiting(token: &[u8], digits: &[u8]) -> Option<Fact>
    ensures { Reads IsFact (token.now ∷ codes "waiting" ∷ digits.now ∷ []) result }
{
    if is_token(token, NOT) {
        return None;
    }
    let name = Name::parse(token)?;
    let count = tokens::bit(digits)?;
    Some(Fact::Waiting(name, count))
}

/// `record`, by its name, a byte or none, and its number.
fn recorded(token: &[u8], byte: &[u8], digits: &[u8]) -> Option<Fact>
    ensures { Reads IsFact (codes "record" ∷ token.now ∷ byte.now ∷ digits.now ∷ []) result }
{
    let name = Name::parse(token)?;
    let byte = byte_or_none(byte)?;
    let count = tokens::bit(digits)?;
    Some(Fact::Recorded(name, byte, count))
}

/// A mandatory byte, or `--` for none.
fn byte_or_none(token: &[u8]) -> Option<Option<u8>>
    ensures { MatchOption result ((byte : Option ℕ) → IsByteOrNone token.now byte → ⊥) (λ byte. IsByteOrNone token.now byte) }
{
    if is_token(token, NO_BYTE) {
        return Some(None);
    }
    let byte = tokens::byte(token)?;
    Some(Some(byte))
}
