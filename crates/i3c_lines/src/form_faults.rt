ghost use Rattle.std.specs.Prelude.{◌≡◌, ◌<◌, ◌++◌, ℕ, List, All, map, MatchOption, IfSome, OnOk, codes, length};
ghost use Rattle.i3c_lines.specs.declared.fields.Field.{Field as FieldValue};
ghost use Rattle.i3c_lines.specs.Forms.{HasNoForm};
ghost use Rattle.i3c_lines.specs.Faults.{IsAmong, IsEither, IsFaultText, IsLesson, IsNear, IsOwnLesson, IsSo, IsTokenFault, expected, label, labelled, printed, quoted};
ghost use Rattle.i3c_lines.specs.Parsing.{left_tokens};
ghost use Rattle.i3c_lines.specs.Tokens.{IsDecimalDigit, IsHex};

use crate::fields::Field;
use crate::line::{LINE_LENGTH, read_line};
use crate::names::Name;
use crate::policies::{ALL, BUT, EXCEPTED, REFUSE_ALL, accept};
use crate::shapes::{Shape, nearest, shape_of};
use crate::tokens::{SPACE, Tokens, after, is_decimal, is_token};
use arrayvec::ArrayVec;
use i3c_text::Text;
use std::alloc::{AllocError, Global};

/// What some editors put in front of a text.
const MARK: &[u8] = b"\xEF\xBB\xBF";

/// What some editors put before a line feed.
const RETURN: u8 = b'\r';

/// A tab, which parts no tokens.
const TAB: u8 = b'\t';

/// What stands before the name of a controller, and its line.
const AS: &[u8] = b"as";

/// What stands for a byte that doesn't print.
const UNKNOWN: u8 = b'?';

/// Why a line has no form.
#[derive(Clone, Copy)]
pub enum FormFault<'a> {
    /// It has more than 256 bytes.
    TooLong,
    /// It begins with a byte-order mark.
    Mark,
    /// It ends in a carriage return.
    Return,
    /// It has a tab.
    Tab,
    /// It begins with a space.
    FirstSpace,
    /// It has two spaces in a row.
    TwoSpaces,
    /// It ends in a space.
    LastSpace,
    /// No command begins with this token.
    Unknown(&'a [u8]),
    /// No token is left for this field.
    Missing(Field),
    /// This token hasn't its field's form.
    Misfit(Field, &'a [u8]),
    /// This token is one too many.
    Surplus(&'a [u8]),
    /// This token names a kind of request, or a device, that a token before it names.
    Repeated(&'a [u8]),
    /// A fact of a mark is missing, or isn't whole.
    MissingFact,
    /// No fact of a mark has this token at its place.
    NoFact(&'a [u8]),
}

/// Why a line has no form, if it has none. A line that is empty or a comment has one.
pub fn form_fault(line: &[u8]) -> Option<FormFault<'_>>
    ensures told { MatchOption result (HasNoForm line.now → ⊥) (λ fault. HasNoForm line.now) }
    ensures so { IfSome result (λ fault. IsSo line.now fault) }
{
    match read_line(line) {
        Ok(_) => None,
        Err(_) => Some(diagnose(line)),
    }
}

/// Why a line that has no form has none.
fn diagnose(line: &[u8]) -> FormFault<'_>
    ensures { IsSo line.now result }
{
    if line.len() > LINE_LENGTH {
        return FormFault::TooLong;
    }
    if let Some(fault) = stray_byte(line) {
        return fault;
    }
    let mut tokens = Tokens::of(line);
    let Some(first) = tokens.next() else {
        unreachable!()
    };
    if is_token(first, AS) {
        return as_misfit(first, &mut tokens);
    }
    match shape_of(first) {
        Some(shape) => misfit(first, shape, &mut tokens),
        None => FormFault::Unknown(first),
    }
}

/// The first of the tokens behind `as` that isn't as its line has it: a name, and a line that a controller sends.
fn as_misfit<'a>(first: &'a [u8], tokens: &mut Tokens<'a>) -> FormFault<'a>
    ensures { IsTokenFault first.now (left_tokens tokens.old) result }
{
    let Some(name) = tokens.next() else {
        return FormFault::Missing(Field::Name);
    };
    if let Some(fault) = misfit_at(Field::Name, name) {
        return fault;
    }
    sent_misfit(first, tokens)
}

/// The first of these tokens that isn't as a line has it that a controller sends.
fn sent_misfit<'a>(first: &'a [u8], tokens: &mut Tokens<'a>) -> FormFault<'a>
    ensures { IsTokenFault first.now (left_tokens tokens.old) result }
{
    let Some(token) = tokens.next() else {
        return FormFault::Missing(Field::Sent);
    };
    if let Some(fault) = misfit_at(Field::Sent, token) {
        return fault;
    }
    match shape_of(token) {
        Some(shape) => misfit(first, shape, tokens),
        None => FormFault::Unknown(first),
    }
}

/// A byte that is in no line at this place, if there is one.
fn stray_byte(line: &[u8]) -> Option<FormFault<'_>>
    ensures { IfSome result (λ fault. IsSo line.now fault) }
{
    if after(line, MARK).is_some() {
        return Some(FormFault::Mark);
    }
    match line.last() {
        Some(&RETURN) => return Some(FormFault::Return),
        Some(&SPACE) => return Some(FormFault::LastSpace),
        _ => {}
    }
    if line.contains(&TAB) {
        return Some(FormFault::Tab);
    }
    match line.first() {
        Some(&SPACE) => Some(FormFault::FirstSpace),
        _ => None,
    }
}

/// The first of the tokens behind a command's first that isn't as its shape has it.
fn misfit<'a>(first: &'a [u8], shape: &Shape, tokens: &mut Tokens<'a>) -> FormFault<'a>
    ensures { IsTokenFault first.now (left_tokens tokens.old) result }
{
    let mut kinds = *tokens;
    for field in shape.required {
        let Some(token) = tokens.next() else {
            return FormFault::Missing(*field);
        };
        if let Some(fault) = misfit_at(*field, token) {
            return fault;
        }
    }
    match shape.optional {
        Some(Field::Kind) => kind_misfit(first, &mut kinds),
        optional => last_misfit(first, optional, tokens),
    }
}

/// The first of the tokens behind a line's first that isn't as these fields have it. No more may follow.
pub fn misfit_behind<'a>(
    first: &'a [u8],
    fields: &'static [Field],
    tokens: &mut Tokens<'a>,
) -> FormFault<'a>
    ensures { IsTokenFault first.now (left_tokens tokens.old) result }
{
    misfit(first, &Shape::of(fields), tokens)
}

/// The first of a policy's tokens that may not follow those before it.
fn kind_misfit<'a>(first: &'a [u8], tokens: &mut Tokens<'a>) -> FormFault<'a>
    ensures { IsTokenFault first.now (left_tokens tokens.old) result }
{
    let Some(token) = tokens.next() else {
        return FormFault::Unknown(first);
    };
    if is_token(token, ALL) {
        return behind_all(first, tokens);
    }
    let Some(mut policy) = accept(REFUSE_ALL, token) else {
        // `none`, behind which nothing follows
        return last_misfit(first, None, tokens);
    };
    while let Some(token) = tokens.next() {
        if is_token(token, BUT) {
            return names_misfit(first, tokens);
        }
        if let Some(fault) = misfit_at(Field::Kind, token) {
            return fault;
        }
        match accept(policy, token) {
            Some(next) => policy = next,
            None => return FormFault::Repeated(token),
        }
    }
    FormFault::Unknown(first)
}

/// The first of the tokens behind a policy's `all` that isn't allowed there.
fn behind_all<'a>(first: &'a [u8], tokens: &mut Tokens<'a>) -> FormFault<'a>
    ensures { IsTokenFault first.now (left_tokens tokens.old) result }
{
    let Some(token) = tokens.next() else {
        return FormFault::Unknown(first);
    };
    if is_token(token, BUT) {
        return names_misfit(first, tokens);
    }
    surplus(token)
}

/// The first of the tokens behind a policy's `but` that may not follow those before it.
fn names_misfit<'a>(first: &'a [u8], tokens: &mut Tokens<'a>) -> FormFault<'a>
    ensures { IsTokenFault first.now (left_tokens tokens.old) result }
{
    let mut names = ArrayVec::new();
    while let Some(token) = tokens.next() {
        if let Some(fault) = misfit_among(&mut names, token) {
            return fault;
        }
    }
    if names.is_empty() {
        return FormFault::Missing(Field::Name);
    }
    FormFault::Unknown(first)
}

/// What is wrong with a name behind others, if anything is. Otherwise it joins them.
fn misfit_among<'a>(names: &mut ArrayVec<Name, EXCEPTED>, token: &'a [u8]) -> Option<FormFault<'a>>
    ensures { IfSome result (λ fault. (first : List ℕ) (rest : List (List ℕ)) → IsAmong token.now rest → IsTokenFault first rest fault) }
{
    let Some(name) = Name::parse(token) else {
        return misfit_at(Field::Name, token);
    };
    if names.contains(&name) {
        return Some(FormFault::Repeated(token));
    }
    if names.is_full() {
        return Some(FormFault::Surplus(token));
    }
    names.push(name);
    None
}

/// The first of the tokens behind those that a command needs that isn't as its shape has it.
fn last_misfit<'a>(
    first: &'a [u8],
    optional: Option<Field>,
    tokens: &mut Tokens<'a>,
) -> FormFault<'a>
    ensures { IsTokenFault first.now (left_tokens tokens.old) result }
{
    // where each token is as its shape has it, the line has a form, and nobody asks
    let Some(token) = tokens.next() else {
        return FormFault::Unknown(first);
    };
    let Some(field) = optional else {
        return surplus(token);
    };
    if let Some(fault) = misfit_at(field, token) {
        return fault;
    }
    match tokens.next() {
        Some(token) => surplus(token),
        None => FormFault::Unknown(first),
    }
}

/// What is wrong with a field's token, if anything is.
fn misfit_at(field: Field, token: &[u8]) -> Option<FormFault<'_>>
    ensures { IfSome result (λ fault. (first : List ℕ) (rest : List (List ℕ)) → IsAmong token.now rest → IsTokenFault first rest fault) }
{
    if token.is_empty() {
        return Some(FormFault::TwoSpaces);
    }
    if field.fits(token) {
        return None;
    }
    Some(FormFault::Misfit(field, token))
}

/// A token that is one too many.
fn surplus(token: &[u8]) -> FormFault<'_>
    ensures { (first : List ℕ) (rest : List (List ℕ)) → IsAmong token.now rest → IsTokenFault first rest result }
{
    if !token.is_empty() {
        return FormFault::Surplus(token);
    }
    FormFault::TwoSpaces
}

impl FormFault<'_> {
    /// Appends it to a text: the token, and what was expected there.
    pub fn push(&self, alloc: Global, text: &mut Text) -> Result<(), AllocError>
        ensures { OnOk result ((told : List ℕ) × IsFaultText self.now told × (text.new ≡ text.old ++ told)) }
    {
        match self {
            FormFault::TooLong => text.push(b"longer than 256 bytes"),
            FormFault::Mark => text.push(b"begins with a byte-order mark"),
            FormFault::Return => text.push(b"ends in a carriage return"),
            FormFault::Tab => text.push(b"has a tab, where one space parts words"),
            FormFault::FirstSpace => text.push(b"begins with a space"),
            FormFault::TwoSpaces => text.push(b"has two spaces in a row, where one parts words"),
            FormFault::LastSpace => text.push(b"ends in a space"),
            FormFault::Unknown(token) => push_unknown(alloc, token, text),
            FormFault::Missing(field) => push_missing(*field, text),
            FormFault::Misfit(field, token) => push_misfit(*field, token, text),
            FormFault::Surplus(token) => push_behind(token, b": a word too many", text),
            FormFault::Repeated(token) => push_behind(token, b": named twice", text),
            FormFault::MissingFact => text.push(b"a word of FACT is missing"),
            FormFault::NoFact(token) => push_behind(token, b": no word of a fact", text),
        }
    }
}

/// Appends a token between quotes, and some words.
fn push_behind(token: &[u8], words: &[u8], text: &mut Text) -> Result<(), AllocError>
    ensures { OnOk result (text.new ≡ text.old ++ (quoted token.now ++ words.now)) }
{
    push_quoted(token, text)?;
    text.push(words)
}

/// Appends that no command has this token, and the nearest that one has.
fn push_unknown(alloc: Global, token: &[u8], text: &mut Text) -> Result<(), AllocError>
    ensures { OnOk result ((near : List ℕ) × IsNear near × (text.new ≡ text.old ++ (quoted token.now ++ (codes ": no command" ++ near)))) }
{
    let near = nearest(alloc, token)?;
    push_behind(token, b": no command", text)?;
    push_near(near, text)
}

/// Appends the nearest token, if one is near.
fn push_near(near: Option<&str>, text: &mut Text) -> Result<(), AllocError>
    ensures { OnOk result ((told : List ℕ) × IsNear told × (text.new ≡ text.old ++ told)) }
{
    match near {
        Some(near) => {
            text.push(b"; the nearest is ")?;
            push_quoted(near.as_bytes(), text)
        }
        None => Ok(()),
    }
}

/// Appends that a field's token is missing.
fn push_missing(field: Field, text: &mut Text) -> Result<(), AllocError>
    ensures { OnOk result (text.new ≡ text.old ++ (label field ++ (codes " is missing: " ++ expected field))) }
{
    text.push(field.label().as_bytes())?;
    text.push(b" is missing: ")?;
    text.push(field.expected().as_bytes())
}

/// Appends a field's token, and what was expected in its place.
fn push_misfit(field: Field, token: &[u8], text: &mut Text) -> Result<(), AllocError>
    ensures { OnOk result ((lesson : List ℕ) × IsLesson field token.now lesson × (text.new ≡ text.old ++ (labelled (label field) ++ (quoted token.now ++ (codes ": " ++ lesson))))) }
{
    push_label(field.label().as_bytes(), text)?;
    push_quoted(token, text)?;
    text.push(b": ")?;
    text.push(lesson(field, token).as_bytes())
}

/// Appends the name of a field, if it has one.
fn push_label(label: &[u8], text: &mut Text) -> Result<(), AllocError>
    ensures { OnOk result (text.new ≡ text.old ++ labelled label.now) }
{
    match label {
        [] => Ok(()),
        [_, ..] => {
            text.push(label)?;
            text.push(b" ")
        }
    }
}

/// What is to be learned of a token that hasn't its field's form.
fn lesson(field: Field, token: &[u8]) -> &'static str
    ensures { IsLesson field token.now result.now }
{
    if field.is_hexadecimal() && after(token, b"0x").is_some() {
        "hexadecimal digits in capitals, without 0x"
    } else {
        own_lesson(field, token)
    }
}

/// The same of a token without `0x`.
fn own_lesson(field: Field, token: &[u8]) -> &'static str
    ensures { IsOwnLesson field token.now result.now }
{
    match field {
        Field::Name => name_lesson(token),
        Field::Addr | Field::Old | Field::New => address_lesson(token),
        Field::Bit => bit_lesson(token),
        Field::Pid
        | Field::Bcr
        | Field::Dcr
        | Field::Lvr
        | Field::Byte
        | Field::Bytes
        | Field::Count
        | Field::Length
        | Field::Shown
        | Field::Place
        | Field::Policy
        | Field::Kind
        | Field::Decline
        | Field::Sent => field.expected(),
    }
}

/// What is to be learned of a token that is no name.
fn name_lesson(token: &[u8]) -> &'static str
    ensures { IsEither (16 < length token.now) (codes "longer than 16 letters") (expected FieldValue.Name) result.now }
{
    if token.len() > 16 {
        "longer than 16 letters"
    } else {
        Field::Name.expected()
    }
}

/// What is to be learned of a token that is no address.
fn address_lesson(token: &[u8]) -> &'static str
    ensures { IsEither (IsHex 2 token.now) (codes "above 7F") (expected FieldValue.Addr) result.now }
{
    if Field::Byte.fits(token) {
        "above 7F"
    } else {
        Field::Addr.expected()
    }
}

/// What is to be learned of a token that is no bit.
fn bit_lesson(token: &[u8]) -> &'static str
    ensures { IsEither (All IsDecimalDigit token.now) (codes "above 65535") (expected FieldValue.Bit) result.now }
{
    if is_decimal(token) {
        "above 65535"
    } else {
        Field::Bit.expected()
    }
}

/// Appends a token between quotes. What doesn't print is a question mark.
pub fn push_quoted(token: &[u8], text: &mut Text) -> Result<(), AllocError>
    ensures { OnOk result (text.new ≡ text.old ++ quoted token.now) }
{
    text.push(b"'")?;
    push_printed(token, text)?;
    text.push(b"'")
}

/// Appends bytes as they are printed.
fn push_printed(bytes: &[u8], text: &mut Text) -> Result<(), AllocError>
    ensures { OnOk result (text.new ≡ text.old ++ map printed bytes.now) }
{
    let mut rest = bytes;
    while let [byte, more @ ..] = rest {
        text.push(&[printed(*byte)])?;
        rest = more;
    }
    Ok(())
}

/// A byte as it is printed.
fn printed(byte: u8) -> u8
    ensures { result ≡ printed byte }
{
    if byte < 32 || byte > 126 {
        UNKNOWN
    } else {
        byte
    }
}
