ghost use Rattle.std.specs.Prelude.{◌≡◌, ◌<◌, ◌++◌, IfOk, OnOk};
ghost use Rattle.serde_json.specs.Data.{boolean, number, put, unsigned};
ghost use Rattle.serde_json.specs.View.{members_view, view};
ghost use Rattle.i3c_lines.specs.Naming.{letters};
ghost use Rattle.i3c_text.specs.Hex.{byte_text, bytes_text};
ghost use Rattle.i3c_json.specs.Values.{ascii, byte_data, served_words, text_data, wish_data};

use i3c_base::{Addr7, Request, Served};
use i3c_lines::Name;
use i3c_text::Text;
use serde_json::{Map, Value, put};
use std::alloc::{AllocError, Global};

/// The fields of an object.
pub(crate) type Fields = Map<String, Value>;

/// A text as a string. A byte that isn't ASCII becomes a question mark.
pub(crate) fn text_value(alloc: Global, text: &[u8]) -> Result<Value, AllocError>
    ensures { IfOk result (λ value. view value ≡ text_data text.now) }
{
    let mut string = String::new(alloc);
    let mut rest = text;
    while let [byte, more @ ..] = rest {
        string.push(char::from(ascii(*byte)))?;
        rest = more;
    }
    Ok(Value::String(string))
}

/// A byte of a string.
fn ascii(byte: u8) -> u8
    ensures same { result ≡ ascii byte }
    ensures range { result < 128 }
{
    if byte < 128 { byte } else { b'?' }
}

/// A byte in hex digits.
fn hex_value(alloc: Global, byte: u8) -> Result<Value, AllocError>
    ensures { IfOk result (λ value. view value ≡ text_data (byte_text byte)) }
{
    let mut digits = Text::new(alloc);
    digits.push_byte(byte)?;
    text_value(alloc, digits.as_bytes())
}

/// A byte in hex digits, if there is one.
fn byte_value(alloc: Global, byte: Option<u8>) -> Result<Value, AllocError>
    ensures { IfOk result (λ value. view value ≡ byte_data byte) }
{
    match byte {
        Some(byte) => hex_value(alloc, byte),
        None => Ok(Value::Null),
    }
}

/// An address in hex digits, if there is one.
fn place_value(alloc: Global, address: Option<Addr7>) -> Result<Value, AllocError>
    ensures { IfOk result (λ value. view value ≡ byte_data address) }
{
    match address {
        Some(address) => hex_value(alloc, address.get()),
        None => Ok(Value::Null),
    }
}

/// A wish for the role or to join, if there is one.
fn wish_value(alloc: Global, wish: Option<Request>) -> Result<Value, AllocError>
    ensures { IfOk result (λ value. view value ≡ wish_data wish) }
{
    match wish {
        Some(Request::Join) => text_value(alloc, b"join"),
        Some(Request::Role(_)) => text_value(alloc, b"role"),
        Some(Request::Interrupt(_)) | None => Ok(Value::Null),
    }
}

/// Appends the words for the result of a frame's first request.
fn push_served(served: &Served, words: &mut Text) -> Result<(), AllocError>
    ensures { OnOk result (words.new ≡ words.old ++ served_words served.now) }
{
    match served {
        Served::Quiet => words.push(b"quiet"),
        Served::Recorded(place) => {
            words.push(b"recorded ")?;
            words.push_decimal(*place as u64)
        }
        Served::Refused => words.push(b"turned down"),
        Served::Torn => words.push(b"torn"),
        Served::Joining => words.push(b"joining"),
        Served::WantsRole(address) => {
            words.push(b"wants role ")?;
            words.push_byte(address.get())
        }
    }
}

/// Puts a text.
pub(crate) fn put_text(
    alloc: Global,
    key: &str,
    text: &[u8],
    fields: &mut Fields,
) -> Result<(), AllocError>
    ensures { OnOk result (members_view fields.new.entries ≡ put key.now (text_data text.now) (members_view fields.old.entries)) }
{
    put(fields, alloc, key, text_value(alloc, text)?)
}

/// Puts a name.
pub(crate) fn put_name(
    alloc: Global,
    key: &str,
    name: &Name,
    fields: &mut Fields,
) -> Result<(), AllocError>
    ensures { OnOk result (members_view fields.new.entries ≡ put key.now (text_data (letters name.now)) (members_view fields.old.entries)) }
{
    put_text(alloc, key, name.as_bytes(), fields)
}

/// Puts a byte in hex digits.
pub(crate) fn put_hex(
    alloc: Global,
    key: &str,
    byte: u8,
    fields: &mut Fields,
) -> Result<(), AllocError>
    ensures { OnOk result (members_view fields.new.entries ≡ put key.now (text_data (byte_text byte)) (members_view fields.old.entries)) }
{
    put(fields, alloc, key, hex_value(alloc, byte)?)
}

/// Puts bytes in hex digits.
pub(crate) fn put_bytes(
    alloc: Global,
    key: &str,
    bytes: &[u8],
    fields: &mut Fields,
) -> Result<(), AllocError>
    ensures { OnOk result (members_view fields.new.entries ≡ put key.now (text_data (bytes_text bytes.now)) (members_view fields.old.entries)) }
{
    let digits = bytes_digits(alloc, bytes)?;
    put_text(alloc, key, digits.as_bytes(), fields)
}

/// The hex digits of bytes.
fn bytes_digits(alloc: Global, bytes: &[u8]) -> Result<Text, AllocError>
    ensures { IfOk result (λ digits. digits ≡ bytes_text bytes.now) }
{
    let mut digits = Text::new(alloc);
    let mut rest = bytes;
    // byte by byte, so that what prints bytes in a script keeps `Text::push_bytes` in line
    while let [byte, more @ ..] = rest {
        digits.push_byte(*byte)?;
        rest = more;
    }
    Ok(digits)
}

/// Puts a byte, if there is one.
pub(crate) fn put_byte(
    alloc: Global,
    key: &str,
    byte: Option<u8>,
    fields: &mut Fields,
) -> Result<(), AllocError>
    ensures { OnOk result (members_view fields.new.entries ≡ put key.now (byte_data byte) (members_view fields.old.entries)) }
{
    put(fields, alloc, key, byte_value(alloc, byte)?)
}

/// Puts an address, if there is one.
pub(crate) fn put_place(
    alloc: Global,
    key: &str,
    address: Option<Addr7>,
    fields: &mut Fields,
) -> Result<(), AllocError>
    ensures { OnOk result (members_view fields.new.entries ≡ put key.now (byte_data address) (members_view fields.old.entries)) }
{
    put(fields, alloc, key, place_value(alloc, address)?)
}

/// Puts a number.
pub(crate) fn put_number(
    alloc: Global,
    key: &str,
    count: u64,
    fields: &mut Fields,
) -> Result<(), AllocError>
    ensures { OnOk result (members_view fields.new.entries ≡ put key.now (number (unsigned count)) (members_view fields.old.entries)) }
{
    put(fields, alloc, key, Value::from(count))
}

/// Puts whether something is so.
pub(crate) fn put_flag(
    alloc: Global,
    key: &str,
    is_so: bool,
    fields: &mut Fields,
) -> Result<(), AllocError>
    ensures { OnOk result (members_view fields.new.entries ≡ put key.now (boolean is_so) (members_view fields.old.entries)) }
{
    put(fields, alloc, key, Value::from(is_so))
}

/// Puts a wish.
pub(crate) fn put_wish(
    alloc: Global,
    key: &str,
    wish: Option<Request>,
    fields: &mut Fields,
) -> Result<(), AllocError>
    ensures { OnOk result (members_view fields.new.entries ≡ put key.now (wish_data wish) (members_view fields.old.entries)) }
{
    put(fields, alloc, key, wish_value(alloc, wish)?)
}

/// Puts the result of a frame's first request.
pub(crate) fn put_served(
    alloc: Global,
    key: &str,
    served: &Served,
    fields: &mut Fields,
) -> Result<(), AllocError>
    ensures { OnOk result (members_view fields.new.entries ≡ put key.now (text_data (served_words served.now)) (members_view fields.old.entries)) }
{
    let mut words = Text::new(alloc);
    push_served(served, &mut words)?;
    put_text(alloc, key, words.as_bytes(), fields)
}
