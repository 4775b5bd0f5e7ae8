ghost use Rattle.std.specs.Prelude.{◌≡◌, ◌∷◌, ◌++◌, [], OnOk, codes};
ghost use Rattle.std.specs.Fmt.{decimal};
ghost use Rattle.i3c_frame.specs.Texts.{text_of};
ghost use Rattle.i3c_script.specs.Printed.{added_text, assigned_text, byte_or_none, described_parts, described_text, device_text, entered_text, field_text, identity_text, kinds_tokens, list_text, main_text, read_text, record_text, recorded_text, registers_text, served_text, session_text, target_text, tenure_text, wish_token};
ghost use Rattle.i3c_text.specs.Hex.{byte_text};

use crate::piece::{Description, Listener, Piece};
use i3c_base::{Addr7, Bytes, Identity, Record, Served, Slot};
use i3c_bus::Request;
use i3c_frame::Symbol;
use i3c_lines::{Name, datum_name};
use i3c_text::Text;
use std::alloc::AllocError;
use std::fmt::Write;

/// What is printed for an address or a byte that isn't there.
const NONE: &[u8] = b"--";

impl Listener for Text {
    ghost use Rattle.i3c_script.specs.Printed.{with_piece};

    ghost heard = { with_piece };

    // in line, where it is known which piece is heard
    #[inline(always)]
    fn hear(&mut self, piece: Piece) -> Result<(), AllocError> {
        match piece {
            Piece::Legacy(name, address) => print_added(&name, address, self),
            Piece::Declared(address) => print_place(b"declared ", Some(address), self),
            Piece::Main(name, address) => print_main(&name, address, self),
            Piece::Entered(name, slot) => print_entered(&name, slot, self),
            Piece::Dropped => self.push(b"dropped\n"),
            Piece::Raised(number) => self.push_numbered(b"raised ", number),
            Piece::Asked => self.push(b"asked\n"),
            Piece::Served(served) => print_served(&served, self),
            Piece::Done => self.push(b"done\n"),
            Piece::Bytes(bytes) => print_read(b"bytes", &bytes, self),
            Piece::Told(what, bytes) => print_read(datum_name(what).as_bytes(), &bytes, self),
            Piece::Opened => self.push(b"open\n"),
            Piece::Assigned(address, identity) => print_assigned(address, &identity, self),
            Piece::Nobody => self.push(b"nobody\n"),
            Piece::Ended => self.push(b"ended\n"),
            Piece::Active(address) => print_place(b"active ", address, self),
            Piece::Device(name, address, waiting) => print_device(&name, address, waiting, self),
            Piece::Target(name, address) => print_target(&name, address, self),
            Piece::Records(count) => self.push_numbered(b"records ", count as u64),
            Piece::Entry(number, kept) => print_entry(number, &kept, self),
            Piece::Description(device) => print_description(&device, self),
            Piece::Listed(is_current) => self.push(list_line(is_current).as_bytes()),
            Piece::Session(is_open) => self.push(session_line(is_open).as_bytes()),
            Piece::Tenure { slot, from, to } => print_tenure(slot, from, to, self),
            Piece::FirstSymbol(symbol) => print_symbol(&symbol, self),
            Piece::Symbol(symbol) => print_later(&symbol, self),
            Piece::SymbolsEnd => self.end(),
        }
    }
}

/// Prints the result of the request in a frame's first header.
fn print_served(served: &Served, text: &mut Text) -> Result<(), AllocError>
    ensures { OnOk result (text.new ≡ text.old ++ served_text served.now) }
{
    match served {
        Served::Quiet => text.push(b"quiet\n"),
        Served::Recorded(place) => text.push_numbered(b"recorded ", *place as u64),
        Served::Refused => text.push(b"turned down\n"),
        Served::Torn => text.push(b"torn\n"),
        Served::Joining => text.push(b"joining\n"),
        Served::WantsRole(address) => {
            text.push(b"wants role ")?;
            text.push_byte(address.get())?;
            text.end()
        }
    }
}

/// Prints some tokens, and bytes that were read.
fn print_read(tokens: &[u8], bytes: &Bytes, text: &mut Text) -> Result<(), AllocError>
    ensures { OnOk result (text.new ≡ text.old ++ read_text tokens.now bytes.now) }
{
    text.push(tokens)?;
    text.push(b" ")?;
    text.push_bytes(bytes.as_slice())?;
    text.end()
}

/// Prints an address and the identity that got it.
fn print_assigned(address: Addr7, identity: &Identity, text: &mut Text) -> Result<(), AllocError>
    ensures { OnOk result (text.new ≡ text.old ++ assigned_text address identity.now) }
{
    text.push(b"assigned ")?;
    text.push_byte(address.get())?;
    text.push(b" ")?;
    print_identity(identity, text)
}

/// Prints an identity, and ends the line.
fn print_identity(identity: &Identity, text: &mut Text) -> Result<(), AllocError>
    ensures { OnOk result (text.new ≡ text.old ++ identity_text identity.now) }
{
    text.push_pid(identity.pid)?;
    print_field(identity.bcr.0, text)?;
    print_field(identity.dcr.0, text)?;
    text.end()
}

/// Prints a register of an identity, after a space.
fn print_field(byte: u8, text: &mut Text) -> Result<(), AllocError>
    ensures { OnOk result (text.new ≡ text.old ++ field_text byte) }
{
    text.push(b" ")?;
    text.push_byte(byte)
}

/// Prints an address: two hex digits, or `--` for none.
fn print_address(address: Option<Addr7>, text: &mut Text) -> Result<(), AllocError>
    ensures { OnOk result (text.new ≡ text.old ++ byte_or_none address) }
{
    match address {
        Some(address) => text.push_byte(address.get()),
        None => text.push(NONE),
    }
}

/// Prints a byte: two hex digits, or `--` for none.
fn print_byte(byte: Option<u8>, text: &mut Text) -> Result<(), AllocError>
    ensures { OnOk result (text.new ≡ text.old ++ byte_or_none byte) }
{
    match byte {
        Some(byte) => text.push_byte(byte),
        None => text.push(NONE),
    }
}

/// Prints some tokens and an address, and ends the line.
fn print_place(tokens: &[u8], address: Option<Addr7>, text: &mut Text) -> Result<(), AllocError>
    ensures { OnOk result (text.new ≡ text.old ++ (tokens.now ++ (byte_or_none address ++ 10 ∷ []))) }
{
    text.push(tokens)?;
    print_address(address, text)?;
    text.end()
}

/// Prints a legacy target that was declared.
fn print_added(name: &Name, address: Addr7, text: &mut Text) -> Result<(), AllocError>
    ensures { OnOk result (text.new ≡ text.old ++ added_text name.now address) }
{
    text.push(name.as_bytes())?;
    print_place(b" legacy at ", Some(address), text)
}

/// Prints the main controller, with its address.
fn print_main(name: &Name, address: Option<Addr7>, text: &mut Text) -> Result<(), AllocError>
    ensures { OnOk result (text.new ≡ text.old ++ main_text name.now address) }
{
    text.push(name.as_bytes())?;
    print_place(b" slot 0 at ", address, text)
}

/// Prints a device that entered a slot.
fn print_entered(name: &Name, slot: Slot, text: &mut Text) -> Result<(), AllocError>
    ensures { OnOk result (text.new ≡ text.old ++ entered_text name.now slot) }
{
    text.push(name.as_bytes())?;
    text.push_numbered(b" slot ", slot.index() as u64)
}

/// Prints a present device, its address, and how many of its interrupts wait.
fn print_device(
    name: &Name,
    address: Option<Addr7>,
    waiting: usize,
    text: &mut Text,
) -> Result<(), AllocError>
    ensures { OnOk result (text.new ≡ text.old ++ device_text name.now address waiting) }
{
    text.push(name.as_bytes())?;
    text.push(b" ")?;
    print_address(address, text)?;
    text.push_numbered(b" waiting ", waiting as u64)
}

/// Prints a legacy target.
fn print_target(name: &Name, address: Addr7, text: &mut Text) -> Result<(), AllocError>
    ensures { OnOk result (text.new ≡ text.old ++ target_text name.now address) }
{
    text.push(name.as_bytes())?;
    text.push(b" ")?;
    text.push_byte(address.get())?;
    text.push(b" legacy\n")
}

/// Prints a record with its number.
fn print_entry(number: usize, kept: &Record, text: &mut Text) -> Result<(), AllocError>
    ensures { OnOk result (text.new ≡ text.old ++ (codes "record " ++ (decimal number ++ record_text kept.now))) }
{
    print_number(b"record ", number as u64, text)?;
    print_record(kept, text)
}

/// Prints some tokens and a number.
fn print_number(tokens: &[u8], number: u64, text: &mut Text) -> Result<(), AllocError>
    ensures { OnOk result (text.new ≡ text.old ++ (tokens.now ++ decimal number)) }
{
    text.push(tokens)?;
    text.push_decimal(number)
}

/// Prints a record, after its number.
fn print_record(kept: &Record, text: &mut Text) -> Result<(), AllocError>
    ensures { OnOk result (text.new ≡ text.old ++ record_text kept.now) }
{
    print_number(b" slot ", kept.slot.index() as u64, text)?;
    print_number(b" raise ", kept.number, text)?;
    print_recorded(kept.at, kept.byte, text)
}

/// Prints at which address an interrupt was recorded, and its mandatory byte.
fn print_recorded(at: Addr7, byte: Option<u8>, text: &mut Text) -> Result<(), AllocError>
    ensures { OnOk result (text.new ≡ text.old ++ recorded_text at byte) }
{
    text.push(b" at ")?;
    text.push_byte(at.get())?;
    print_last_byte(b" byte ", byte, text)
}

/// Prints some tokens and a byte, and ends the line.
fn print_last_byte(tokens: &[u8], byte: Option<u8>, text: &mut Text) -> Result<(), AllocError>
    ensures { OnOk result (text.new ≡ text.old ++ (tokens.now ++ (byte_or_none byte ++ 10 ∷ []))) }
{
    text.push(tokens)?;
    print_byte(byte, text)?;
    text.end()
}

/// Prints what a device is.
fn print_description(device: &Description, text: &mut Text) -> Result<(), AllocError>
    ensures { OnOk result (text.new ≡ text.old ++ described_text device.now) }
{
    let kinds = kinds_tokens(device.interrupt, device.role, device.join);
    let wish = wish_token(device.wish);
    print_parts(&device.name, &device.identity, kinds, wish, text)
}

/// Prints a device by its name, what it is, the enabled kinds of its events, and its wish.
fn print_parts(
    name: &Name,
    identity: &Identity,
    kinds: &str,
    wish: &str,
    text: &mut Text,
) -> Result<(), AllocError>
    ensures { OnOk result (text.new ≡ text.old ++ described_parts name.now identity.now kinds.now wish.now) }
{
    text.push(b"device ")?;
    text.push(name.as_bytes())?;
    print_registers(identity, text)?;
    print_tokens(b" enabled ", kinds, text)?;
    print_tokens(b" wishes ", wish, text)?;
    text.end()
}

/// Prints some tokens, and others behind them.
fn print_tokens(tokens: &[u8], others: &str, text: &mut Text) -> Result<(), AllocError>
    ensures { OnOk result (text.new ≡ text.old ++ (tokens.now ++ others.now)) }
{
    text.push(tokens)?;
    text.push(others.as_bytes())
}

/// Prints a PID, a BCR and a DCR.
fn print_registers(identity: &Identity, text: &mut Text) -> Result<(), AllocError>
    ensures { OnOk result (text.new ≡ text.old ++ registers_text identity.now) }
{
    text.push(b" pid ")?;
    text.push_pid(identity.pid)?;
    print_register(b" bcr ", identity.bcr.0, text)?;
    print_register(b" dcr ", identity.dcr.0, text)
}

/// Prints some tokens and a register.
fn print_register(tokens: &[u8], byte: u8, text: &mut Text) -> Result<(), AllocError>
    ensures { OnOk result (text.new ≡ text.old ++ (tokens.now ++ byte_text byte)) }
{
    text.push(tokens)?;
    text.push_byte(byte)
}

/// The tokens of the enabled kinds of events.
fn kinds_tokens(interrupt: bool, role: bool, join: bool) -> &'static str
    ensures { result.now ≡ kinds_tokens interrupt role join }
{
    match (interrupt, role, join) {
        (false, false, false) => "none",
        (true, false, false) => "interrupt",
        (false, true, false) => "role",
        (false, false, true) => "join",
        (true, true, false) => "interrupt role",
        (true, false, true) => "interrupt join",
        (false, true, true) => "role join",
        (true, true, true) => "interrupt role join",
    }
}

/// The token of a wish for the role or to join.
fn wish_token(wish: Option<Request>) -> &'static str
    ensures { result.now ≡ wish_token wish }
{
    match wish {
        Some(Request::Join) => "join",
        Some(Request::Role(_)) => "role",
        Some(Request::Interrupt(_)) | None => "none",
    }
}

/// Whether the list of devices is current, as a line.
fn list_line(is_current: bool) -> &'static str
    ensures { result.now ≡ list_text is_current }
{
    if is_current {
        "list current\n"
    } else {
        "list stale\n"
    }
}

/// Whether a session is open, as a line.
fn session_line(is_open: bool) -> &'static str
    ensures { result.now ≡ session_text is_open }
{
    if is_open {
        "session open\n"
    } else {
        "session closed\n"
    }
}

/// Prints which slot was active while the records with these numbers were made.
fn print_tenure(slot: Slot, from: usize, to: usize, text: &mut Text) -> Result<(), AllocError>
    ensures { OnOk result (text.new ≡ text.old ++ tenure_text slot from to) }
{
    print_number(b"under slot ", slot.index() as u64, text)?;
    print_number(b" records ", from as u64, text)?;
    print_number(b" to ", to as u64, text)?;
    text.end()
}

/// Prints a symbol.
fn print_symbol(symbol: &Symbol, text: &mut Text) -> Result<(), AllocError>
    ensures { OnOk result (text.new ≡ text.old ++ text_of symbol.now) }
{
    match write!(text, "{symbol}") {
        Ok(()) => Ok(()),
        Err(_) => Err(AllocError),
    }
}

/// Prints a symbol, behind a space.
fn print_later(symbol: &Symbol, text: &mut Text) -> Result<(), AllocError>
    ensures { OnOk result (text.new ≡ text.old ++ 32 ∷ text_of symbol.now) }
{
    text.push(b" ")?;
    print_symbol(symbol, text)
}
