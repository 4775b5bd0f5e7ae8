ghost use Rattle.std.specs.Prelude.{◌≡◌, [], ◌∷◌, ◌++◌, OnOk, codes, map};
ghost use Rattle.std.specs.Fmt.{decimal};
ghost use Rattle.i3c_lines.specs.Forms.{willing_tokens};
ghost use Rattle.i3c_text.specs.Hex.{byte_text, hex_text};
ghost use Rattle.i3c_lines.specs.Data.{datum_token, length_token};
ghost use Rattle.i3c_lines.specs.Naming.{letters};
ghost use Rattle.i3c_lines.specs.Printing.{behind, but_tokens, byte_tokens, command_text, device_tokens, frame_tokens, identity_tokens, sent_tokens, spaced, verdicts_tokens, written_tokens};

use crate::command::Command;
use crate::data::{datum_name, length_token};
use crate::names::Name;
use crate::sent::Sent;
use bitflags::Flags;
use i3c_base::{Addr7, Datum, Direction, Fixed, Identity, Kinds, Length, Lvr, Pid, Setup, Verdict};
use i3c_step::Command as Frame;
use i3c_text::Text;
use std::alloc::AllocError;

impl Command {
    /// Appends the line that asks for it, without its end, to a text.
    pub fn push(&self, text: &mut Text) -> Result<(), AllocError>
        ensures { OnOk result (text.new ≡ text.old ++ command_text self.now) }
    {
        match self {
            Command::Legacy { name, address, lvr } => push_legacy(text, name, *address, *lvr),
            Command::Declare { address, identity } => push_declare(text, *address, identity),
            Command::Main { name, setup } => push_device(text, b"main", name, setup),
            Command::Attach { name, setup } => push_device(text, b"attach", name, setup),
            Command::DropOff { name } => push_named(text, b"drop", name),
            Command::Raise { name, byte } => push_raise(text, name, *byte),
            Command::AskJoin { name } => push_named(text, b"ask-join", name),
            Command::AskRole { name } => push_named(text, b"ask-role", name),
            Command::Frame(frame) => push_frame(text, frame),
            Command::HandOver { to } => push_addressed(text, b"handover", *to),
            Command::Open => text.push(b"open"),
            Command::Round => text.push(b"round"),
            Command::End => text.push(b"end"),
            Command::Daa => text.push(b"daa"),
            Command::As { name, sent } => push_as(text, name, sent),
            Command::Policy(policy) => push_policy(text, policy),
            Command::PolicyBut { kinds, but } => push_policy_but(text, kinds, but.as_slice()),
            Command::Cut { name, bit } => push_cut(text, name, *bit),
            Command::Show => text.push(b"show"),
            Command::ShowAll => text.push(b"show all"),
            Command::ShowFrom(first) => push_counted(text, b"show", *first),
            Command::Forget(last) => push_counted(text, b"forget", *last),
            Command::Symbols => text.push(b"symbols"),
            Command::Frames(count) => push_counted(text, b"frames", u64::from(*count)),
        }
    }
}

/// Appends a token behind a space.
fn push_token(text: &mut Text, token: &[u8]) -> Result<(), AllocError>
    ensures { OnOk result (text.new ≡ text.old ++ behind (token.now ∷ [])) }
{
    text.push(b" ")?;
    text.push(token)
}

/// Appends a byte behind a space.
fn push_byte(text: &mut Text, byte: u8) -> Result<(), AllocError>
    ensures { OnOk result (text.new ≡ text.old ++ behind (byte_text byte ∷ [])) }
{
    text.push(b" ")?;
    text.push_byte(byte)
}

/// Appends a provisioned ID behind a space.
fn push_pid(text: &mut Text, pid: Pid) -> Result<(), AllocError>
    ensures { OnOk result (text.new ≡ text.old ++ behind (hex_text 12 pid ∷ [])) }
{
    text.push(b" ")?;
    text.push_pid(pid)
}

/// Appends a first token, and a name.
fn push_named(text: &mut Text, first: &[u8], name: &Name) -> Result<(), AllocError>
    ensures { OnOk result (text.new ≡ text.old ++ spaced (first.now ∷ letters name.now ∷ [])) }
{
    text.push(first)?;
    push_token(text, name.as_bytes())
}

/// Appends a first token, and an address.
fn push_addressed(text: &mut Text, first: &[u8], address: Addr7) -> Result<(), AllocError>
    ensures { OnOk result (text.new ≡ text.old ++ spaced (first.now ∷ byte_text address ∷ [])) }
{
    text.push(first)?;
    push_byte(text, address.get())
}

/// Appends a declaration of a legacy target.
fn push_legacy(text: &mut Text, name: &Name, address: Addr7, lvr: Lvr) -> Result<(), AllocError>
    ensures { OnOk result (text.new ≡ text.old ++ spaced (codes "legacy" ∷ letters name.now ∷ byte_text address ∷ byte_text lvr.0 ∷ [])) }
{
    push_named(text, b"legacy", name)?;
    push_byte(text, address.get())?;
    push_byte(text, lvr.0)
}

/// Appends an identity's three tokens, each behind a space.
fn push_identity(text: &mut Text, identity: &Identity) -> Result<(), AllocError>
    ensures { OnOk result (text.new ≡ text.old ++ behind (identity_tokens identity.now)) }
{
    push_pid(text, identity.pid)?;
    push_byte(text, identity.bcr.0)?;
    push_byte(text, identity.dcr.0)
}

/// Appends a declaration of an identity.
fn push_declare(text: &mut Text, address: Addr7, identity: &Identity) -> Result<(), AllocError>
    ensures { OnOk result (text.new ≡ text.old ++ spaced (codes "declare" ∷ byte_text address ∷ identity_tokens identity.now)) }
{
    push_addressed(text, b"declare", address)?;
    push_identity(text, identity)
}

/// Appends a first token, and a device's tokens.
fn push_device(text: &mut Text, first: &[u8], name: &Name, setup: &Setup) -> Result<(), AllocError>
    ensures { OnOk result (text.new ≡ text.old ++ spaced (first.now ∷ device_tokens name.now setup.now)) }
{
    push_named(text, first, name)?;
    push_identity(text, &setup.identity)?;
    push_willing(text, setup.willing)
}

/// Appends `decline` for a device that doesn't take the controller role.
fn push_willing(text: &mut Text, willing: bool) -> Result<(), AllocError>
    ensures { OnOk result (text.new ≡ text.old ++ behind (willing_tokens willing)) }
{
    if willing {
        Ok(())
    } else {
        push_token(text, b"decline")
    }
}

/// Appends a raise.
fn push_raise(text: &mut Text, name: &Name, byte: Option<u8>) -> Result<(), AllocError>
    ensures { OnOk result (text.new ≡ text.old ++ spaced (codes "raise" ∷ letters name.now ∷ byte_tokens byte)) }
{
    push_named(text, b"raise", name)?;
    match byte {
        None => Ok(()),
        Some(byte) => push_byte(text, byte),
    }
}

/// Appends a line of a controller with this name.
fn push_as(text: &mut Text, name: &Name, sent: &Sent) -> Result<(), AllocError>
    ensures { OnOk result (text.new ≡ text.old ++ spaced (codes "as" ∷ letters name.now ∷ sent_tokens sent.now)) }
{
    push_named(text, b"as", name)?;
    text.push(b" ")?;
    push_sent(text, sent)
}

/// Appends a line that a controller sends.
fn push_sent(text: &mut Text, sent: &Sent) -> Result<(), AllocError>
    ensures { OnOk result (text.new ≡ text.old ++ spaced (sent_tokens sent.now)) }
{
    match sent {
        Sent::Frame(frame) => push_frame(text, frame),
        Sent::HandOver { to } => push_addressed(text, b"handover", *to),
        Sent::Open => text.push(b"open"),
        Sent::Round => text.push(b"round"),
        Sent::End => text.push(b"end"),
        Sent::Daa => text.push(b"daa"),
    }
}

/// Appends a frame's line.
fn push_frame(text: &mut Text, frame: &Frame) -> Result<(), AllocError>
    ensures { OnOk result (text.new ≡ text.old ++ spaced (frame_tokens frame.now)) }
{
    match frame {
        Frame::Serve => text.push(b"serve"),
        Frame::Enec(to, kinds) => push_kinds(text, b"enec", *to, kinds),
        Frame::Disec(to, kinds) => push_kinds(text, b"disec", *to, kinds),
        Frame::Reset => text.push(b"reset"),
        Frame::SendList => text.push(b"list"),
        Frame::ReadFrom(at) => push_addressed(text, b"read", *at),
        Frame::WriteTo(at, bytes) => push_write(text, *at, bytes.as_slice()),
        Frame::SetStatic(at, to) => push_setting(text, b"setdasa", *at, *to),
        Frame::SetNew(at, to) => push_setting(text, b"setnewda", *at, *to),
        Frame::Get(what, at) => push_get(text, *what, *at),
        Frame::SetLength(way, most, to) => push_length(text, *way, *most, *to),
    }
}

/// Appends a first token, kinds of events, and an address if there is one.
fn push_kinds(
    text: &mut Text,
    first: &[u8],
    to: Option<Addr7>,
    kinds: &Kinds,
) -> Result<(), AllocError>
    ensures { OnOk result (text.new ≡ text.old ++ spaced (first.now ∷ byte_text kinds.now.0 ∷ byte_tokens to)) }
{
    text.push(first)?;
    push_byte(text, kinds.bits())?;
    match to {
        None => Ok(()),
        Some(to) => push_byte(text, to.get()),
    }
}

/// Appends a private write.
fn push_write(text: &mut Text, at: Addr7, bytes: &[u8]) -> Result<(), AllocError>
    ensures { OnOk result (text.new ≡ text.old ++ spaced (codes "write" ∷ byte_text at ∷ written_tokens bytes.now)) }
{
    push_addressed(text, b"write", at)?;
    if bytes.is_empty() {
        return Ok(());
    }
    text.push(b" ")?;
    text.push_bytes(bytes)
}

/// Appends a first token, and two addresses.
fn push_setting(text: &mut Text, first: &[u8], at: Addr7, to: Addr7) -> Result<(), AllocError>
    ensures { OnOk result (text.new ≡ text.old ++ spaced (first.now ∷ byte_text at ∷ byte_text to ∷ [])) }
{
    push_addressed(text, first, at)?;
    push_byte(text, to.get())
}

/// Appends a question for a datum.
fn push_get(text: &mut Text, what: Datum, at: Addr7) -> Result<(), AllocError>
    ensures { OnOk result (text.new ≡ text.old ++ spaced (datum_token what ∷ byte_text at ∷ [])) }
{
    text.push(b"get")?;
    push_addressed(text, datum_name(what).as_bytes(), at)
}

/// Appends a maximum length, and an address if there is one.
fn push_length(
    text: &mut Text,
    way: Direction,
    most: Length,
    to: Option<Addr7>,
) -> Result<(), AllocError>
    ensures { OnOk result (text.new ≡ text.old ++ spaced (length_token way ∷ decimal most ∷ byte_tokens to)) }
{
    text.push(length_token(way).as_bytes())?;
    text.push(b" ")?;
    text.push_decimal(u64::from(most.get()))?;
    match to {
        None => Ok(()),
        Some(to) => push_byte(text, to.get()),
    }
}

/// Appends a policy's line.
fn push_policy(text: &mut Text, policy: &Fixed) -> Result<(), AllocError>
    ensures { OnOk result (text.new ≡ text.old ++ spaced (codes "policy" ∷ verdicts_tokens policy.now.join policy.now.role policy.now.interrupt)) }
{
    text.push(b"policy")?;
    push_token(
        text,
        verdicts_tokens(policy.join, policy.role, policy.interrupt).as_bytes(),
    )
}

/// Appends the line of a policy with the devices that it excepts.
fn push_policy_but(text: &mut Text, kinds: &Fixed, but: &[Name]) -> Result<(), AllocError>
    ensures { OnOk result (text.new ≡ text.old ++ spaced (codes "policy" ∷ but_tokens kinds.now but.now)) }
{
    push_policy(text, kinds)?;
    push_token(text, b"but")?;
    push_names(text, but)
}

/// Appends names, each behind a space.
fn push_names(text: &mut Text, names: &[Name]) -> Result<(), AllocError>
    ensures { OnOk result (text.new ≡ text.old ++ behind (map letters names.now)) }
{
    let Some((name, rest)) = names.split_first() else {
        return Ok(());
    };
    push_token(text, name.as_bytes())?;
    push_names(text, rest)
}

/// The tokens of a policy, with spaces between.
fn verdicts_tokens(join: Verdict, role: Verdict, interrupt: Verdict) -> &'static str
    ensures { result.now ≡ spaced (verdicts_tokens join role interrupt) }
{
    match (join, role, interrupt) {
        (Verdict::Accept, Verdict::Accept, Verdict::Accept) => "all",
        (Verdict::Accept, Verdict::Accept, Verdict::Refuse) => "joins roles",
        (Verdict::Accept, Verdict::Refuse, Verdict::Accept) => "joins interrupts",
        (Verdict::Accept, Verdict::Refuse, Verdict::Refuse) => "joins",
        (Verdict::Refuse, Verdict::Accept, Verdict::Accept) => "roles interrupts",
        (Verdict::Refuse, Verdict::Accept, Verdict::Refuse) => "roles",
        (Verdict::Refuse, Verdict::Refuse, Verdict::Accept) => "interrupts",
        (Verdict::Refuse, Verdict::Refuse, Verdict::Refuse) => "none",
    }
}

/// Appends a cut.
fn push_cut(text: &mut Text, name: &Name, bit: u16) -> Result<(), AllocError>
    ensures { OnOk result (text.new ≡ text.old ++ spaced (codes "cut" ∷ letters name.now ∷ decimal bit ∷ [])) }
{
    push_named(text, b"cut", name)?;
    text.push(b" ")?;
    text.push_decimal(u64::from(bit))
}

/// Appends a first token, and a count.
fn push_counted(text: &mut Text, first: &[u8], count: u64) -> Result<(), AllocError>
    ensures { OnOk result (text.new ≡ text.old ++ spaced (first.now ∷ decimal count ∷ [])) }
{
    text.push(first)?;
    text.push(b" ")?;
    text.push_decimal(count)
}
