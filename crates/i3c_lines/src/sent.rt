ghost use Rattle.std.specs.Prelude.{◌≡◌};
ghost use Rattle.i3c_lines.specs.Sending.{is_frame_word, is_question_word, is_role_word, is_sent_word, is_setting_word, sent_of};

use crate::capitals::is;
use crate::command::Command;
use i3c_base::Addr7;
use i3c_step::Command as Frame;

/// A line that a controller sends: what may stand behind `as NAME`.
#[derive(Drop)]
pub enum Sent {
    /// A line that sends a frame under the role.
    Frame(Frame),
    /// `handover ADDR`: the role is offered to the device at an address.
    HandOver { to: Addr7 },
    /// `open`: a session of dynamic address assignment is opened, and stays open.
    Open,
    /// `round`: one round of the open session.
    Round,
    /// `end`: the open session ends.
    End,
    /// `daa`: a whole session of dynamic address assignment.
    Daa,
}

impl Sent {
    ghost use Rattle.i3c_lines.specs.Sending.{has_frame};

    /// Whether it sends a frame, which takes the cuts that wait.
    pub fn has_frame(&self) -> bool
        ensures { result ≡ has_frame self.now }
    {
        !matches!(self, Sent::End)
    }
}

/// The line that a controller sends with this command, if it is the command of such a line.
pub(crate) fn sent_of(command: Command) -> Option<Sent>
    ensures { result ≡ sent_of command }
{
    match command {
        Command::Frame(frame) => Some(Sent::Frame(frame)),
        Command::HandOver { to } => Some(Sent::HandOver { to }),
        Command::Open => Some(Sent::Open),
        Command::Round => Some(Sent::Round),
        Command::End => Some(Sent::End),
        Command::Daa => Some(Sent::Daa),
        _ => None,
    }
}

/// Whether a line that a controller sends begins with this token.
pub(crate) fn begins_sent(token: &[u8]) -> bool
    ensures { result ≡ is_sent_word token.now }
{
    is_frame_word(token) || is_setting_word(token) || is_question_word(token) || is_role_word(token)
}

/// Whether a frame's line begins with this token, and sets and asks for nothing.
fn is_frame_word(token: &[u8]) -> bool
    ensures { result ≡ is_frame_word token.now }
{
    is(token, b"serve")
        || is(token, b"enec")
        || is(token, b"disec")
        || is(token, b"reset")
        || is(token, b"list")
        || is(token, b"read")
        || is(token, b"write")
}

/// Whether a line that sets an address or a length begins with this token.
fn is_setting_word(token: &[u8]) -> bool
    ensures { result ≡ is_setting_word token.now }
{
    is(token, b"setdasa") || is(token, b"setnewda") || is(token, b"setmwl") || is(token, b"setmrl")
}

/// Whether a question for a datum begins with this token.
fn is_question_word(token: &[u8]) -> bool
    ensures { result ≡ is_question_word token.now }
{
    is(token, b"getpid")
        || is(token, b"getbcr")
        || is(token, b"getdcr")
        || is(token, b"getstatus")
        || is(token, b"getmwl")
        || is(token, b"getmrl")
        || is(token, b"getmxds")
        || is(token, b"getcaps")
}

/// Whether a line of the role or of a session begins with this token.
fn is_role_word(token: &[u8]) -> bool
    ensures { result ≡ is_role_word token.now }
{
    is(token, b"handover")
        || is(token, b"open")
        || is(token, b"round")
        || is(token, b"end")
        || is(token, b"daa")
}
