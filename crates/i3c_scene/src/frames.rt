ghost use Rattle.std.specs.Prelude.{◌≡◌};
ghost use Rattle.i3c_scene.specs.Frames.{sends_frame, sends_many, tells_past};

use i3c_lines::{Command, Sent};

/// Whether a command sends a frame, in which a device may lose power.
pub fn sends_frame(command: &Command) -> bool
    ensures { result ≡ sends_frame command.now }
{
    match command {
        Command::Frame(_)
        | Command::HandOver { .. }
        | Command::Open
        | Command::Round
        | Command::Daa => true,
        Command::As { sent, .. } => sent.has_frame(),
        _ => false,
    }
}

/// Whether a command sends several frames, between which no line of another track runs.
pub fn sends_many(command: &Command) -> bool
    ensures { result ≡ sends_many command.now }
{
    matches!(
        command,
        Command::Daa
            | Command::As {
                sent: Sent::Daa,
                ..
            }
    )
}

/// Whether a command prints what a scene doesn't keep: symbols, frames, or who was active at which records.
pub(crate) fn tells_past(command: &Command) -> bool
    ensures { result ≡ tells_past command.now }
{
    matches!(
        command,
        Command::ShowAll | Command::Symbols | Command::Frames(_)
    )
}
