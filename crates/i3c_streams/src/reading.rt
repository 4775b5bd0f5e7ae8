ghost use Rattle.std.specs.Prelude.{◌≡◌, ◌<◌, length, MatchResult};
ghost use Rattle.std.specs.Io.KnownBytes.{Keeps};
ghost use Rattle.i3c_streams.specs.Reading.{IsPiece};

use crate::faults::ScriptFault;
use std::io::Read;

/// How many bytes a script or a trace may have.
pub const MOST_BYTES: usize = 1 << 20;

/// How many bytes are read at once.
pub const CHUNK: usize = 8192;

/// What one turn of reading gave.
#[derive(Clone, Copy)]
pub enum Piece {
    /// The input ended.
    End,
    /// This many bytes came; they are allowed.
    Within(usize),
    /// More bytes came than are allowed; this many were.
    Beyond(usize),
}

/// Reads the next bytes of an input, of which at most `left` more are allowed.
///
/// # Errors
///
/// The reader fails.
pub fn read_piece<R: Read>(
    reader: &mut R,
    chunk: &mut [u8],
    left: usize,
) -> Result<Piece, ScriptFault>
    requires { 0 < length chunk.old }
    ensures { MatchResult result (IsPiece (R.remaining reader.old) (R.remaining reader.new) left chunk.new)
        (λ fault. (fault ≡ ScriptFault.Read) × Keeps (R.remaining reader.old) (R.remaining reader.new)) }
{
    let Ok(count) = reader.read(chunk) else {
        return Err(ScriptFault::Read);
    };
    if count == 0 {
        Ok(Piece::End)
    } else if count <= left {
        Ok(Piece::Within(count))
    } else {
        Ok(Piece::Beyond(left))
    }
}
