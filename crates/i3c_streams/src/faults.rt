use thiserror::Error;

/// Why a script's run ended early. The lines before it were run, and what they print was written.
#[derive(Clone, Copy, Debug, PartialEq, Eq, Drop, Error)]
pub enum ScriptFault {
    /// There was no memory for a line, which printed nothing.
    #[error("out of memory")]
    Memory,
    /// The reader failed.
    #[error("the script can't be read")]
    Read,
    /// The writer failed, or took nothing.
    #[error("the output can't be written")]
    Write,
    /// The script is longer than a script may be.
    #[error("the script is too large")]
    TooLarge,
}
