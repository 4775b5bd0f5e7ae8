ghost use Rattle.std.specs.Prelude.{◌≡◌, Some, None, MatchResult, option_map, slice_get};
ghost use Rattle.i3c_word.specs.declared.Word.{Word as WordValue};
ghost use Rattle.i3c_ccc.specs.Codes.{codes_of, extended, table};
ghost use Rattle.i3c_ccc.specs.Commands.{IsCommandOf, first_fault, wanted};

use crate::codes::{Code, CodeSet};
use i3c_word::{Word, read_word};
use thiserror::Error;

/// A command as it is read after one header: its code, and the byte of kinds of a broadcast ENEC or DISEC.
#[derive(Clone, Copy, Debug, PartialEq, Eq)]
pub struct Command {
    /// What is commanded.
    pub code: Code,
    /// The byte of kinds, of ENEC and DISEC to all.
    pub kinds: Option<u8>,
}

/// Why words are no command. Words are counted from 1.
#[derive(Clone, Copy, Debug, PartialEq, Eq, Drop, Error)]
pub enum CccFault {
    /// This word lacks.
    #[error("word {0} lacks")]
    Truncated(usize),
    /// This word has a wrong T bit.
    #[error("word {0} has a wrong T bit")]
    Parity(usize),
}

/// Reads the words after one header as a command, by the table of codes: the code, and for a broadcast ENEC or DISEC one word
/// more (I3C Basic 5.1.9.3). Further words aren't looked at. The first word that lacks or has a wrong T bit is the fault.
pub fn read_command(words: &[Word]) -> Result<Command, CccFault>
    ensures { MatchResult result
        (λ command. (first_fault 1 (wanted words.now) words.now ≡ None) × IsCommandOf table words.now command)
        (λ fault. first_fault 1 (wanted words.now) words.now ≡ Some fault) }
{
    command_in(CodeSet::Table, words)
}

/// An extension of this engine (own): the same with the codes of `extended_code_of`.
pub fn read_extended_command(words: &[Word]) -> Result<Command, CccFault>
    ensures { MatchResult result
        (λ command. (first_fault 1 (wanted words.now) words.now ≡ None) × IsCommandOf extended words.now command)
        (λ fault. first_fault 1 (wanted words.now) words.now ≡ Some fault) }
{
    command_in(CodeSet::Extended, words)
}

// The command that words are, where these codes are known by name.
fn command_in(codes: CodeSet, words: &[Word]) -> Result<Command, CccFault>
    ensures { MatchResult result
        (λ command. (first_fault 1 (wanted words.now) words.now ≡ None) × IsCommandOf (codes_of codes) words.now command)
        (λ fault. first_fault 1 (wanted words.now) words.now ≡ Some fault) }
{
    let [first, rest @ ..] = words else {
        return Err(CccFault::Truncated(1));
    };
    let Ok(byte) = read_word(*first) else {
        return Err(CccFault::Parity(1));
    };
    let code = codes.code_of(byte);
    let kinds = match code {
        Code::Enec | Code::Disec => Some(read_kinds(rest)?),
        _ => None,
    };
    Ok(Command { code, kinds })
}

// The byte of kinds, from the second word on.
fn read_kinds(words: &[Word]) -> Result<u8, CccFault>
    ensures { MatchResult result
        (λ kinds. (first_fault 2 1 words.now ≡ None) × (option_map (λ (word : WordValue). word.byte) (slice_get words.now 0) ≡ Some kinds))
        (λ fault. first_fault 2 1 words.now ≡ Some fault) }
{
    let Some(word) = words.first() else {
        return Err(CccFault::Truncated(2));
    };
    read_word(*word).map_err(|_| CccFault::Parity(2))
}
