ghost use Rattle.std.specs.Prelude.{◌≡◌, ℕ, ◌++◌, List, OnOk};
ghost use Rattle.i3c_json.specs.Objects.{IsLineOf, data_of, verdict_of};

use crate::aside::Aside;
use crate::told::{Told, push_told};
use crate::verdict::Verdict;
use i3c_base::Record;
use i3c_lines::{Name, Refusal};
use i3c_script::Piece;
use i3c_text::Text;
use std::alloc::{AllocError, Global};

/// The answer to a line, in its parts.
#[derive(Clone, Copy)]
pub struct Answer<'a> {
    /// The line's number, from 1.
    pub number: u64,
    /// Why the line was refused, if it was.
    pub refused: Option<Refusal>,
    /// The pieces that the line came to.
    pub pieces: &'a [Piece],
    /// The record that the line added to the log, if it did, and its number there, from 1.
    pub added: Option<(u64, Record)>,
    /// The names of the devices that ask, if they have changed.
    pub asking: Option<&'a [Name]>,
}

/// Appends the object of an answer to a text, and ends the line.
pub fn push_object(alloc: Global, answer: &Answer<'_>, text: &mut Text) -> Result<(), AllocError>
    ensures { OnOk result ((line : List ℕ) × (text.new ≡ text.old ++ line) × IsLineOf (data_of answer.now) line) }
{
    let told = Told {
        number: answer.number,
        verdict: verdict_of(&answer.refused),
        pieces: answer.pieces,
        added: answer.added,
        asking: answer.asking,
        aside: Aside::Nothing,
    };
    push_told(alloc, &told, text)
}

/// The verdict on a line that was done, or refused for this reason.
fn verdict_of(refused: &Option<Refusal>) -> Verdict<'_>
    ensures { result ≡ verdict_of refused.now }
{
    match refused {
        None => Verdict::Done,
        Some(why) => Verdict::Refused(*why),
    }
}
