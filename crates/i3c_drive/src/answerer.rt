ghost use Rattle.std.specs.Prelude.{◌≡◌, ℕ, List, [], OnOk};

use i3c_text::Text;
use std::alloc::AllocError;

/// Answers the lines of another program, one after another.
pub trait Answerer: Sized {
    /// This answerer answers a line of this number by this text, and is this one afterwards.
    ghost answers: { Self → ℕ → List ℕ → List ℕ → Self → Type 0 };

    /// Answers a line: `text` is empty before, and the answer afterwards. A line that is longer than 257 bytes is cut to its
    /// first 257.
    ///
    /// # Errors
    ///
    /// There is no memory for it.
    fn answer(&mut self, number: u64, line: &[u8], text: &mut Text) -> Result<(), AllocError>
        requires empty { text.old ≡ [] }
        ensures { OnOk result (answers self.old number line.now text.new self.new) };
}
