ghost use Rattle.std.specs.Prelude.{◌≡◌, [], ◌∷◌, ◌++◌, codes, OnOk};
ghost use Rattle.i3c_lines.specs.Refusing.{refusal_text};

use i3c_lines::Refusal;
use i3c_text::Text;
use std::alloc::AllocError;

/// Prints that a line is refused, and why.
pub(crate) fn show_refusal(refusal: &Refusal, text: &mut Text) -> Result<(), AllocError>
    ensures { OnOk result (text.new ≡ text.old ++ (codes "refused " ++ (refusal_text refusal.now ++ 10 ∷ []))) }
{
    text.push(b"refused ")?;
    refusal.push(text)?;
    text.end()
}
