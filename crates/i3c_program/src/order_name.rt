ghost use Rattle.std.specs.Prelude.{◌≡◌, ◌++◌, OnOk, length};
ghost use Rattle.std.specs.Fmt.{decimal};
ghost use Rattle.i3c_orders.specs.Numbers.{numbers_of, numbers_text};
ghost use Rattle.i3c_program.specs.Answers.{choices_text};

use crate::order_script::Spoken;
use i3c_text::Text;
use std::alloc::AllocError;

/// Appends the numbers of the answers that the lines of a run took, by which it is found again.
pub(crate) fn push_numbers(choices: &[Spoken], text: &mut Text) -> Result<(), AllocError>
    ensures { OnOk result (text.new ≡ text.old ++ numbers_text (numbers_of choices.now)) }
{
    let [first, rest @ ..] = choices else {
        return text.push(b"-");
    };
    push_number(first, text)?;
    for index in 0..rest.len() {
        text.push(b".")?;
        push_number(&rest[index], text)?;
    }
    Ok(())
}

/// Appends the number of the answer that a line took.
fn push_number(choice: &Spoken, text: &mut Text) -> Result<(), AllocError>
    ensures { OnOk result (text.new ≡ text.old ++ decimal (length choice.now.left.items)) }
{
    text.push_decimal(choice.left.len() as u64)
}

/// Appends these numbers as a line.
pub(crate) fn push_choices(choices: &[Spoken], text: &mut Text) -> Result<(), AllocError>
    ensures { OnOk result (text.new ≡ text.old ++ choices_text choices.now) }
{
    text.push(b"choices ")?;
    push_numbers(choices, text)?;
    text.end()
}
