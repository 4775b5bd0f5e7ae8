ghost use Rattle.std.specs.Prelude.{◌≡◌, ◌++◌, ◌∷◌, [], codes, IfOk, MatchOption, OnOk};
ghost use Rattle.i3c_lines.specs.Faults.{IsSo};
ghost use Rattle.i3c_lines.specs.Forms.{HasNoForm};
ghost use Rattle.i3c_runner.specs.Expecting.{IsBad, IsMarked, unmet_line};

use i3c_bus::Bus;
use i3c_facts::{Before, Facts, mark_fault, read_mark};
use i3c_lines::{FormFault, Names, form_fault};
use i3c_text::Text;
use std::alloc::{AllocError, Global};

/// Why a script may not have a line, if it may not.
pub(crate) fn line_fault(alloc: Global, line: &[u8]) -> Result<Option<FormFault<'_>>, AllocError>
    ensures { IfOk result (λ fault. MatchOption fault (HasNoForm line.now → IsMarked line.now) (λ fault. IsBad line.now × IsSo line.now fault)) }
{
    let Some(fault) = form_fault(line) else {
        return Ok(None);
    };
    match read_mark(alloc, line) {
        Ok(Some(_)) => Ok(None),
        Ok(None) => Ok(Some(told_fault(line, fault))),
        Err(short) => Err(short),
    }
}

/// What is told of a line without a form, whose fault this is: of one that begins as a mark, which of the mark's words is wrong.
pub(crate) fn told_fault<'a>(line: &'a [u8], fault: FormFault<'a>) -> FormFault<'a>
    requires { IsSo line.now fault }
    ensures { IsSo line.now result }
{
    let FormFault::Unknown(_) = fault else {
        return fault;
    };
    match mark_fault(line) {
        Some(fault) => fault,
        None => fault,
    }
}

/// Prints that an expectation is met.
pub(crate) fn push_met(text: &mut Text) -> Result<(), AllocError>
    ensures { OnOk result (text.new ≡ text.old ++ (codes "met" ++ 10 ∷ [])) }
{
    text.push(b"met")?;
    text.end()
}

/// Prints that an expectation isn't met: the number of its line, and the first fact as it would hold.
pub(crate) fn push_unmet(
    bus: &Bus,
    names: &Names,
    before: &Before,
    number: u64,
    facts: &Facts,
    text: &mut Text,
) -> Result<(), AllocError>
    ensures { OnOk result (text.new ≡ text.old ++ unmet_line bus.now.state names.now before.now number facts.now) }
{
    text.push(b"unmet ")?;
    text.push_decimal(number)?;
    text.push(b" ")?;
    facts.push_unmet(bus, names, before, text)?;
    text.end()
}
