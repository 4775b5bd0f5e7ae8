ghost use Rattle.std.specs.Prelude.{◌≡◌, ◌++◌, OnOk, take};
ghost use Rattle.i3c_tracks.specs.Unexpected.{marked_blocks, marked_lines, marked_tracks, refused_lines, refusal_text, refusals_text, unexpected_text};

use crate::plan::Plan;
use crate::report::line_at;
use crate::showing::Showing;
use i3c_scene::Line;
use i3c_text::Text;
use std::alloc::{AllocError, Global};

/// How many lines are named.
const NAMED: usize = 5;

/// Appends how many lines were refused in some order with nothing expected of them: those before the bus that are refused,
/// and those behind it that are marked. Where ends are shown, the first five of these lines are named.
pub(crate) fn push_unexpected(
    alloc: Global,
    lines: &[Vec<u8>],
    plan: &Plan,
    showing: Showing,
    marks: &[Vec<Vec<bool>>],
    text: &mut Text,
) -> Result<(), AllocError>
    ensures { OnOk result (text.new ≡ text.old ++ unexpected_text showing lines.now (refused_lines plan.now marks.now)) }
{
    let mut numbers = Vec::new(alloc);
    numbers.extend_from_slice(&plan.refused)?;
    add_blocks(&plan.blocks, marks, &mut numbers)?;
    text.push_numbered(b"refusals ", numbers.len() as u64)?;
    match showing {
        Showing::Ends => push_refusals(lines, first_named(&numbers), text),
        Showing::Numbers => Ok(()),
    }
}

/// Adds the numbers of the lines that are marked in these blocks.
fn add_blocks(
    blocks: &[Vec<Vec<Line>>],
    marks: &[Vec<Vec<bool>>],
    numbers: &mut Vec<u64>,
) -> Result<(), AllocError>
    ensures { OnOk result (numbers.new.items ≡ numbers.old.items ++ marked_blocks blocks.now marks.now) }
{
    for index in 0..blocks.len().min(marks.len()) {
        add_tracks(&blocks[index], &marks[index], numbers)?;
    }
    Ok(())
}

/// Adds the numbers of the lines that are marked in these tracks.
fn add_tracks(
    tracks: &[Vec<Line>],
    marks: &[Vec<bool>],
    numbers: &mut Vec<u64>,
) -> Result<(), AllocError>
    ensures { OnOk result (numbers.new.items ≡ numbers.old.items ++ marked_tracks tracks.now marks.now) }
{
    for index in 0..tracks.len().min(marks.len()) {
        add_lines(&tracks[index], &marks[index], numbers)?;
    }
    Ok(())
}

/// Adds the numbers of these lines that are marked.
fn add_lines(lines: &[Line], marks: &[bool], numbers: &mut Vec<u64>) -> Result<(), AllocError>
    ensures { OnOk result (numbers.new.items ≡ numbers.old.items ++ marked_lines lines.now marks.now) }
{
    for index in 0..lines.len().min(marks.len()) {
        if marks[index] {
            numbers.push(lines[index].number)?;
        }
    }
    Ok(())
}

/// The first of these numbers.
fn first_named(numbers: &[u64]) -> &[u64]
    ensures { result.now ≡ take 5 numbers.now }
{
    match numbers.get(..NAMED) {
        Some(first) => first,
        None => numbers,
    }
}

/// Appends each line that was refused, with its number.
fn push_refusals(lines: &[Vec<u8>], numbers: &[u64], text: &mut Text) -> Result<(), AllocError>
    ensures { OnOk result (text.new ≡ text.old ++ refusals_text lines.now numbers.now) }
{
    for index in 0..numbers.len() {
        push_refusal(lines, numbers[index], text)?;
    }
    Ok(())
}

/// Appends a line that was refused, with its number.
fn push_refusal(lines: &[Vec<u8>], number: u64, text: &mut Text) -> Result<(), AllocError>
    ensures { OnOk result (text.new ≡ text.old ++ refusal_text lines.now number) }
{
    text.push(b"refusal ")?;
    text.push_decimal(number)?;
    text.push(b" ")?;
    text.push(line_at(lines, number))?;
    text.end()
}
