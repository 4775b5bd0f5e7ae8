ghost use Rattle.std.specs.Prelude.{◌≡◌, ℕ, List, ◌++◌, ◌∷◌, [], IfOk, OnOk, codes};
ghost use Rattle.i3c_scene.specs.Trying.{LineSteps};
ghost use Rattle.i3c_tracks.specs.Courses.{AreRunsOf, LastBreaks, RunsLead};
ghost use Rattle.i3c_tracks.specs.Telling.{breaks_text, comment_text, expectation_text, heading_text, line_at, lines_text, run_text, runs_text, script_text, short_line, told_text};
ghost use Rattle.i3c_tracks.specs.declared.course.Run.{Run as RunValue};

use crate::course::{Run, runs_of};
use crate::plan::Plan;
use crate::report::{line_at, push_cuts};
use i3c_explore::Turn;
use i3c_scene::Scene;
use i3c_text::Text;
use std::alloc::{AllocError, Global};

/// How many bytes a line of a script may have.
const LINE_LENGTH: usize = 256;

/// How many letters `always` has, and `expect` too.
const TOKEN_LENGTH: usize = 6;

/// Appends an order that breaks an expectation, as a script.
pub(crate) fn push_broken(
    alloc: Global,
    lines: &[Vec<u8>],
    plan: &Plan,
    order: &[Turn],
    text: &mut Text,
) -> Result<(), AllocError>
    ensures { OnOk result ((runs : List RunValue) × (number : ℕ) × (there : List ℕ) × AreRunsOf plan.now.blocks.items plan.now.opened.items order.now runs
        × LastBreaks plan.now.start runs number there × (text.new ≡ text.old ++ script_text lines.now plan.now.before.items runs number there)) }
{
    let runs = runs_of(alloc, &plan.blocks, &plan.opened, order)?;
    let mut found = Text::new(alloc);
    let number = unmet_number(alloc, &plan.start, &runs, &mut found)?;
    push_script(
        alloc,
        lines,
        &plan.before,
        &runs,
        number,
        found.as_bytes(),
        text,
    )
}

/// Appends an order as a script: the lines of these numbers, and the lines that run. The last of them breaks the expectation
/// of the line with this number.
fn push_script(
    alloc: Global,
    lines: &[Vec<u8>],
    before: &[u64],
    runs: &[Run<'_>],
    number: u64,
    found: &[u8],
    text: &mut Text,
) -> Result<(), AllocError>
    ensures { OnOk result (text.new ≡ text.old ++ script_text lines.now before.now runs.now number found.now) }
{
    push_heading(alloc, lines, number, found, text)?;
    push_lines(lines, before, text)?;
    push_runs(lines, runs, text)?;
    push_expectation(lines, number, text)
}

/// The number of the first expectation that the last of these lines breaks, which run from this scene on. What is there is
/// appended to the text.
///
/// # Errors
///
/// There is no memory for it; or the lines don't lead to an expectation that breaks.
pub fn unmet_number(
    alloc: Global,
    start: &Scene,
    runs: &[Run<'_>],
    found: &mut Text,
) -> Result<u64, AllocError>
    ensures { IfOk result (λ number. (there : List ℕ) × LastBreaks start.now runs.now number there × (found.new ≡ found.old ++ there)) }
{
    let Some((last, earlier)) = runs.split_last() else {
        return Err(AllocError);
    };
    let scene = scene_after(alloc, start, earlier)?;
    match scene.unmet(alloc, last.line, last.way, found)? {
        Some(number) => Ok(number),
        None => Err(AllocError),
    }
}

/// The scene after these lines.
fn scene_after(alloc: Global, start: &Scene, earlier: &[Run<'_>]) -> Result<Scene, AllocError>
    ensures { IfOk result (RunsLead start.now earlier.now) }
{
    let mut scene = start.copied(alloc)?;
    for index in 0..earlier.len() {
        scene = next_scene(alloc, &scene, &earlier[index])?;
    }
    Ok(scene)
}

/// The scene after a line that leads on, as each line before the last one of an order does.
fn next_scene(alloc: Global, scene: &Scene, run: &Run<'_>) -> Result<Scene, AllocError>
    ensures { IfOk result (λ next. LineSteps scene.now run.now.line.now run.now.way next) }
{
    match scene.after(alloc, run.line, run.way)? {
        Some(next) => Ok(next),
        None => Err(AllocError),
    }
}

/// Appends the comments before a script that breaks the expectation of the line with this number, and finds this instead.
pub fn push_heading(
    alloc: Global,
    lines: &[Vec<u8>],
    number: u64,
    found: &[u8],
    text: &mut Text,
) -> Result<(), AllocError>
    ensures { OnOk result (text.new ≡ text.old ++ heading_text number (line_at lines.now number) found.now) }
{
    let mut comment = Text::new(alloc);
    push_breaks(number, line_at(lines, number), &mut comment)?;
    push_short(comment.as_bytes(), text)?;
    push_found(found, text)
}

/// Appends which line breaks.
fn push_breaks(number: u64, broken: &[u8], text: &mut Text) -> Result<(), AllocError>
    ensures { OnOk result (text.new ≡ text.old ++ breaks_text number broken.now) }
{
    text.push(b"# line ")?;
    text.push_decimal(number)?;
    text.push(b" breaks: ")?;
    text.push(broken)
}

/// Appends what holds in place of the expectation, and what a reader may do with the script.
fn push_found(found: &[u8], text: &mut Text) -> Result<(), AllocError>
    ensures { OnOk result (text.new ≡ text.old ++ (comment_text found.now ++ comment_text (codes "run this script to see it"))) }
{
    push_comment(found, text)?;
    push_comment(b"run this script to see it", text)
}

/// Appends a comment.
fn push_comment(line: &[u8], text: &mut Text) -> Result<(), AllocError>
    ensures { OnOk result (text.new ≡ text.old ++ comment_text line.now) }
{
    text.push(b"# ")?;
    text.push(line)?;
    text.end()
}

/// Appends a line, of a longer one as much as a line may have.
fn push_short(line: &[u8], text: &mut Text) -> Result<(), AllocError>
    ensures { OnOk result (text.new ≡ text.old ++ short_line line.now) }
{
    text.push(&line[..line.len().min(LINE_LENGTH)])?;
    text.end()
}

/// Appends the line of this number, as the file has it.
fn push_line(lines: &[Vec<u8>], number: u64, text: &mut Text) -> Result<(), AllocError>
    ensures { OnOk result (text.new ≡ text.old ++ (line_at lines.now number ++ 10 ∷ [])) }
{
    text.push(line_at(lines, number))?;
    text.end()
}

/// Appends the lines of these numbers, as the file has them.
pub fn push_lines(lines: &[Vec<u8>], numbers: &[u64], text: &mut Text) -> Result<(), AllocError>
    ensures { OnOk result (text.new ≡ text.old ++ lines_text lines.now numbers.now) }
{
    for index in 0..numbers.len() {
        push_line(lines, numbers[index], text)?;
    }
    Ok(())
}

/// Appends lines that run, each behind its cuts.
pub fn push_runs(lines: &[Vec<u8>], runs: &[Run<'_>], text: &mut Text) -> Result<(), AllocError>
    ensures { OnOk result (text.new ≡ text.old ++ runs_text lines.now runs.now) }
{
    for index in 0..runs.len() {
        push_run_of(lines, &runs[index], text)?;
    }
    Ok(())
}

/// Appends a line that runs, if it has a command: a place where expectations alone are tested isn't a line of the script.
fn push_run_of(lines: &[Vec<u8>], run: &Run<'_>, text: &mut Text) -> Result<(), AllocError>
    ensures { OnOk result (text.new ≡ text.old ++ told_text lines.now run.now) }
{
    if run.line.command.is_some() {
        return push_run(lines, run, text);
    }
    Ok(())
}

/// Appends a line that runs, behind its cuts.
fn push_run(lines: &[Vec<u8>], run: &Run<'_>, text: &mut Text) -> Result<(), AllocError>
    ensures { OnOk result (text.new ≡ text.old ++ run_text lines.now run.now) }
{
    push_cuts(&run.line.risk, run.way, b"\n", text)?;
    text.push(line_at(lines, run.line.number))?;
    text.end()
}

/// Appends the expectation of the line with this number as an `expect`.
pub fn push_expectation(lines: &[Vec<u8>], number: u64, text: &mut Text) -> Result<(), AllocError>
    ensures { OnOk result (text.new ≡ text.old ++ expectation_text (line_at lines.now number)) }
{
    let broken = line_at(lines, number);
    text.push(b"expect")?;
    text.push(&broken[TOKEN_LENGTH.min(broken.len())..])?;
    text.end()
}
