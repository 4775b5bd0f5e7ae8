ghost use Rattle.std.specs.Prelude.{◌≡◌, ◌<◌, ◌+◌, ◌^◌, ◌++◌, [], ℕ, List, IfOk, OnOk, false, length, not, true, if◌then◌else◌};
ghost use Rattle.i3c_tracks.specs.Ends.{AreEndTexts, IsEndText, numbers_text};
ghost use Rattle.i3c_tracks.specs.Reports.{AreShown, IsReport};
ghost use Rattle.i3c_scene.specs.Trying.{ways_of};
ghost use Rattle.i3c_tracks.specs.Telling.{cut_before, cuts_before, head_text, like_text, line_at, orders_text, parted_text, parting, short_run_text};

use crate::course::{Run, runs_of};
use crate::groups::push_groups;
use crate::plan::Plan;
use crate::question::Question;
use crate::showing::Showing;
use crate::unexpected::push_unexpected;
use i3c_explore::{Explored, Machine, Node};
use i3c_lines::Name;
use i3c_scene::{Risk, Runner, Scene, ways_of};
use i3c_text::Text;
use std::alloc::{AllocError, Global};

/// What is told of more than 64 bits.
const OVER: &[u8] = b"over 18446744073709551615";

/// Appends the whole report: the numbers, the lines that were refused with nothing expected of them, and then what is shown
/// of the ends.
pub(crate) fn push_report(
    alloc: Global,
    lines: &[Vec<u8>],
    plan: &Plan,
    showing: Showing,
    questions: &[Question],
    found: &Explored<Scene>,
    text: &mut Text,
) -> Result<(), AllocError>
    requires { found.now.steps + length plan.now.before.items < 2 ^ 64 }
    ensures { OnOk result ((said : List ℕ) × IsReport showing questions.now lines.now plan.now found.now.ends.items found.now.orders (found.now.steps + length plan.now.before.items) found.now.noted.items said × (text.new ≡ text.old ++ said)) }
{
    let steps = found.steps + plan.before.len() as u64;
    push_numbers(found.orders, steps, found.ends.len() as u64, text)?;
    push_unexpected(alloc, lines, plan, showing, &found.noted, text)?;
    push_shown(alloc, lines, plan, showing, questions, &found.ends, text)
}

/// Appends what is shown of the ends: in groups, if something is asked of them.
fn push_shown(
    alloc: Global,
    lines: &[Vec<u8>],
    plan: &Plan,
    showing: Showing,
    questions: &[Question],
    ends: &[Node<Scene>],
    text: &mut Text,
) -> Result<(), AllocError>
    ensures { OnOk result ((said : List ℕ) × AreShown showing questions.now lines.now plan.now ends.now said × (text.new ≡ text.old ++ said)) }
{
    if !questions.is_empty() {
        return push_groups(alloc, lines, plan, showing, questions, ends, text);
    }
    match showing {
        Showing::Ends => push_ends(alloc, lines, plan, ends, text),
        Showing::Numbers => Ok(()),
    }
}

/// Appends the numbers of orders, of lines that were run, and of ends.
fn push_numbers(
    orders: Option<u64>,
    steps: u64,
    ends: u64,
    text: &mut Text,
) -> Result<(), AllocError>
    ensures { OnOk result (text.new ≡ text.old ++ numbers_text orders steps ends) }
{
    text.push(b"orders ")?;
    push_orders(orders, text)?;
    text.end()?;
    text.push_numbered(b"steps ", steps)?;
    text.push_numbered(b"ends ", ends)
}

/// Appends the ends, one after another.
fn push_ends(
    alloc: Global,
    lines: &[Vec<u8>],
    plan: &Plan,
    ends: &[Node<Scene>],
    text: &mut Text,
) -> Result<(), AllocError>
    ensures { OnOk result ((said : List ℕ) × AreEndTexts lines.now plan.now.blocks.items plan.now.opened.items (not plan.now.risky) ends.now (length ends.now) said × (text.new ≡ text.old ++ said)) }
{
    let Some(first) = ends.first() else {
        return Ok(());
    };
    let mut runner = first.state.runner(alloc)?;
    for index in 0..ends.len() {
        let number = index as u64 + 1;
        push_end(alloc, lines, plan, number, &ends[index], &mut runner, text)?;
    }
    Ok(())
}

/// Appends a number of orders.
pub(crate) fn push_orders(orders: Option<u64>, text: &mut Text) -> Result<(), AllocError>
    ensures { OnOk result (text.new ≡ text.old ++ orders_text orders) }
{
    match orders {
        Some(orders) => text.push_decimal(orders),
        None => text.push(OVER),
    }
}

/// Appends the first line of an end. The orders that lead to it are told if each interleaving leads to one end.
fn push_head(
    number: u64,
    orders: Option<u64>,
    counted: bool,
    text: &mut Text,
) -> Result<(), AllocError>
    ensures { OnOk result (text.new ≡ text.old ++ head_text number orders counted) }
{
    text.push(b"end ")?;
    text.push_decimal(number)?;
    if counted {
        text.push(b" of ")?;
        push_orders(orders, text)?;
        text.push(b" orders")?;
    }
    text.end()
}

/// Appends an end: its number, the bus as it is, and the first order that leads there.
pub(crate) fn push_end(
    alloc: Global,
    lines: &[Vec<u8>],
    plan: &Plan,
    number: u64,
    end: &Node<Scene>,
    runner: &mut Runner,
    text: &mut Text,
) -> Result<(), AllocError>
    ensures { OnOk result ((said : List ℕ) × IsEndText lines.now plan.now.blocks.items plan.now.opened.items (not plan.now.risky) number end.now said × (text.new ≡ text.old ++ said)) }
{
    push_head(number, end.orders, !plan.risky, text)?;
    end.state.show(alloc, runner, text)?;
    let runs = runs_of(alloc, &plan.blocks, &plan.opened, &end.order)?;
    push_like(lines, &runs, text)
}

/// Appends the lines of blocks among these, in one line.
fn push_like(lines: &[Vec<u8>], runs: &[Run<'_>], text: &mut Text) -> Result<(), AllocError>
    ensures { OnOk result (text.new ≡ text.old ++ like_text lines.now runs.now) }
{
    text.push(b"like")?;
    push_parted(lines, runs, text)?;
    text.end()
}

/// Appends the lines of blocks among these, separated by ` / `.
fn push_parted(lines: &[Vec<u8>], runs: &[Run<'_>], text: &mut Text) -> Result<(), AllocError>
    ensures { OnOk result (text.new ≡ text.old ++ parted_text lines.now true runs.now) }
{
    let mut is_first = true;
    for index in 0..runs.len() {
        is_first = push_parted_run(lines, &runs[index], is_first, text)?;
    }
    Ok(())
}

/// Appends a line behind its separator, if it is one of a block. Answers whether the next such line is the first.
fn push_parted_run(
    lines: &[Vec<u8>],
    run: &Run<'_>,
    is_first: bool,
    text: &mut Text,
) -> Result<bool, AllocError>
    ensures text { OnOk result (text.new ≡ text.old ++ (if run.now.opened then parting is_first ++ short_run_text lines.now run.now else [])) }
    ensures first { IfOk result (λ left. left ≡ (if run.now.opened then false else is_first)) }
{
    if !run.opened {
        return Ok(is_first);
    }
    text.push(parting(is_first))?;
    push_like_line(lines, run, text)?;
    Ok(false)
}

/// The separator in front of a line.
fn parting(is_first: bool) -> &'static [u8]
    ensures { result.now ≡ parting is_first }
{
    if is_first { b" " } else { b" / " }
}

/// Appends a line as the file has it, behind its cuts.
fn push_like_line(lines: &[Vec<u8>], run: &Run<'_>, text: &mut Text) -> Result<(), AllocError>
    ensures { OnOk result (text.new ≡ text.old ++ short_run_text lines.now run.now) }
{
    push_cuts(&run.line.risk, run.way, b" / ", text)?;
    text.push(line_at(lines, run.line.number))
}

/// Appends the cuts of a line that goes this way, each with the text behind it.
pub fn push_cuts(risk: &Risk, way: usize, between: &[u8], text: &mut Text) -> Result<(), AllocError>
    ensures { OnOk result (text.new ≡ text.old ++ cuts_before risk.now (ways_of risk.now way) between.now) }
{
    let ways = ways_of(risk, way);
    match risk {
        Risk::Nobody => Ok(()),
        Risk::One(name) => push_cut(name, ways.one, between, text),
        Risk::Two(name, other) => {
            push_cut(name, ways.one, between, text)?;
            push_cut(other, ways.other, between, text)
        }
    }
}

/// Appends the `cut` of a device in this way, and the text behind it. In way 0 there is nothing to append.
fn push_cut(name: &Name, way: usize, between: &[u8], text: &mut Text) -> Result<(), AllocError>
    ensures { OnOk result (text.new ≡ text.old ++ cut_before name.now way between.now) }
{
    let Some(bit) = way.checked_sub(1) else {
        return Ok(());
    };
    text.push(b"cut ")?;
    text.push(name.as_bytes())?;
    text.push(b" ")?;
    text.push_decimal(bit as u64)?;
    text.push(between)
}

/// The line of this number, as the file has it.
pub(crate) fn line_at(lines: &[Vec<u8>], number: u64) -> &[u8]
    ensures { result.now ≡ line_at lines.now number }
{
    match lines.get(number.saturating_sub(1) as usize) {
        Some(line) => line.as_slice(),
        None => &[],
    }
}
