ghost use Rattle.std.specs.Prelude.{◌≡◌, ◌<◌, ◌≤◌, ◌+◌, ◌++◌, ℕ, List, Some, IfOk, OnOk, count_by, false, if◌then◌else◌, length, map, slice_get, suc, true};
ghost use Rattle.i3c_explore.specs.declared.node.Node.{Node as NodeValue};
ghost use Rattle.i3c_explore.specs.declared.ran.Ran.{Ran as RanValue};
ghost use Rattle.i3c_scene.specs.Scenes.{Seen};
ghost use Rattle.i3c_tracks.specs.Groups.{Adds, AreGroupTexts, AreGroups, IsExample, IsGroupText, LeadTo, answer_text, answers_text, are_alike, begins_at, group_head, group_of, groups_in, holds_in, key_of, keys_of, led_text};
ghost use Rattle.i3c_tracks.specs.Planning.{step_of};
ghost use Rattle.i3c_tracks.specs.Questions.{asking};
ghost use Rattle.i3c_tracks.specs.declared.question.Question.{Question as QuestionValue};

use crate::plan::Plan;
use crate::question::Question;
use crate::report::{push_end, push_orders};
use crate::showing::Showing;
use i3c_explore::{Machine, Node, Ran};
use i3c_scene::{Line, Runner, Scene};
use i3c_text::Text;
use std::alloc::{AllocError, Global};

/// Appends the number of groups, and then each group with its first end. Ends are of one group if the same questions hold at
/// both. The groups are in the order of their first ends.
pub(crate) fn push_groups(
    alloc: Global,
    lines: &[Vec<u8>],
    plan: &Plan,
    showing: Showing,
    questions: &[Question],
    ends: &[Node<Scene>],
    text: &mut Text,
) -> Result<(), AllocError>
    ensures { OnOk result ((said : List ℕ) × AreGroups showing lines.now plan.now questions.now ends.now said × (text.new ≡ text.old ++ said)) }
{
    let keys = keys_of(alloc, questions, ends)?;
    text.push_numbered(b"groups ", count_groups(&keys))?;
    push_all(alloc, lines, plan, showing, questions, ends, &keys, text)
}

/// Which of the questions hold at each end.
fn keys_of(
    alloc: Global,
    questions: &[Question],
    ends: &[Node<Scene>],
) -> Result<Vec<Vec<bool>>, AllocError>
    ensures { IfOk result (λ keys. map (λ key. key.items) keys.items ≡ keys_of questions.now ends.now) }
{
    let mut keys = Vec::new(alloc);
    let Some(first) = ends.first() else {
        return Ok(keys);
    };
    let mut runner = first.state.runner(alloc)?;
    let asked = asked_of(alloc, questions)?;
    for index in 0..ends.len() {
        keys.push(key_of(alloc, &asked, &ends[index].state, &mut runner)?)?;
    }
    Ok(keys)
}

/// The lines that expect what is asked.
fn asked_of(alloc: Global, questions: &[Question]) -> Result<Vec<Line>, AllocError>
    ensures { IfOk result (λ asked. map step_of asked.items ≡ map asking questions.now) }
{
    let mut asked = Vec::new(alloc);
    for index in 0..questions.len() {
        asked.push(questions[index].line(alloc)?)?;
    }
    Ok(asked)
}

/// Which questions hold in a state, by the lines that expect what they ask. A runner in any state serves for it.
fn key_of(
    alloc: Global,
    asked: &[Line],
    state: &Scene,
    runner: &mut Runner,
) -> Result<Vec<bool>, AllocError>
    ensures { IfOk result (λ key. (questions : List QuestionValue) → map step_of asked.now ≡ map asking questions → key.items ≡ map (holds_in state.now) questions) }
{
    let mut key = Vec::new(alloc);
    for index in 0..asked.len() {
        let ran = state.run(alloc, &asked[index], 0, false, runner)?;
        key.push(is_unbroken(ran))?;
    }
    Ok(key)
}

/// Whether a line that ran breaks nothing.
fn is_unbroken(ran: Ran) -> bool
    ensures held { result ≡ true → ran ≡ RanValue.Broken → ⊥ }
    ensures broken { result ≡ false → ran ≡ RanValue.Broken }
{
    match ran {
        Ran::Held | Ran::Noted => true,
        Ran::Broken => false,
    }
}

/// Whether a group begins at this place: no end before it has the same key.
fn begins_at(keys: &[Vec<bool>], place: usize) -> bool
    requires { place < length keys.now }
    ensures { result ≡ begins_at (map (λ key. key.items) keys.now) place }
{
    for index in 0..place {
        if keys[index].as_slice() == keys[place].as_slice() {
            return false;
        }
    }
    true
}

/// How many groups there are.
fn count_groups(keys: &[Vec<bool>]) -> u64
    ensures { result ≡ groups_in (map (λ key. key.items) keys.now) (length keys.now) }
{
    let mut count: u64 = 0;
    for index in 0..keys.len() {
        if begins_at(keys, index) {
            count += 1;
        }
    }
    count
}

/// Appends each group with its first end.
fn push_all(
    alloc: Global,
    lines: &[Vec<u8>],
    plan: &Plan,
    showing: Showing,
    questions: &[Question],
    ends: &[Node<Scene>],
    keys: &[Vec<bool>],
    text: &mut Text,
) -> Result<(), AllocError>
    requires { map (λ key. key.items) keys.now ≡ keys_of questions.now ends.now }
    ensures { OnOk result ((said : List ℕ) × AreGroupTexts showing lines.now plan.now questions.now ends.now (length ends.now) said × (text.new ≡ text.old ++ said)) }
{
    let Some(first) = ends.first() else {
        return Ok(());
    };
    let mut runner = first.state.runner(alloc)?;
    let mut groups: u64 = 0;
    for index in 0..ends.len() {
        groups = push_place(
            alloc,
            lines,
            plan,
            showing,
            questions,
            ends,
            keys,
            index,
            groups,
            &mut runner,
            text,
        )?;
    }
    Ok(())
}

/// Appends the group that begins at this place, if one does, behind those before it. Answers how many there are then.
fn push_place(
    alloc: Global,
    lines: &[Vec<u8>],
    plan: &Plan,
    showing: Showing,
    questions: &[Question],
    ends: &[Node<Scene>],
    keys: &[Vec<bool>],
    place: usize,
    before: u64,
    runner: &mut Runner,
    text: &mut Text,
) -> Result<u64, AllocError>
    requires keys { map (λ key. key.items) keys.now ≡ keys_of questions.now ends.now }
    requires within { place < length ends.now }
    requires few { before ≤ place }
    ensures groups { IfOk result (λ groups. groups ≡ (if begins_at (keys_of questions.now ends.now) place then suc before else before)) }
    ensures text { OnOk result ((end : NodeValue Seen) × (said : List ℕ) × (slice_get ends.now place ≡ Some end)
        × Adds (begins_at (keys_of questions.now ends.now) place) showing lines.now plan.now questions.now ends.now (suc before) (suc place) end said × (text.new ≡ text.old ++ said)) }
{
    let begins = begins_at(keys, place);
    if !begins {
        return Ok(before);
    }
    push_group(
        alloc,
        lines,
        plan,
        showing,
        questions,
        ends,
        keys,
        place,
        before + 1,
        runner,
        text,
    )?;
    Ok(before + 1)
}

/// Appends the group of this number that begins at this place.
fn push_group(
    alloc: Global,
    lines: &[Vec<u8>],
    plan: &Plan,
    showing: Showing,
    questions: &[Question],
    ends: &[Node<Scene>],
    keys: &[Vec<bool>],
    place: usize,
    number: u64,
    runner: &mut Runner,
    text: &mut Text,
) -> Result<(), AllocError>
    requires keys { map (λ key. key.items) keys.now ≡ keys_of questions.now ends.now }
    requires within { place < length ends.now }
    ensures { OnOk result ((end : NodeValue Seen) × (said : List ℕ) × (slice_get ends.now place ≡ Some end)
        × IsGroupText showing lines.now plan.now questions.now ends.now number (suc place) end said × (text.new ≡ text.old ++ said)) }
{
    let key = keys[place].as_slice();
    let size = size_of(keys, key);
    let orders = orders_of(ends, keys, key);
    push_head(number, size, orders, !plan.risky, text)?;
    push_answers(questions, key, text)?;
    push_example(
        alloc,
        lines,
        plan,
        showing,
        place as u64 + 1,
        &ends[place],
        runner,
        text,
    )
}

/// How many ends have this key.
fn size_of(keys: &[Vec<bool>], key: &[bool]) -> u64
    ensures { result ≡ count_by (λ one. are_alike one key.now) (map (λ key. key.items) keys.now) }
{
    let mut size: u64 = 0;
    for index in 0..keys.len() {
        if keys[index].as_slice() == key {
            size += 1;
        }
    }
    size
}

/// How many orders lead to the ends with this key.
fn orders_of(ends: &[Node<Scene>], keys: &[Vec<bool>], key: &[bool]) -> Option<u64>
    requires { length keys.now ≡ length ends.now }
    ensures { (questions : List QuestionValue) → map (λ key. key.items) keys.now ≡ keys_of questions ends.now → LeadTo (group_of questions key.now ends.now) result }
{
    let mut orders: u64 = 0;
    for index in 0..ends.len() {
        if keys[index].as_slice() == key {
            orders = orders.checked_add(ends[index].orders?)?;
        }
    }
    Some(orders)
}

/// Appends the first line of a group.
fn push_head(
    number: u64,
    size: u64,
    orders: Option<u64>,
    counted: bool,
    text: &mut Text,
) -> Result<(), AllocError>
    ensures { OnOk result (text.new ≡ text.old ++ group_head number size orders counted) }
{
    text.push(b"group ")?;
    text.push_decimal(number)?;
    text.push(b" of ")?;
    text.push_decimal(size)?;
    push_led(orders, counted, text)
}

/// Appends how many orders lead to the ends of a group, if each interleaving leads to one end.
fn push_led(orders: Option<u64>, counted: bool, text: &mut Text) -> Result<(), AllocError>
    ensures { OnOk result (text.new ≡ text.old ++ led_text orders counted) }
{
    if !counted {
        return text.push(b" ends\n");
    }
    text.push(b" ends of ")?;
    push_orders(orders, text)?;
    text.push(b" orders\n")
}

/// Appends which of the questions hold at the ends of a group.
fn push_answers(questions: &[Question], key: &[bool], text: &mut Text) -> Result<(), AllocError>
    ensures { OnOk result (text.new ≡ text.old ++ answers_text questions.now key.now) }
{
    for index in 0..questions.len().min(key.len()) {
        push_answer(&questions[index], key[index], text)?;
    }
    Ok(())
}

/// Appends whether a question holds.
fn push_answer(question: &Question, holds: bool, text: &mut Text) -> Result<(), AllocError>
    ensures { OnOk result (text.new ≡ text.old ++ answer_text question.now holds) }
{
    text.push(if holds { b"holds " } else { b"fails " })?;
    text.push(&question.text)?;
    text.end()
}

/// Appends the first end of a group, unless no end is shown.
fn push_example(
    alloc: Global,
    lines: &[Vec<u8>],
    plan: &Plan,
    showing: Showing,
    number: u64,
    end: &Node<Scene>,
    runner: &mut Runner,
    text: &mut Text,
) -> Result<(), AllocError>
    ensures { OnOk result ((said : List ℕ) × IsExample showing lines.now plan.now number end.now said × (text.new ≡ text.old ++ said)) }
{
    match showing {
        Showing::Ends => push_end(alloc, lines, plan, number, end, runner, text),
        Showing::Numbers => Ok(()),
    }
}
