ghost use Rattle.std.specs.Prelude.{◌≡◌, ◌↔◌, IsTrue};

use arrayvec::ArrayVec;
use i3c_base::{WAITING, Waiting};

/// A copy of some interrupts, in their order.
pub(crate) fn copied(waiting: &ArrayVec<Waiting, WAITING>) -> ArrayVec<Waiting, WAITING>
    ensures { result.items ≡ waiting.now.items }
{
    let mut queue: ArrayVec<Waiting, WAITING> = ArrayVec::new();
    for interrupt in waiting.iter() {
        queue.push(*interrupt);
    }
    queue
}

/// Copies the interrupts of another queue, in their order.
#[inline(always)]
pub(crate) fn copy_from(
    waiting: &mut ArrayVec<Waiting, WAITING>,
    others: &ArrayVec<Waiting, WAITING>,
)
    ensures { waiting.new.items ≡ others.now.items }
{
    if !others.is_empty() || !waiting.is_empty() {
        copy_some(waiting, others);
    }
}

/// The same where some wait.
// kept apart, since few devices have an interrupt that waits
#[inline(never)]
fn copy_some(waiting: &mut ArrayVec<Waiting, WAITING>, others: &ArrayVec<Waiting, WAITING>)
    ensures { waiting.new.items ≡ others.now.items }
{
    waiting.clear();
    let Ok(()) = waiting.try_extend_from_slice(others.as_slice()) else {
        unreachable!()
    };
}

/// Whether the same interrupts wait in both, in the same order.
#[inline(always)]
pub(crate) fn are_same(
    waiting: &ArrayVec<Waiting, WAITING>,
    others: &ArrayVec<Waiting, WAITING>,
) -> bool
    ensures { IsTrue result ↔ (waiting.now.items ≡ others.now.items) }
{
    if others.is_empty() {
        waiting.is_empty()
    } else {
        have_same_items(waiting, others)
    }
}

/// The same where some wait.
// kept apart, since few devices have an interrupt that waits
#[inline(never)]
fn have_same_items(
    waiting: &ArrayVec<Waiting, WAITING>,
    others: &ArrayVec<Waiting, WAITING>,
) -> bool
    ensures { IsTrue result ↔ (waiting.now.items ≡ others.now.items) }
{
    waiting.as_slice() == others.as_slice()
}

/// A number that equal queues have in common, of the bytes of their interrupts.
pub(crate) fn queue_key(waiting: &ArrayVec<Waiting, WAITING>) -> u64 {
    let mut key = waiting.len() as u64;
    for interrupt in waiting.iter() {
        let byte = u64::from(interrupt.byte.unwrap_or(0));
        key = key.wrapping_mul(31).wrapping_add(byte);
    }
    key
}
