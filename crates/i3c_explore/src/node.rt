ghost use Rattle.std.specs.Prelude.{◌≡◌, ◌<◌, ◌^◌, ◌+◌, ◌++◌, ◌∷◌, [], ℕ, IfOk, IsTrue, length, slice_index, if◌then◌else◌, ◌==◌, Some};
ghost use Rattle.i3c_explore.specs.Numbers.{IsNumber, IsSum};
ghost use Rattle.i3c_explore.specs.Layers.{advanced, by_way};

use crate::machine::Machine;
use crate::turn::Turn;
use std::alloc::AllocError;

/// A state that orders lead to.
#[derive(Drop)]
pub struct Node<M> {
    /// The state.
    pub state: M,
    /// How many lines of each track have run.
    pub places: Vec<usize>,
    /// The first order that leads here, the oldest turn first.
    pub order: Vec<Turn>,
    /// The number of orders that lead here with each line in way 0, or none if it is over 18446744073709551615.
    pub orders: Option<u64>,
}

/// Whether a node is at these places, with the state that a runner is in.
pub(crate) fn is_alike<M: Machine>(node: &Node<M>, places: &Vec<usize>, runner: &M::Runner) -> bool
    ensures places { IsTrue result → node.now.places.items ≡ places.now.items }
    ensures state { IsTrue result → node.now.state ≡ M.shown runner.now }
{
    node.places.as_slice() == places.as_slice() && node.state.is_of(runner)
}

/// Whether two nodes are at the same places, with the same state.
pub(crate) fn is_like<M: Machine>(node: &Node<M>, other: &Node<M>) -> bool
    ensures places { IsTrue result → node.now.places.items ≡ other.now.places.items }
    ensures state { IsTrue result → node.now.state ≡ other.now.state }
{
    node.places.as_slice() == other.places.as_slice() && node.state.is_same(&other.state)
}

/// The sum of two numbers of orders.
pub(crate) fn sum(one: Option<u64>, other: Option<u64>) -> Option<u64>
    ensures { IsSum one other result }
{
    match (one, other) {
        (Some(one), Some(other)) => one.checked_add(other),
        _ => None,
    }
}

/// The number of orders that one more turn leads on: those of way 0 are counted.
pub(crate) fn counted(orders: Option<u64>, way: usize) -> Option<u64>
    ensures { result ≡ by_way way orders }
{
    if way == 0 { orders } else { Some(0) }
}

/// The same places, in the room of other ones.
pub(crate) fn placed_in(room: Vec<usize>, places: &Vec<usize>) -> Result<Vec<usize>, AllocError>
    ensures { IfOk result (λ copy. copy.items ≡ places.now.items) }
{
    let mut copy = room;
    copy.clear();
    copy.extend_from_slice(places)?;
    Ok(copy)
}

/// The places where one more line of a track has run, in the room of other ones.
pub(crate) fn moved_on(
    room: Vec<usize>,
    places: &Vec<usize>,
    track: usize,
) -> Result<Vec<usize>, AllocError>
    requires within { track < length places.now.items }
    requires fits { slice_index places.now.items track + 1 < 2 ^ 64 }
    ensures { IfOk result (λ moved. moved.items ≡ advanced track places.now.items) }
{
    let mut moved = placed_in(room, places)?;
    moved[track] += 1;
    Ok(moved)
}
