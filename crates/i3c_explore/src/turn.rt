ghost use Rattle.std.specs.Prelude.{◌≡◌, ◌++◌, ◌∷◌, [], IfOk};

use std::alloc::AllocError;

/// One turn of an order: the next line of a track is run.
#[derive(Clone, Copy, Debug, PartialEq, Eq)]
pub struct Turn {
    /// The track, counted from 0.
    pub track: usize,
    /// The way that the line goes, counted from 0.
    pub way: usize,
}

/// For how many more turns a new order has room, so that the room serves in later layers too.
const SPARE: usize = 16;

/// An order with one more turn at its end.
pub(crate) fn extended(order: &Vec<Turn>, turn: Turn) -> Result<Vec<Turn>, AllocError>
    ensures { IfOk result (λ longer. longer.items ≡ order.now.items ++ turn ∷ []) }
{
    let mut longer = order.clone()?;
    longer.push(turn)?;
    Ok(longer)
}

/// The same in the room of another order.
pub(crate) fn extended_in(
    room: Vec<Turn>,
    order: &Vec<Turn>,
    turn: Turn,
) -> Result<Vec<Turn>, AllocError>
    ensures { IfOk result (λ longer. longer.items ≡ order.now.items ++ turn ∷ []) }
{
    let mut longer = room;
    longer.clear();
    if longer.capacity() <= order.len() {
        longer.reserve(order.len().saturating_add(SPARE))?;
    }
    longer.extend_from_slice(order)?;
    longer.push(turn)?;
    Ok(longer)
}
