use crate::node::Node;
use std::alloc::{AllocError, Global};

/// The bits that a track's place has in the number of places. Where a track has more lines than these hold, different
/// places can have the same number, and the lines are shared out less evenly.
pub(crate) const BITS: u32 = 8;

/// A number for places. The first track's place is in its highest bits.
pub(crate) fn code_of(places: &Vec<usize>, weights: &[u64]) -> u64 {
    let mut code = 0u64;
    for (place, weight) in places.iter().zip(weights) {
        code = code.wrapping_add((*place as u64).wrapping_mul(*weight));
    }
    code
}

/// The weights of all tracks: what one more line of each adds to the number.
pub(crate) fn weights_of(alloc: Global, tracks: usize) -> Result<Vec<u64>, AllocError> {
    let mut weights = Vec::new(alloc);
    let mut weight = 1u64.rotate_right(BITS);
    for _ in 0..tracks {
        weights.push(weight)?;
        weight = weight.rotate_right(BITS);
    }
    Ok(weights)
}

/// The numbers of all nodes' places.
pub(crate) fn codes_of<M>(
    alloc: Global,
    layer: &[Node<M>],
    tracks: usize,
) -> Result<Vec<u64>, AllocError> {
    let weights = weights_of(alloc, tracks)?;
    let mut codes = Vec::with_capacity(alloc, layer.len())?;
    for node in layer {
        codes.push(code_of(&node.places, &weights))?;
    }
    Ok(codes)
}
