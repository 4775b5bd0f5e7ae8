use std::alloc::{AllocError, Global};

/// The number of bytes of its stack that the program may use. A stress run uses most, some 640 KB.
const STACK: usize = 786_432;

/// Makes sure that the stack has the room that the program needs, whatever `seed` is.
///
/// The system adds pages to a stack where they are first touched, and where it can't, it ends the program by a signal. So
/// the same room is asked for, where want of it is an answer, and given back. Then the pages of the stack are touched, and
/// stay.
///
/// # Errors
///
/// There is no memory for it.
pub(crate) fn make_stack(alloc: Global, seed: u8) -> Result<(), AllocError> {
    let room: Vec<u8> = Vec::with_capacity(alloc, STACK)?;
    drop(room);
    if touched(seed) == seed {
        Ok(())
    } else {
        Err(AllocError)
    }
}

/// Touches the pages of the stack: each byte becomes `seed`. Answers one of them.
// not in line, since its locals would stay on the stack of its caller
#[inline(never)]
fn touched(seed: u8) -> u8 {
    let pages = [seed; STACK];
    pages[seed as usize]
}
