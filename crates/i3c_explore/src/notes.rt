ghost use Rattle.std.specs.Prelude.{◌≡◌, ℕ, IfOk, Some, length, slice_get, true};
ghost use Rattle.i3c_explore.specs.Blocks.{block};
ghost use Rattle.i3c_explore.specs.Notes.{Adds, HasShape, IsMarked, IsUnmarked};

use std::alloc::{AllocError, Global};

/// A mark for each line of a track. None is set.
fn unmarked_track<L>(alloc: Global, track: &Vec<L>) -> Result<Vec<bool>, AllocError>
    ensures sized { IfOk result (λ marks. length marks.items ≡ length track.now.items) }
    ensures unmarked { IfOk result (λ marks. (k : ℕ) → slice_get marks.items k ≡ Some true → ⊥) }
{
    vec![in alloc; false; track.len()]
}

/// A mark for each line of a block. None is set.
pub(crate) fn unmarked<L>(alloc: Global, tracks: &[Vec<L>]) -> Result<Vec<Vec<bool>>, AllocError>
    ensures shape { IfOk result (λ marks. HasShape tracks.now marks.items) }
    ensures unmarked { IfOk result (λ marks. IsUnmarked marks.items) }
{
    let mut marks = Vec::new(alloc);
    for track in 0..tracks.len() {
        marks.push(unmarked_track(alloc, &tracks[track])?)?;
    }
    Ok(marks)
}

/// A mark for each line of each block. None is set.
pub(crate) fn all_unmarked<L>(
    alloc: Global,
    blocks: &[Vec<Vec<L>>],
) -> Result<Vec<Vec<Vec<bool>>>, AllocError>
    ensures sized { IfOk result (λ noted. length noted.items ≡ length blocks.now) }
    ensures shape { IfOk result (λ noted. (b : ℕ) → HasShape (block blocks.now b) (block noted.items b)) }
    ensures unmarked { IfOk result (λ noted. (b : ℕ) → IsUnmarked (block noted.items b)) }
{
    let mut noted = Vec::new(alloc);
    for index in 0..blocks.len() {
        noted.push(unmarked(alloc, &blocks[index])?)?;
    }
    Ok(noted)
}

/// Marks a line of a block, if it has a mark.
pub(crate) fn mark(noted: &mut Vec<Vec<bool>>, track: usize, line: usize)
    ensures { Adds (λ t k. (t ≡ track) × (line ≡ k)) noted.old.items noted.new.items }
{
    if track >= noted.len() {
        return;
    }
    if line >= noted[track].len() {
        return;
    }
    noted[track][line] = true;
}

/// Marks the lines of a track that are marked in other marks.
fn add_track(noted: &mut Vec<Vec<bool>>, track: usize, more: &Vec<bool>)
    ensures { Adds (λ t k. (t ≡ track) × (slice_get more.now.items k ≡ Some true)) noted.old.items noted.new.items }
{
    for line in 0..more.len() {
        if more[line] {
            mark(noted, track, line);
        }
    }
}

/// Marks the lines that are marked in other marks.
pub(crate) fn add(noted: &mut Vec<Vec<bool>>, more: &Vec<Vec<bool>>)
    ensures { Adds (IsMarked more.now.items) noted.old.items noted.new.items }
{
    for track in 0..more.len() {
        add_track(noted, track, &more[track]);
    }
}
