ghost use Rattle.std.specs.Prelude.{◌≡◌};
ghost use Rattle.i3c_explore.specs.Parts.{busy, fork};

/// How many tracks of a block have a line.
fn busy<L>(tracks: &[Vec<L>]) -> usize
    ensures { result ≡ busy tracks.now }
{
    let mut count = 0usize;
    for track in tracks {
        count += track.len().min(1);
    }
    count
}

/// The number of blocks before the first in which two tracks have a line.
pub(crate) fn fork<L>(blocks: &[Vec<Vec<L>>]) -> usize
    ensures { result ≡ fork blocks.now }
{
    for index in 0..blocks.len() {
        if busy(&blocks[index]) >= 2 {
            return index;
        }
    }
    blocks.len()
}
