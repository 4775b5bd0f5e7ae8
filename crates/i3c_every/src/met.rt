use i3c_explore::Turn;

/// Where a run is.
#[derive(Drop)]
pub struct Met<M> {
    /// The state.
    pub state: M,
    /// How many lines of each track have run.
    pub places: Vec<usize>,
    /// The turns of the tracks' lines that ran since the program's line before, the oldest first.
    pub turns: Vec<Turn>,
    /// The way that the program's line went.
    pub way: usize,
}
